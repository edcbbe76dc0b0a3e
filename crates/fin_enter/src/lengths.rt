//! The stored lengths of the fibres of driven reads.
ghost use Rattle.std.specs.Prelude.{◌≡◌, ◌++◌, IfOk, OnOk, slice_index_or};
ghost use Rattle.fin_ir.specs.declared.expression.IExpr.TheVariants as made;
ghost use Rattle.fin_ir.specs.declared.expression.Table.TheVariants as table;
ghost use Rattle.fin_tensor.specs.declared.format.Level.TheVariants as kinds;
ghost use Rattle.fin_read.specs.Values.{format_of as format_told};
ghost use Rattle.fin_enter.specs.Charges as charges;
ghost use Rattle.fin_enter.specs.PushedReads as spec;

use crate::body::{LoopBody, next_place, settled_index};
use fin_base::Op;
use fin_ir::{IExpr, Table};
use fin_nest::two;
use fin_read::{Heads, format_of};
use fin_simp::Access;
use fin_tensor::Level;
use sqlite_items::{Boxed, Items};
use std::alloc::{AllocError, Global};

/// The stored length of the fibre of a level at the position in the local `at`: 0 where there is none, and where the
/// level stores no numbers.
pub fn stored_length(
    alloc: Global,
    kind: Level,
    tensor: u8,
    level: u8,
    at: u32,
) -> Result<IExpr, AllocError>
    ensures { IfOk result (λ e. e ≡ charges.length_code kind tensor level at) }
{
    match kind {
        Level::Dense | Level::Band => Ok(IExpr::Num(0)),
        Level::List | Level::Dict | Level::Runs => placed_length(alloc, tensor, level, at),
    }
}

fn placed_length(alloc: Global, tensor: u8, level: u8, at: u32) -> Result<IExpr, AllocError>
    ensures { IfOk result (λ e. e ≡ charges.placed_length tensor level at) }
{
    let there = two(alloc, Op::Ge, IExpr::Local(at), IExpr::Num(0))?;
    let next = two(alloc, Op::Add, IExpr::Local(at), IExpr::Num(1))?;
    let end = begin_of(alloc, tensor, level, next)?;
    let begin = begin_of(alloc, tensor, level, IExpr::Local(at))?;
    let length = two(alloc, Op::Sub, end, begin)?;
    Ok(IExpr::Pick {
        test: Boxed::new(alloc, there)?,
        yes: Boxed::new(alloc, length)?,
        no: Boxed::new(alloc, IExpr::Num(0))?,
    })
}

// Where the fibre of a level at a position begins.
fn begin_of(alloc: Global, tensor: u8, level: u8, place: IExpr) -> Result<IExpr, AllocError>
    ensures { IfOk result (λ e. e ≡ made.Cell tensor level table.Ptr place) }
{
    let at = Boxed::new(alloc, place)?;
    Ok(IExpr::Cell {
        tensor,
        level,
        table: Table::Ptr,
        at,
    })
}

// At a level of a tensor of the program; where there is no such level there is none.
fn length_at(
    alloc: Global,
    heads: &Heads<'_>,
    tensor: u8,
    level: usize,
    at: u32,
) -> Result<IExpr, AllocError>
    ensures { let kind = slice_index_or (format_told heads.now tensor).levels level kinds.Dense in
        IfOk result (λ e. e ≡ charges.length_code kind tensor level at) }
{
    let format = format_of(alloc, heads, tensor)?;
    if level >= format.levels.len() {
        return Ok(IExpr::Num(0));
    }
    let kind = format.levels.as_slice()[level];
    stored_length(alloc, kind, tensor, level as u8, at)
}

fn push_length(
    alloc: Global,
    into: &mut Items<IExpr>,
    body: LoopBody<'_>,
    access: &Access,
    at: u32,
) -> Result<(), AllocError>
    ensures { OnOk result (into.new ≡ into.old ++ spec.length_in body.entry access.now at) }
{
    match settled_index(body, access) {
        None => Ok(()),
        Some((level, _)) => {
            let length = length_at(alloc, body.heads, access.tensor, level, at)?;
            into.push(length)
        }
    }
}

/// The stored lengths of the driven reads that stand before the body is run, whose positions are in locals from this
/// one on.
pub fn entry_lengths(
    alloc: Global,
    body: LoopBody<'_>,
    reads: &[Access],
    at: u32,
) -> Result<Items<IExpr>, AllocError>
    ensures { IfOk result (λ xs. xs ≡ spec.lengths_in body.entry reads.now at) }
{
    let mut lengths = Items::new(alloc);
    let mut place = at;
    for access in reads {
        push_length(alloc, &mut lengths, body, access, place)?;
        place = next_place(body, access, place)?;
    }
    Ok(lengths)
}
