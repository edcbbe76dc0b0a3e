//! The looplets of a loop's reads.
ghost use Rattle.std.specs.Prelude.{◌≡◌, ◌+◌, ◌<◌, ◌≤◌, ◌^◌, IfOk, length, slice_index_or};
ghost use Rattle.fin_tensor.specs.Levels.{AreSmall};
ghost use Rattle.fin_simp.specs.Gathered.{as_access};
ghost use Rattle.fin_drive.specs.Looplets as looplets;
ghost use Rattle.fin_nest.specs.Entries as entries;
ghost use Rattle.fin_enter.specs.Positions.{spot_at};
ghost use Rattle.fin_enter.specs.LoopEntry as made;
ghost use Rattle.fin_enter.specs.Pushed as pushed;
ghost use Rattle.fin_enter.specs.PushedReads as spec;

use crate::body::{LoopBody, is_in, next_cursor, next_place};
use crate::driving::driven_index;
use fin_ast::Index;
use fin_base::Op;
use fin_drive::{Reading, Spot, distance, driven};
use fin_ir::IExpr;
use fin_looplet::{Leaf, Looplet};
use fin_nest::{Numbered, two};
use fin_read::{format_of, shape_of};
use fin_simp::Access;
use fin_tensor::Format;
use sqlite_items::Items;
use std::alloc::{AllocError, Global};

// What its leaf says is never asked.
fn waiting() -> Looplet
    ensures { result ≡ made.waiting }
{
    Looplet::Run(Leaf::Value(IExpr::Num(0)))
}

fn extent_at(shape: &[u64], level: usize) -> u64
    requires { AreSmall shape.now }
    ensures extent { result ≡ slice_index_or shape.now level 0 }
    ensures small { result ≤ 2 ^ 40 }
{
    if level < shape.len() { shape[level] } else { 0 }
}

// A read whose driven index stands at a level, and whose looplet owns two locals.
fn reading(body: LoopBody<'_>, access: &Access, level: u8, index: Index, cursor: u32) -> Reading
    ensures reading { let l = pushed.as_around body.entry in let a = as_access access.now in
        result ≡ made.reading_with l a (level, index) cursor (made.shape_in l a) }
    ensures small { result.extent ≤ 2 ^ 40 }
{
    let extent = extent_at(shape_of(body.heads, access.tensor), level as usize);
    Reading {
        var: body.var,
        index,
        tensor: access.tensor,
        level,
        extent,
        settled: !is_in(body.changed, access.tensor),
        cursor,
    }
}

// Where the fibre of a level stands whose position is in the local `at`. A first level has one, which is always there.
fn spot_of(alloc: Global, level: u8, at: u32, by: IExpr) -> Result<Spot, AllocError>
    ensures { IfOk result (λ s. s ≡ spot_at level at by) }
{
    if level == 0 {
        return Ok(Spot {
            place: IExpr::Num(0),
            there: IExpr::Num(1),
            by,
        });
    }
    let there = two(alloc, Op::Ge, IExpr::Local(at), IExpr::Num(0))?;
    Ok(Spot {
        place: IExpr::Local(at),
        there,
        by,
    })
}

// The looplet of a driven read whose position is in the local `at`.
#[tactic(auto, using(crate::proofs::Sites::place_apart, crate::proofs::Sites::there_apart))]
fn driven_from(
    alloc: Global,
    format: &Format,
    reading: Reading,
    at: u32,
) -> Result<Looplet, AllocError>
    requires level { reading.level < length format.now.levels }
    requires extent { reading.extent ≤ 2 ^ 40 }
    requires cursor { reading.cursor + 1 < 2 ^ 32 }
    requires below { at < reading.cursor }
    ensures { let spot = spot_at reading.level at (looplets.back reading) in
        IfOk result (λ l. l ≡ looplets.driven_looplet format.now reading spot) }
{
    let by = distance(alloc, reading)?;
    let spot = spot_of(alloc, reading.level, at, by)?;
    driven(alloc, format, reading, spot)
}

/// The looplet of a read whose position is in the local `at`, where the loop drives it: it owns the local `cursor` and
/// the one behind. There is no memory for as many locals as a `u32` can't count.
pub fn read_looplet(
    alloc: Global,
    body: LoopBody<'_>,
    access: &Access,
    at: u32,
    cursor: u32,
) -> Result<Looplet, AllocError>
    requires below { at < cursor }
    ensures { IfOk result (λ l. l ≡ spec.looplet_in body.entry access.now at cursor) }
{
    match driven_index(body.var, access.at.as_slice()) {
        None => Ok(waiting()),
        Some((level, index)) => {
            let format = format_of(alloc, body.heads, access.tensor)?;
            if level >= format.levels.len() {
                return Ok(waiting());
            }
            if cursor == u32::MAX {
                return Err(AllocError);
            }
            let reading = reading(body, access, level as u8, index, cursor);
            driven_from(alloc, &format, reading, at)
        }
    }
}

/// The looplets of all reads under their numbers, from the local of the first position and the first local of their
/// own on, and the first local that is free behind these.
pub fn read_looplets(
    alloc: Global,
    body: LoopBody<'_>,
    reads: &[Access],
    at: u32,
    cursor: u32,
) -> Result<(Items<Numbered>, u32), AllocError>
    requires below { pushed.behind_positions body reads.now at < cursor }
    ensures looplets { IfOk result (λ r. entries.looplets r.0 ≡ spec.looplets_in body.entry reads.now at cursor) }
    ensures numbers { IfOk result (λ r. entries.numbers r.0 ≡ spec.read_numbers reads.now) }
    ensures next { IfOk result (λ r. r.1 ≡ spec.behind_looplets body.entry reads.now cursor) }
{
    let mut all = Items::new(alloc);
    let mut place = at;
    let mut free = cursor;
    for access in reads {
        let looplet = read_looplet(alloc, body, access, place, free)?;
        all.push(Numbered {
            number: access.read,
            looplet,
        })?;
        place = next_place(body, access, place)?;
        free = next_cursor(body, access, free)?;
    }
    Ok((all, free))
}
