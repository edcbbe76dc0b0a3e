//! Looplets that are made and looked at.
ghost use Rattle.std.specs.Prelude.{IsTrue};
ghost use Rattle.fin_unfurl.specs.Masks as spec;

use crate::looks::{Lists, Spot, look};
use fin_base::{Op, Proto};
use fin_ir::IExpr;
use fin_looplet::Looplet;
use fin_tensor::{Format, Level, Seq, Wrap};
use fin_unfurl::{mask, shift, unfurl};
use sqlite_items::Boxed;
use std::alloc::{AllocError, Global};

/// What a looplet is made of.
#[derive(Clone, Copy)]
pub enum Made {
    /// A fibre.
    Fibre(Fibre),
    /// A fibre that isn't there.
    Absent(Fibre),
    /// The comparison of the coordinate with a bound.
    Mask(Comparison, i64),
    /// A fibre that is moved up.
    Moved(Fibre, i64),
    /// A fibre that is moved up into a box, and the fill outside of it.
    Boxed(Fibre, i64, i64),
}

/// The fibre at position 0 of a tensor of one level.
#[derive(Clone, Copy)]
pub struct Fibre {
    pub level: Level,
    pub extent: u32,
    pub fill: i64,
}

#[derive(Clone, Copy)]
pub enum Comparison {
    Less,
    AtMost,
    More,
    AtLeast,
    Equal,
    Other,
}

/// A coordinate of a region, and where that ends.
#[derive(Clone, Copy)]
pub struct Place {
    pub at: i64,
    pub end: i64,
}

/// What the looplet shows there: a value or a fill.
pub fn seen(alloc: Global, made: Made, lists: &Lists, place: Place) -> Result<i64, AllocError> {
    let l = on_heap(alloc, made)?;
    let spot = Spot {
        at: place.at,
        end: place.end,
        cursor: 0,
        coordinate: 0,
    };
    Ok(look(lists, spot, l.get()))
}

// What lends out a looplet of its own, and not one in a box, is more than the prover can tell.
fn on_heap(alloc: Global, made: Made) -> Result<Boxed<Looplet>, AllocError> {
    let l = looplet(alloc, made)?;
    let l = Boxed::new(alloc, l)?;
    Ok(l)
}

fn looplet(alloc: Global, made: Made) -> Result<Looplet, AllocError> {
    match made {
        Made::Fibre(fibre) => walk(alloc, fibre, 1),
        Made::Absent(fibre) => walk(alloc, fibre, 0),
        Made::Mask(comparison, bound) => mask(alloc, op_of(comparison), IExpr::Num(bound)),
        Made::Moved(fibre, by) => moved(alloc, fibre, by),
        Made::Boxed(fibre, by, fill) => boxed(alloc, fibre, by, fill),
    }
}

// The fibre is there where that number isn't 0.
fn walk(alloc: Global, fibre: Fibre, there: i64) -> Result<Looplet, AllocError> {
    let mut levels = Seq::new(alloc);
    levels.push(fibre.level)?;
    let format = Format {
        levels,
        wrap: Wrap::Bare,
        fill: fibre.fill,
    };
    unfurl(
        alloc,
        &format,
        0,
        0,
        Proto::Walk,
        fibre.extent as u64,
        IExpr::Num(0),
        IExpr::Num(there),
        0,
    )
}

fn op_of(comparison: Comparison) -> Op
    ensures { IsTrue (spec.is_comparison result) }
{
    match comparison {
        Comparison::Less => Op::Lt,
        Comparison::AtMost => Op::Le,
        Comparison::More => Op::Gt,
        Comparison::AtLeast => Op::Ge,
        Comparison::Equal => Op::Eq,
        Comparison::Other => Op::Ne,
    }
}

fn moved(alloc: Global, fibre: Fibre, by: i64) -> Result<Looplet, AllocError> {
    let child = walk(alloc, fibre, 1)?;
    shift(alloc, child, IExpr::Num(by), None)
}

fn boxed(alloc: Global, fibre: Fibre, by: i64, fill: i64) -> Result<Looplet, AllocError> {
    let child = walk(alloc, fibre, 1)?;
    shift(
        alloc,
        child,
        IExpr::Num(by),
        Some((fibre.extent as u64, fill)),
    )
}
