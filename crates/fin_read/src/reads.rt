//! The code of an access.
ghost use Rattle.std.specs.Prelude.{◌≡◌, ◌+◌, ◌≤◌, ◌<◌, ◌^◌, IfOk, OnOk, length, pos};
ghost use Rattle.fin_tensor.specs.Levels.{AreSmall};
ghost use Rattle.fin_ir.specs.declared.expression.IExpr.TheVariants as made;
ghost use Rattle.fin_read.specs.Steps.{Appends, AppendsOne};
ghost use Rattle.fin_read.specs.Reads as spec;

use crate::parts::{Place, cell, pick, push, seek, two, val};
use fin_base::Op;
use fin_ir::{Code, IExpr, Table};
use fin_tensor::Level;
use sqlite_items::Items;
use std::alloc::{AllocError, Global};

/// Appends the step to the first position, or to none outside the box.
pub fn push_first(
    alloc: Global,
    into: &mut Items<Code>,
    shape: &[u64],
    xs: &[IExpr],
    at: u32,
) -> Result<(), AllocError>
    requires small { AreSmall shape.now }
    ensures { OnOk result (AppendsOne into.old into.new (spec.first_step shape.now xs.now at)) }
{
    let within = in_box(alloc, shape, xs)?;
    let first = pick(alloc, within, IExpr::Num(0), none())?;
    push(into, at, first)
}

// Appends the step to the value at the position, or to the fill.
pub(crate) fn push_last(
    alloc: Global,
    into: &mut Items<Code>,
    tensor: u8,
    fill: i64,
    at: u32,
) -> Result<(), AllocError>
    ensures { OnOk result (AppendsOne into.old into.new (spec.last_step tensor fill at)) }
{
    let is_none = below(alloc, IExpr::Local(at), 0)?;
    let stored = val(alloc, tensor, IExpr::Local(at))?;
    let last = pick(alloc, is_none, IExpr::Num(fill), stored)?;
    push(into, at, last)
}

/// Appends the steps through these levels.
#[tactic(auto, using(crate::proofs::Fronts::small_part, crate::proofs::Fronts::levels_end))]
pub fn push_levels(
    alloc: Global,
    into: &mut Items<Code>,
    place: Place,
    levels: &[Level],
    shape: &[u64],
    xs: &[IExpr],
) -> Result<(), AllocError>
    requires small { AreSmall shape.now }
    requires few { place.level + length levels.now ≤ 8 }
    requires room { place.at + 1 < 2 ^ 32 }
    ensures { OnOk result (Appends into.old into.new (spec.levels_steps place levels.now shape.now xs.now)) }
{
    if levels.is_empty() || shape.is_empty() || xs.is_empty() {
        return Ok(());
    }
    push_level(alloc, into, place, levels[0], shape[0], &xs[0])?;
    let below = Place {
        level: place.level + 1,
        ..place
    };
    push_levels(alloc, into, below, &levels[1..], &shape[1..], &xs[1..])
}

// Appends the steps through one level, at an index.
fn push_level(
    alloc: Global,
    into: &mut Items<Code>,
    place: Place,
    kind: Level,
    n: u64,
    x: &IExpr,
) -> Result<(), AllocError>
    requires small { n ≤ 2 ^ 40 }
    requires room { place.at + 1 < 2 ^ 32 }
    ensures { OnOk result (Appends into.old into.new (spec.level_steps place kind n x.now)) }
{
    match kind {
        Level::Dense => push_dense(alloc, into, place, n, x),
        Level::List | Level::Dict => {
            push_sought(alloc, into, place, x)?;
            push_found(alloc, into, place, x)
        }
        Level::Runs => {
            push_sought(alloc, into, place, x)?;
            push_placed(alloc, into, place, IExpr::Local(place.at + 1))
        }
        Level::Band => {
            push_behind(alloc, into, place, x)?;
            push_in_block(alloc, into, place)
        }
    }
}

fn push_dense(
    alloc: Global,
    into: &mut Items<Code>,
    place: Place,
    n: u64,
    x: &IExpr,
) -> Result<(), AllocError>
    requires small { n ≤ 2 ^ 40 }
    ensures { OnOk result (AppendsOne into.old into.new (spec.dense_step place n x.now)) }
{
    let before = two(alloc, Op::Mul, IExpr::Local(place.at), IExpr::Num(n as i64))?;
    let x = x.copy(alloc)?;
    let sum = two(alloc, Op::Add, before, x)?;
    push_placed(alloc, into, place, sum)
}

// Appends the step to the place in the fibre whose number is the key or more, or whose run holds it.
fn push_sought(
    alloc: Global,
    into: &mut Items<Code>,
    place: Place,
    x: &IExpr,
) -> Result<(), AllocError>
    requires room { place.at + 1 < 2 ^ 32 }
    ensures { OnOk result (AppendsOne into.old into.new (spec.sought_step place x.now)) }
{
    let from = fibre_begin(alloc, place)?;
    let to = fibre_end(alloc, place)?;
    let x = x.copy(alloc)?;
    let sought = seek(alloc, place, from, to, x)?;
    push(into, place.at + 1, sought)
}

// Appends the step to that place, where the key stands there.
fn push_found(
    alloc: Global,
    into: &mut Items<Code>,
    place: Place,
    x: &IExpr,
) -> Result<(), AllocError>
    requires room { place.at + 1 < 2 ^ 32 }
    ensures { OnOk result (AppendsOne into.old into.new (spec.placed_step place (spec.found place x.now))) }
{
    let here = if_here(alloc, place, x)?;
    let found = if_within(alloc, place, here)?;
    push_placed(alloc, into, place, found)
}

fn if_here(alloc: Global, place: Place, x: &IExpr) -> Result<IExpr, AllocError>
    requires room { place.at + 1 < 2 ^ 32 }
    ensures { IfOk result (λ e. e ≡ spec.if_here place x.now) }
{
    let sought = IExpr::Local(place.at + 1);
    let stored = cell(alloc, place.tensor, place.level, Table::Idx, sought)?;
    let x = x.copy(alloc)?;
    let test = two(alloc, Op::Eq, stored, x)?;
    pick(alloc, test, IExpr::Local(place.at + 1), none())
}

fn if_within(alloc: Global, place: Place, value: IExpr) -> Result<IExpr, AllocError>
    requires room { place.at + 1 < 2 ^ 32 }
    ensures { IfOk result (λ e. e ≡ spec.if_within place value) }
{
    let end = fibre_end(alloc, place)?;
    let test = two(alloc, Op::Lt, IExpr::Local(place.at + 1), end)?;
    pick(alloc, test, value, none())
}

// Appends the step to how far the index is behind the block's first coordinate.
fn push_behind(
    alloc: Global,
    into: &mut Items<Code>,
    place: Place,
    x: &IExpr,
) -> Result<(), AllocError>
    requires room { place.at + 1 < 2 ^ 32 }
    ensures { OnOk result (AppendsOne into.old into.new (spec.behind_step place x.now)) }
{
    let start = cell(
        alloc,
        place.tensor,
        place.level,
        Table::Start,
        IExpr::Local(place.at),
    )?;
    let x = x.copy(alloc)?;
    let behind = two(alloc, Op::Sub, x, start)?;
    push(into, place.at + 1, behind)
}

// Appends the step to the place in the block.
fn push_in_block(alloc: Global, into: &mut Items<Code>, place: Place) -> Result<(), AllocError>
    requires room { place.at + 1 < 2 ^ 32 }
    ensures { OnOk result (AppendsOne into.old into.new (spec.placed_step place (spec.in_block place))) }
{
    let before = below(alloc, IExpr::Local(place.at + 1), 0)?;
    let there = if_in_block(alloc, place)?;
    let value = pick(alloc, before, none(), there)?;
    push_placed(alloc, into, place, value)
}

fn if_in_block(alloc: Global, place: Place) -> Result<IExpr, AllocError>
    requires room { place.at + 1 < 2 ^ 32 }
    ensures { IfOk result (λ e. e ≡ spec.if_in_block place) }
{
    let length = length_of_block(alloc, place)?;
    let test = two(alloc, Op::Lt, IExpr::Local(place.at + 1), length)?;
    let begin = fibre_begin(alloc, place)?;
    let there = two(alloc, Op::Add, begin, IExpr::Local(place.at + 1))?;
    pick(alloc, test, there, none())
}

fn length_of_block(alloc: Global, place: Place) -> Result<IExpr, AllocError>
    ensures { IfOk result (λ e. e ≡ spec.block_length place) }
{
    let end = fibre_end(alloc, place)?;
    let begin = fibre_begin(alloc, place)?;
    two(alloc, Op::Sub, end, begin)
}

// Appends the step to the value, where there is a position.
fn push_placed(
    alloc: Global,
    into: &mut Items<Code>,
    place: Place,
    value: IExpr,
) -> Result<(), AllocError>
    ensures { OnOk result (AppendsOne into.old into.new (spec.placed_step place value)) }
{
    let is_none = below(alloc, IExpr::Local(place.at), 0)?;
    let placed = pick(alloc, is_none, none(), value)?;
    push(into, place.at, placed)
}

fn fibre_begin(alloc: Global, place: Place) -> Result<IExpr, AllocError>
    ensures { IfOk result (λ e. e ≡ spec.fibre_begin place) }
{
    cell(
        alloc,
        place.tensor,
        place.level,
        Table::Ptr,
        IExpr::Local(place.at),
    )
}

fn fibre_end(alloc: Global, place: Place) -> Result<IExpr, AllocError>
    ensures { IfOk result (λ e. e ≡ spec.fibre_end place) }
{
    let next = two(alloc, Op::Add, IExpr::Local(place.at), IExpr::Num(1))?;
    cell(alloc, place.tensor, place.level, Table::Ptr, next)
}

/// 1 where the indices lie in the box, else 0.
#[tactic(auto, using(crate::proofs::Fronts::small_part))]
pub fn in_box(alloc: Global, shape: &[u64], at: &[IExpr]) -> Result<IExpr, AllocError>
    requires small { AreSmall shape.now }
    ensures { IfOk result (λ e. e ≡ spec.in_box shape.now at.now) }
{
    if shape.is_empty() && at.is_empty() {
        return Ok(IExpr::Num(1));
    }
    if shape.is_empty() || at.is_empty() {
        return Ok(IExpr::Num(0));
    }
    let rest = in_box(alloc, &shape[1..], &at[1..])?;
    in_extent(alloc, shape[0], &at[0], rest)
}

// The value where the index lies in the extent, else 0.
fn in_extent(alloc: Global, n: u64, x: &IExpr, value: IExpr) -> Result<IExpr, AllocError>
    requires small { n ≤ 2 ^ 40 }
    ensures { IfOk result (λ e. e ≡ spec.in_extent n x.now value) }
{
    let high = x.copy(alloc)?;
    let before_end = below(alloc, high, n as i64)?;
    let value = pick(alloc, before_end, value, IExpr::Num(0))?;
    from_zero(alloc, x, value)
}

fn from_zero(alloc: Global, x: &IExpr, value: IExpr) -> Result<IExpr, AllocError>
    ensures { IfOk result (λ e. e ≡ made.Pick (made.Two Op.Lt x.now (made.Num (pos 0))) (made.Num (pos 0)) value) }
{
    let low = x.copy(alloc)?;
    let negative = below(alloc, low, 0)?;
    pick(alloc, negative, IExpr::Num(0), value)
}

// Whether the expression is below the number.
fn below(alloc: Global, x: IExpr, limit: i64) -> Result<IExpr, AllocError>
    ensures { IfOk result (λ e. e ≡ made.Two Op.Lt x (made.Num limit)) }
{
    two(alloc, Op::Lt, x, IExpr::Num(limit))
}

fn none() -> IExpr
    ensures { result ≡ spec.none }
{
    IExpr::Num(-1)
}
