//! The steps that find where the driven reads of a loop stand.
ghost use Rattle.std.specs.Prelude.{◌≡◌, ◌+◌, ◌<◌, ◌^◌, IfOk, OnOk, take};
ghost use Rattle.fin_read.specs.Steps.{Appends};
ghost use Rattle.fin_enter.specs.Pushed as spec;

use crate::body::{LoopBody, next_local, settled_index};
use fin_ir::Code;
use fin_read::{Heads, Place, format_of, index_codes, push_first, push_levels, shape_of};
use fin_simp::Access;
use sqlite_items::Items;
use std::alloc::{AllocError, Global};

// As many of the items, or all.
fn first<T>(items: &[T], count: usize) -> &[T]
    ensures { result.now ≡ take count items.now }
{
    if count < items.len() {
        &items[..count]
    } else {
        items
    }
}

/// Appends the steps that leave in the local `at` the position at a level to which the indices before it lead. The
/// local behind it is free for a step of its own.
#[tactic(auto, using(crate::proofs::Pushing::small_take))]
pub fn push_position(
    alloc: Global,
    into: &mut Items<Code>,
    heads: &Heads<'_>,
    access: &Access,
    level: usize,
    at: u32,
) -> Result<(), AllocError>
    requires room { at + 1 < 2 ^ 32 }
    ensures { OnOk result (Appends into.old into.new (spec.steps_to heads.now access.now level at)) }
{
    let format = format_of(alloc, heads, access.tensor)?;
    let shape = first(shape_of(heads, access.tensor), level);
    let codes = index_codes(alloc, access.at.as_slice())?;
    let xs = first(codes.as_slice(), level);
    let place = Place {
        tensor: access.tensor,
        level: 0,
        at,
    };
    push_first(alloc, into, shape, xs, at)?;
    push_levels(alloc, into, place, format.levels.as_slice(), shape, xs)
}

fn push_settled(
    alloc: Global,
    into: &mut Items<Code>,
    body: LoopBody<'_>,
    access: &Access,
    at: u32,
) -> Result<u32, AllocError>
    ensures code { OnOk result (Appends into.old into.new (spec.steps_in body.entry access.now at)) }
    ensures next { IfOk result (λ n. n ≡ spec.behind_in body.entry access.now at) }
{
    match settled_index(body, access) {
        None => Ok(at),
        Some((level, _)) => {
            let next = next_local(at)?;
            push_position(alloc, into, body.heads, access, level, at)?;
            Ok(next)
        }
    }
}

/// Appends the steps of all driven reads that stand before the body is run, one after another, from this local on, and
/// gives the first local behind those with positions.
pub fn push_positions(
    alloc: Global,
    into: &mut Items<Code>,
    body: LoopBody<'_>,
    reads: &[Access],
    at: u32,
) -> Result<u32, AllocError>
    ensures code { OnOk result (Appends into.old into.new (spec.positions_in body.entry reads.now at)) }
    ensures next { IfOk result (λ n. n ≡ spec.behind_positions body.entry reads.now at) }
{
    let mut next = at;
    for access in reads {
        next = push_settled(alloc, into, body, access, next)?;
    }
    Ok(next)
}
