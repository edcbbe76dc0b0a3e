//! The entry of a loop: all that stands before its nest, and the looplets of the nest.
ghost use Rattle.std.specs.Prelude.{◌≡◌, ◌++◌, IfOk, OnOk, length};
ghost use Rattle.fin_nest.specs.Entries as entries;
ghost use Rattle.fin_enter.specs.MadeEntry as spec;

use crate::body::{LoopBody, next_local};
use crate::driving::driven_count;
use crate::entry::push_charges;
use crate::lengths::entry_lengths;
use crate::looplets::read_looplets;
use crate::mask_codes::push_masks;
use crate::placing::push_positions;
use fin_ir::Code;
use fin_nest::Numbered;
use fin_read::Heads;
use fin_simp::Rest;
use sqlite_items::Items;
use std::alloc::{AllocError, Global};

/// A loop's variable and the number of its chunks, 0 where it isn't parallel, beside the headers of its program.
#[derive(Clone, Copy)]
pub struct LoopHead<'a> {
    pub heads: &'a Heads<'a>,
    pub var: u32,
    pub chunks: u32,
}

/// The looplets of a loop's reads and masks, and the first local that is free behind all that its entry takes.
#[derive(Drop)]
pub struct Entrance {
    pub reads: Items<Numbered>,
    pub masks: Items<Numbered>,
    pub next: u32,
}

// The loop, its driven reads and masks, and its chunks. There is no memory for more of them than a `u32` counts.
fn known(driven: usize, masks: usize, chunks: u32) -> Result<u32, AllocError>
    ensures { IfOk result (λ n. n ≡ spec.known driven masks chunks) }
{
    let most = u32::MAX as usize;
    if driven > most || masks > most {
        return Err(AllocError);
    }
    let total = 1 + 2 * (driven as u64 + masks as u64) + chunks as u64;
    if total > u32::MAX as u64 {
        return Err(AllocError);
    }
    Ok(total as u32)
}

// Appends the charge of the entry, where positions are in locals from this one on.
fn push_charge(
    alloc: Global,
    into: &mut Items<Code>,
    body: LoopBody<'_>,
    rest: &Rest,
    known: u32,
    at: u32,
) -> Result<(), AllocError>
    ensures { OnOk result (into.new ≡ into.old ++ spec.charge_in body.entry rest.now known at) }
{
    let lengths = entry_lengths(alloc, body, rest.reads.as_slice(), at)?;
    push_charges(alloc, into, known, lengths.as_slice())
}

/// Appends what a loop does before its nest, from this first free local on: the steps to the positions of its driven
/// reads and to the bounds of its masks, and the charge of its entry. Gives the looplets of its reads and masks, where
/// `rest` is what remains of its body.
pub fn enter(
    alloc: Global,
    into: &mut Items<Code>,
    head: LoopHead<'_>,
    rest: &Rest,
    next: u32,
) -> Result<Entrance, AllocError>
    ensures code { OnOk result (into.new ≡ into.old ++ spec.code_in head.entry rest.now next) }
    ensures looplets { let made = spec.looplets_in head.entry rest.now next in
        IfOk result (λ e. entries.looplets e.reads ++ entries.looplets e.masks ≡ made) }
    ensures reads { IfOk result (λ e. entries.numbers e.reads ≡ spec.read_numbers rest.now) }
    ensures masks { IfOk result (λ e. entries.numbers e.masks ≡ spec.mask_numbers head.entry rest.now) }
    ensures next { IfOk result (λ e. e.next ≡ spec.behind_in head.entry rest.now next) }
{
    let body = LoopBody {
        heads: head.heads,
        var: head.var,
        changed: rest.changed.as_slice(),
    };
    let reads = rest.reads.as_slice();
    let behind = push_positions(alloc, into, body, reads, next)?;
    let bounds = next_local(behind)?;
    let masks = push_masks(alloc, into, body, rest.tests.as_slice(), bounds)?;
    let known = known(
        driven_count(head.var, reads),
        masks.masks.len(),
        head.chunks,
    )?;
    push_charge(alloc, into, body, rest, known, next)?;
    let cursors = next_local(masks.next)?;
    let (looplets, free) = read_looplets(alloc, body, reads, next, cursors)?;
    Ok(Entrance {
        reads: looplets,
        masks: masks.masks,
        next: free,
    })
}
