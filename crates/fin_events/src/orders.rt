//! Chunks in an order of events.
ghost use Rattle.std.specs.Prelude.{◌≡◌, ◌<◌, [], ◌∷◌, All, map, length, IfOk, OnOk, IfSome, IsTrue};
ghost use Rattle.fin_core.specs.Cores.{lists};
ghost use Rattle.fin_events.specs.Cores.{IsStateAfter};
ghost use Rattle.fin_events.specs.Chunks.{lists_of, chunk_fits, vector_of, left};

use crate::chunks::{Addend, all_fit, effects};
use crate::vector::{vector, word};
use fin_core::Core;
use std::alloc::{AllocError, Global};

/// The word at a coordinate of the vector after these events, each told by its chunk. None where an event is of no
/// chunk, or something lies outside of the vector.
pub fn word_after(
    alloc: Global,
    extent: u32,
    chunks: &[&[Addend]],
    order: &[u32],
    at: u64,
) -> Result<Option<i64>, AllocError>
    ensures { IfOk result (λ o. IfSome o (λ v. v ≡ left (map (λ c. c.now) chunks.now) order.now at)) }
{
    if !all_fit(extent as u64, chunks) || !all_below(order, chunks.len()) {
        return Ok(None);
    }
    let mut core = core(alloc, extent, chunks)?;
    run(&mut core, order)?;
    Ok(word(core.held(0), at))
}

fn all_below(order: &[u32], count: usize) -> bool
    ensures { IsTrue result → All (λ k. k < count) order.now }
{
    order.iter().all(|chunk| (*chunk as usize) < count)
}

fn core(alloc: Global, extent: u32, chunks: &[&[Addend]]) -> Result<Core, AllocError>
    requires { All (λ c. IsTrue (chunk_fits extent c.now)) chunks.now }
    ensures tensors { IfOk result (λ c. c.tensors.items ≡ vector_of extent ∷ []) }
    ensures effects { IfOk result (λ c. lists c.effects.items ≡ lists_of (map (λ c. c.now) chunks.now)) }
{
    let mut tensors = Vec::new(alloc);
    tensors.push(vector(alloc, extent)?)?;
    let effects = effects(alloc, chunks)?;
    Core::new(tensors, effects)
}

fn run(core: &mut Core, order: &[u32]) -> Result<(), AllocError>
    requires { All (λ k. k < length core.old.effects.items) order.now }
    ensures count { OnOk result (length core.new.tensors.items ≡ length core.old.tensors.items) }
    ensures state { OnOk result (IsStateAfter order.now core.old core.new) }
{
    for chunk in order {
        core.event(*chunk)?;
    }
    Ok(())
}
