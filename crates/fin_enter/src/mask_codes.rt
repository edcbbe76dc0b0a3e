//! The looplets of all masks of a loop, and the code of their bounds.
ghost use Rattle.std.specs.Prelude.{◌≡◌, IfOk, OnOk};
ghost use Rattle.fin_read.specs.Steps.{Appends};
ghost use Rattle.fin_enter.specs.PushedMasks as spec;

use crate::body::LoopBody;
use crate::masks::{mask_test, push_mask};
use fin_ir::Code;
use fin_nest::Numbered;
use fin_simp::Test;
use sqlite_items::Items;
use std::alloc::{AllocError, Global};

/// The looplets of masks, and the first local that is free behind their bounds.
#[derive(Drop)]
pub struct Masks {
    pub masks: Items<Numbered>,
    pub next: u32,
}

/// Appends the code of the bounds of all masks among these tests, from this local on, and gives their looplets.
pub fn push_masks(
    alloc: Global,
    into: &mut Items<Code>,
    body: LoopBody<'_>,
    tests: &[Test],
    next: u32,
) -> Result<Masks, AllocError>
    ensures masks { IfOk result (λ m. m.masks ≡ spec.masks_in body.entry tests.now next) }
    ensures next { IfOk result (λ m. m.next ≡ spec.behind_masks body.entry tests.now next) }
    ensures code { OnOk result (Appends into.old into.new (spec.mask_steps body.entry tests.now next)) }
{
    let mut masks = Items::new(alloc);
    let mut free = next;
    for test in tests {
        if let Some(mask) = mask_test(alloc, body.var, test.test, &test.expr)? {
            let (numbered, behind) = push_mask(alloc, into, body.heads, mask, free)?;
            masks.push(numbered)?;
            free = behind;
        }
    }
    Ok(Masks { masks, next: free })
}
