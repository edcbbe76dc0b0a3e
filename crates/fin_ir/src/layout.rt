//! What code is run over, and why a run stops.
ghost use Rattle.std.specs.Prelude.{◌≡◌};
ghost use Rattle.fin_ir.specs.declared.layout.RunError.TheVariants.{Memory};

use crate::code::Code;
use fin_tensor::{Format, Nums, Seq};
use std::alloc::AllocError;
use thiserror::Error;

/// The tensors of a code, by number: their formats, their shapes, and 0 for an input, 1 for an output, 2 for a local
/// tensor; and how many locals there are.
#[derive(Debug, Drop)]
pub struct Layout {
    pub formats: Seq<Format>,
    pub shapes: Seq<Nums>,
    pub kinds: Seq<u8>,
    pub locals: u32,
}

/// Code with its layout.
#[derive(Debug, Drop)]
pub struct Plan {
    pub code: Code,
    pub layout: Layout,
}

/// Why a run stops before its end.
#[derive(Clone, Copy, Debug, Error)]
pub enum RunError {
    /// The charges of the whole code exceed the budget.
    #[error("over the budget")]
    Spent,
    /// Memory ran out.
    #[error("out of memory")]
    Memory(AllocError),
}

impl From<AllocError> for RunError {
    ghost from_gives = { λ e f. f ≡ Memory e };

    fn from(e: AllocError) -> RunError {
        RunError::Memory(e)
    }
}
