//! The lists of one level of a storage.
ghost use Rattle.std.specs.Prelude.{◌≡◌, IfOk};

use crate::duplicate::Duplicate;
use crate::seq::Nums;
use std::alloc::{AllocError, Global};

/// The lists that tell one level.
#[derive(Debug, Drop)]
pub enum Part {
    /// A dense level needs none.
    Dense,
    /// Of list and dict levels: where each fibre begins, and the coordinates.
    Keys { ptr: Nums, idx: Nums },
    /// Where each fibre begins, and where its runs end.
    Runs { ptr: Nums, stop: Nums },
    /// Where each fibre begins, and its block's first coordinate.
    Band { ptr: Nums, start: Nums },
}

impl Part {
    /// An equal part.
    pub fn copy(&self, alloc: Global) -> Result<Part, AllocError>
        ensures { IfOk result (λ c. c ≡ self.now) }
    {
        match self {
            Part::Dense => Ok(Part::Dense),
            Part::Keys { ptr, idx } => Ok(Part::Keys {
                ptr: ptr.copy(alloc)?,
                idx: idx.copy(alloc)?,
            }),
            Part::Runs { ptr, stop } => Ok(Part::Runs {
                ptr: ptr.copy(alloc)?,
                stop: stop.copy(alloc)?,
            }),
            Part::Band { ptr, start } => Ok(Part::Band {
                ptr: ptr.copy(alloc)?,
                start: start.copy(alloc)?,
            }),
        }
    }
}

impl Duplicate for Part {
    fn copy(&self, alloc: Global) -> Result<Part, AllocError> {
        Part::copy(self, alloc)
    }
}
