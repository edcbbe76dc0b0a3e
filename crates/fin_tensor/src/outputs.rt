//! What comes of a program: the storages of its outputs, or why a storage can't be.
ghost use Rattle.std.specs.Prelude.{◌≡◌, IfOk};
ghost use Rattle.fin_tensor.specs.declared.outputs.StoreFail.TheVariants.{Memory};

use crate::duplicate::Duplicate;
use crate::seq::Seq;
use crate::storage::Storage;
use std::alloc::{AllocError, Global};

/// The outputs' storages, each with its tensor, in header order.
#[derive(Debug, Drop)]
pub struct Outputs {
    pub tensors: Seq<(u8, Storage)>,
}

impl Outputs {
    /// Equal outputs.
    pub fn copy(&self, alloc: Global) -> Result<Outputs, AllocError>
        ensures { IfOk result (λ c. c ≡ self.now) }
    {
        let tensors = self.tensors.copy(alloc)?;
        Ok(Outputs { tensors })
    }
}

impl Duplicate for Outputs {
    fn copy(&self, alloc: Global) -> Result<Outputs, AllocError> {
        Outputs::copy(self, alloc)
    }
}

/// Why there is no storage.
#[derive(Clone, Copy, Debug)]
pub enum StoreFail {
    /// It has more than 2^40 fibres in a level, or more than 2^40 values.
    Large,
    /// Memory ran out.
    Memory(AllocError),
}

impl From<AllocError> for StoreFail {
    ghost from_gives = { λ e f. f ≡ Memory e };

    fn from(e: AllocError) -> StoreFail {
        StoreFail::Memory(e)
    }
}
