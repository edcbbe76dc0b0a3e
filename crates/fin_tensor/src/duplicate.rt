ghost use Rattle.std.specs.Prelude.{◌≡◌, IfOk};

use crate::seq::Seq;
use std::alloc::{AllocError, Global};

/// A type whose values can be copied, with memory where they need it.
pub trait Duplicate: Sized {
    fn copy(&self, alloc: Global) -> Result<Self, AllocError>
        ensures { IfOk result (λ c. c ≡ self.now) };
}

impl Duplicate for u64 {
    fn copy(&self, _alloc: Global) -> Result<u64, AllocError> {
        Ok(*self)
    }
}

impl Duplicate for i64 {
    fn copy(&self, _alloc: Global) -> Result<i64, AllocError> {
        Ok(*self)
    }
}

impl Duplicate for u8 {
    fn copy(&self, _alloc: Global) -> Result<u8, AllocError> {
        Ok(*self)
    }
}

impl<T: Duplicate + Drop> Duplicate for Seq<T> {
    fn copy(&self, alloc: Global) -> Result<Seq<T>, AllocError> {
        Seq::copy(self, alloc)
    }
}

impl<A: Duplicate + Drop, B: Duplicate + Drop> Duplicate for (A, B) {
    fn copy(&self, alloc: Global) -> Result<(A, B), AllocError> {
        let first = self.0.copy(alloc)?;
        let second = self.1.copy(alloc)?;
        Ok((first, second))
    }
}
