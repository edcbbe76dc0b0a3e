//! One shard.
ghost use Rattle.std.specs.Prelude.{◌≡◌, Some, IsTrue};
ghost use Rattle.std.specs.List.{list_all};
ghost use Rattle.fin_base.specs.Words.{identity};
ghost use Rattle.fin_tensor.specs.Placement.{is_dense_or_dict};

use fin_base::{Reduce, identity};
use fin_build::Builder;
use fin_tensor::{Format, Nums};
use std::alloc::{AllocError, Global};

/// What was appended, reduced coordinate by coordinate.
#[derive(Drop)]
pub struct Shard {
    pub(crate) builder: Builder,
    pub(crate) by: Reduce,
    ghost starts: { identity by ≡ Some builder.function.fill },
    ghost levels: { IsTrue (list_all is_dense_or_dict builder.format.levels) },
}

impl Shard {
    ghost use Rattle.std.specs.Prelude.{◌≢◌, ◌++◌, ◌∷◌, [], List, IfOk, OnOk, OnErr};
    ghost use Rattle.fin_base.specs.declared.reduce.Reduce.TheVariants.{Put};
    ghost use Rattle.fin_tensor.specs.TensorFunction.{is_in_box};
    ghost use Rattle.fin_tensor.specs.Building.{CanBuild};
    ghost use Rattle.fin_shard.specs.Steps.{HasTaken, Takes};

    /// Nothing was appended: the identity of the reduction everywhere.
    pub fn new(
        alloc: Global,
        format: &Format,
        shape: &Nums,
        by: Reduce,
    ) -> Result<Shard, AllocError>
        requires build { CanBuild format.now shape.now }
        requires levels { IsTrue (list_all is_dense_or_dict format.now.levels) }
        requires by { by ≢ Put }
        ensures by { IfOk result (λ s. s.by ≡ by) }
        ensures shape { IfOk result (λ s. s.builder.function.shape ≡ shape.now) }
        ensures took { IfOk result (λ s. HasTaken s []) }
    {
        let mut format = format.copy(alloc)?;
        format.fill = start(by);
        let builder = Builder::new(alloc, &format, shape)?;
        Ok(Shard { builder, by })
    }

    /// Reduces the coordinate by the value. After want of memory the shard is as before.
    pub fn append(&mut self, coords: &[u64], v: i64) -> Result<(), AllocError>
        requires { IsTrue (is_in_box self.old.builder.function.shape coords.now) }
        ensures by { self.new.by ≡ self.old.by }
        ensures shape { self.new.builder.function.shape ≡ self.old.builder.function.shape }
        ensures took { OnOk result (Takes (coords.now, v) self.old self.new) }
        ensures err { OnErr result (self.new.builder ≡ self.old.builder) }
    {
        self.builder.update(coords, self.by, v)
    }
}

fn start(by: Reduce) -> i64
    requires { by ≡ Reduce.Put → ⊥ }
    ensures { identity by ≡ Some result }
{
    match identity(by) {
        Some(start) => start,
        None => 0,
    }
}
