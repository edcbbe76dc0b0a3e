//! Shards, merged into a tensor.
ghost use Rattle.std.specs.Prelude.{◌≡◌, List, All, IfOk, OnOk, IsTrue, map};
ghost use Rattle.std.specs.List.{list_all};
ghost use Rattle.fin_tensor.specs.Placement.{is_dense_or_dict};
ghost use Rattle.fin_shard.specs.Steps.{TakesIn, TakesInAll};

use crate::shard::Shard;
use fin_build::Builder;
use std::alloc::AllocError;

/// The tensor with all that was appended to the shards. After want of memory all of them are gone.
pub fn merge_all(shards: Vec<Shard>, into: Builder) -> Result<Builder, AllocError>
    requires levels { IsTrue (list_all is_dense_or_dict into.format.levels) }
    requires shapes { All (λ s. s.builder.function.shape ≡ into.function.shape) shards.items }
    ensures format { IfOk result (λ b. b.format ≡ into.format) }
    ensures merged { IfOk result (λ b. TakesInAll shards.items into b) }
{
    into.is_building();
    let mut whole = into;
    for shard in shards.as_slice() {
        merge_one(&mut whole, shard)?;
    }
    Ok(whole)
}

fn merge_one(whole: &mut Builder, shard: &Shard) -> Result<(), AllocError>
    requires levels { IsTrue (list_all is_dense_or_dict whole.old.format.levels) }
    requires shape { shard.now.builder.function.shape ≡ whole.old.function.shape }
    ensures format { OnOk result (whole.new.format ≡ whole.old.format) }
    ensures merged { OnOk result (TakesIn shard.now whole.old whole.new) }
{
    whole.merge(&shard.builder, shard.by)
}
