//! Chunks that append to shards.
ghost use Rattle.std.specs.Prelude.{◌≡◌, ◌<◌, [], ◌∷◌, All, map, IfOk, OnOk, IfSome, IsTrue};
ghost use Rattle.fin_base.specs.declared.reduce.Reduce.TheVariants.{Add};
ghost use Rattle.fin_tensor.specs.TensorFunction.{is_in_box};
ghost use Rattle.fin_shard.specs.Steps.{HasTaken, Takes};
ghost use Rattle.fin_events.specs.Chunks.{chunk_fits};
ghost use Rattle.fin_events.specs.Totals.{entry_of, entries_of, total, HaveTaken};

use crate::chunks::{Addend, all_fit};
use crate::vector::{format, shape, vector, word};
use fin_base::Reduce;
use fin_shard::{Shard, merge_all};
use std::alloc::{AllocError, Global};

/// The word at a coordinate of the vector into which shards are merged, one for each chunk. None where something lies
/// outside of the vector.
pub fn merged_word(
    alloc: Global,
    extent: u32,
    chunks: &[&[Addend]],
    at: u64,
) -> Result<Option<i64>, AllocError>
    ensures { IfOk result (λ o. IfSome o (λ v. v ≡ total (map (λ c. c.now) chunks.now) at)) }
{
    if !all_fit(extent as u64, chunks) {
        return Ok(None);
    }
    let shards = shards(alloc, extent, chunks)?;
    let merged = merge_all(shards, vector(alloc, extent)?)?;
    Ok(word(&merged, at))
}

fn shards(alloc: Global, extent: u32, chunks: &[&[Addend]]) -> Result<Vec<Shard>, AllocError>
    requires { All (λ c. IsTrue (chunk_fits extent c.now)) chunks.now }
    ensures shapes { IfOk result (λ ss. All (λ s. s.builder.function.shape ≡ extent ∷ []) ss.items) }
    ensures took { IfOk result (λ ss. HaveTaken ss.items (map (λ c. c.now) chunks.now)) }
{
    let mut shards = Vec::new(alloc);
    for chunk in chunks {
        shards.push(shard(alloc, extent, chunk)?)?;
    }
    Ok(shards)
}

fn shard(alloc: Global, extent: u32, chunk: &[Addend]) -> Result<Shard, AllocError>
    requires { IsTrue (chunk_fits extent chunk.now) }
    ensures by { IfOk result (λ s. s.by ≡ Add) }
    ensures shape { IfOk result (λ s. s.builder.function.shape ≡ extent ∷ []) }
    ensures took { IfOk result (λ s. HasTaken s (entries_of chunk.now)) }
{
    let format = format(alloc)?;
    let shape = shape(alloc, extent)?;
    let mut shard = Shard::new(alloc, &format, &shape, Reduce::Add)?;
    for addend in chunk {
        append(&mut shard, *addend)?;
    }
    Ok(shard)
}

fn append(shard: &mut Shard, addend: Addend) -> Result<(), AllocError>
    requires { IsTrue (is_in_box shard.old.builder.function.shape (addend.at ∷ [])) }
    ensures by { shard.new.by ≡ shard.old.by }
    ensures shape { shard.new.builder.function.shape ≡ shard.old.builder.function.shape }
    ensures took { OnOk result (Takes (entry_of addend) shard.old shard.new) }
{
    shard.append(&[addend.at], addend.value)
}
