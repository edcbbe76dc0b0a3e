//! A vector of 0s.
ghost use Rattle.std.specs.Prelude.{◌≡◌, [], ◌∷◌, IfOk, IfSome};
ghost use Rattle.fin_tensor.specs.TensorFunction.{value_at};
ghost use Rattle.fin_events.specs.Chunks.{dict, vector_of};

use fin_build::Builder;
use fin_grid::is_in_box;
use fin_tensor::{Format, Level, Nums, Seq, Wrap};
use std::alloc::{AllocError, Global};

/// A map of the coordinates that are other than 0, which workers may hold by parts.
pub(crate) fn format(alloc: Global) -> Result<Format, AllocError>
    ensures { IfOk result (λ f. f ≡ dict) }
{
    let mut levels = Seq::new(alloc);
    levels.push(Level::Dict)?;
    Ok(Format {
        levels,
        wrap: Wrap::Shard,
        fill: 0,
    })
}

pub(crate) fn shape(alloc: Global, extent: u32) -> Result<Nums, AllocError>
    ensures { IfOk result (λ s. s ≡ extent ∷ []) }
{
    let mut shape = Seq::new(alloc);
    shape.push(extent as u64)?;
    Ok(shape)
}

pub(crate) fn vector(alloc: Global, extent: u32) -> Result<Builder, AllocError>
    ensures { IfOk result (λ b. b ≡ vector_of extent) }
{
    let format = format(alloc)?;
    let shape = shape(alloc, extent)?;
    Builder::new(alloc, &format, &shape)
}

/// The word at a coordinate of the vector, if it has one there.
pub(crate) fn word(vector: &Builder, at: u64) -> Option<i64>
    ensures { IfSome result (λ v. v ≡ value_at vector.now.function (at ∷ [])) }
{
    let coords = [at];
    if !is_in_box(vector.shape().as_slice(), &coords) {
        return None;
    }
    Some(vector.value(&coords))
}
