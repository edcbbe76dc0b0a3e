//! What chunks add, as lists of effects.
ghost use Rattle.std.specs.Prelude.{◌≡◌, map, All, IfOk, IsTrue};
ghost use Rattle.fin_core.specs.Cores.{meant, listed};
ghost use Rattle.fin_events.specs.Chunks.{effect_of, list_of, lists_of, chunk_fits as fits_in};

use fin_base::Reduce;
use fin_core::Effect;
use fin_tensor::Coords;
use std::alloc::{AllocError, Global};

/// What is added to one word of a vector.
#[derive(Clone, Copy)]
pub struct Addend {
    pub at: u64,
    pub value: i64,
}

/// Each lies in a vector of that extent.
pub(crate) fn all_fit(extent: u64, chunks: &[&[Addend]]) -> bool
    ensures { IsTrue result → All (λ c. IsTrue (fits_in extent c.now)) chunks.now }
{
    chunks.iter().all(|chunk| chunk_fits(extent, chunk))
}

fn chunk_fits(extent: u64, chunk: &[Addend]) -> bool
    ensures { result ≡ fits_in extent chunk.now }
{
    chunk.iter().all(|addend| addend.at < extent)
}

/// The effects of each chunk, on tensor 0.
pub(crate) fn effects(alloc: Global, chunks: &[&[Addend]]) -> Result<Vec<Vec<Effect>>, AllocError>
    ensures { IfOk result (λ qs. listed qs.items ≡ lists_of (map (λ c. c.now) chunks.now)) }
{
    let mut effects = Vec::new(alloc);
    for chunk in chunks {
        effects.push(list(alloc, chunk)?)?;
    }
    Ok(effects)
}

fn list(alloc: Global, chunk: &[Addend]) -> Result<Vec<Effect>, AllocError>
    ensures { IfOk result (λ q. map meant q.items ≡ list_of chunk.now) }
{
    let mut list = Vec::new(alloc);
    for addend in chunk {
        list.push(effect(alloc, *addend)?)?;
    }
    Ok(list)
}

fn effect(alloc: Global, addend: Addend) -> Result<Effect, AllocError>
    ensures { IfOk result (λ e. meant e ≡ effect_of addend) }
{
    let mut at = Coords::new(alloc);
    at.push(addend.at)?;
    Ok(Effect {
        tensor: 0,
        at,
        by: Reduce::Add,
        value: addend.value,
    })
}
