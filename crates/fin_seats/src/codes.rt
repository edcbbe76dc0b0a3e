//! Words as they are stored: as unsigned numbers whose order is that of the words where the reduction goes by order.
ghost use Rattle.std.specs.Prelude.{◌≡◌, IfOk};
ghost use Rattle.fin_seats.specs.Codes.{code, decode, flip, AreStored};

use fin_base::Reduce;
use std::alloc::{AllocError, Global};

/// The number with its top bit flipped.
pub fn flipped(n: u64) -> u64
    ensures flipped { result ≡ flip n }
{
    n.wrapping_add(1 << 63)
}

/// The word as it is stored: itself, with its top bit flipped for the least and the greatest.
pub fn stored(by: Reduce, z: i64) -> u64
    ensures code { result ≡ code by z }
{
    match by {
        Reduce::Min | Reduce::Max => flipped(z.cast_unsigned()),
        _ => z.cast_unsigned(),
    }
}

/// The word that is stored so.
pub fn read(by: Reduce, n: u64) -> i64
    ensures word { result ≡ decode by n }
{
    match by {
        Reduce::Min | Reduce::Max => flipped(n).cast_signed(),
        _ => n.cast_signed(),
    }
}

/// The words as they are stored, in order.
pub fn all_stored(alloc: Global, by: Reduce, start: &[i64]) -> Result<Vec<u64>, AllocError>
    ensures stored { IfOk result (λ v. AreStored by start.now v.items) }
{
    let mut all = Vec::with_capacity(alloc, start.len())?;
    for z in start {
        all.push(stored(by, *z))?;
    }
    Ok(all)
}
