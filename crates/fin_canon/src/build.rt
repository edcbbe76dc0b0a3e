//! The canonical storage of the function that entries name.

ghost use Rattle.std.specs.Prelude.{◌≡◌, ◌↔◌, [], ◌∷◌, IfOk, IsErrOf};
ghost use Rattle.fin_tensor.specs.Placement.{IsPlaced};
ghost use Rattle.fin_tensor.specs.TensorFunction.{value_at};
ghost use Rattle.fin_tensor.specs.Lines.{IsShape};
ghost use Rattle.fin_tensor.specs.Canon.{IsAllowed, IsAllowedIn, IsCanon};
ghost use Rattle.fin_canon.specs.Entries.{AreEntries, named, undecorated};

use crate::counts::is_allowed;
use crate::entry::Entry;
use crate::lists::{Lists, canonical_lists};
use fin_tensor::{Coords, Format, Nums, Storage, StoreFail, Wrap};
use std::alloc::{AllocError, Global};

/// The canonical storage of the function with these entries and the fill elsewhere, in the format without its
/// decoration. The entries' coordinates lie in the box and rise; an entry may have the fill.
///
/// # Errors
///
/// `Large` exactly where that storage has more than 2^40 fibres in a level or more than 2^40 values: this is found by
/// counting, before any memory is taken. `Memory` for want of memory.
pub fn store(
    alloc: Global,
    format: &Format,
    shape: &Nums,
    entries: &[(Coords, i64)],
) -> Result<Storage, StoreFail>
    requires placed { IsPlaced format.now.levels format.now.wrap }
    requires shape { IsShape format.now.levels shape.now }
    requires entries { AreEntries shape.now entries.now }
    ensures canon { IfOk result (λ s. IsCanon (undecorated format.now) (named shape.now format.now.fill entries.now) s) }
    ensures large { IsErrOf result StoreFail.Large ↔ (IsAllowedIn (undecorated format.now) (named shape.now format.now.fill entries.now) → ⊥) }
{
    if !is_allowed(format, shape.as_slice(), entries) {
        return Err(StoreFail::Large);
    }
    match make_storage(alloc, format, shape, entries) {
        Ok(storage) => Ok(storage),
        Err(error) => Err(StoreFail::Memory(error)),
    }
}

fn make_storage(
    alloc: Global,
    format: &Format,
    shape: &Nums,
    entries: &[Entry],
) -> Result<Storage, AllocError>
    requires placed { IsPlaced format.now.levels format.now.wrap }
    requires shape { IsShape format.now.levels shape.now }
    requires entries { AreEntries shape.now entries.now }
    requires allowed { IsAllowed format.now.levels format.now.fill shape.now (value_at (named shape.now format.now.fill entries.now) ∷ []) }
    ensures { IfOk result (λ s. IsCanon (undecorated format.now) (named shape.now format.now.fill entries.now) s) }
{
    let lists = canonical_lists(alloc, format, shape.as_slice(), entries)?;
    let format = undecorated(alloc, format)?;
    let shape = shape.copy(alloc)?;
    let Lists { parts, val } = lists;
    Ok(Storage {
        format,
        shape,
        parts,
        val,
    })
}

fn undecorated(alloc: Global, format: &Format) -> Result<Format, AllocError>
    ensures { IfOk result (λ f. f ≡ undecorated format.now) }
{
    let levels = format.levels.copy(alloc)?;
    let fill = format.fill;
    Ok(Format {
        levels,
        wrap: Wrap::Bare,
        fill,
    })
}
