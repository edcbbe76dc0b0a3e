//! Freezing.
ghost use Rattle.std.specs.Prelude.{IfOk, OnOk};
ghost use Rattle.std.specs.Result.{IsErrOf};
ghost use Rattle.fin_tensor.specs.Canon.{IsCanon, IsAllowedIn};
ghost use Rattle.fin_canon.specs.Entries.{undecorated};

use fin_build::Builder;
use fin_canon::store;
use fin_tensor::{Storage, StoreFail};
use std::alloc::Global;

/// The canonical storage of the builder's function, in the builder's format without its decoration.
///
/// # Errors
///
/// `Large` where that storage has more than 2^40 fibres in a level or more than 2^40 values, and nowhere else. `Memory`
/// for want of memory. After an error the builder is gone.
pub fn freeze(alloc: Global, builder: Builder) -> Result<Storage, StoreFail>
    ensures canon { IfOk result (λ s. IsCanon (undecorated builder.format) builder.function s) }
    ensures allowed { OnOk result (IsAllowedIn (undecorated builder.format) builder.function) }
    ensures large { IsErrOf result StoreFail.Large → IsAllowedIn (undecorated builder.format) builder.function → ⊥ }
{
    builder.is_building();
    match builder.entries(alloc) {
        Ok(entries) => store(alloc, builder.format(), builder.shape(), entries.as_slice()),
        Err(error) => Err(StoreFail::Memory(error)),
    }
}
