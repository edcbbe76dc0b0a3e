//! Lists as tests write them.
ghost use Rattle.std.specs.Prelude.{◌≡◌, IfOk};

use fin_tensor::{Duplicate, Seq};
use std::alloc::{AllocError, Global};

/// The list of these items.
pub fn list<T: Duplicate + Drop>(alloc: Global, items: &[T]) -> Result<Seq<T>, AllocError>
    ensures { IfOk result (λ l. l ≡ items.now) }
{
    let mut list = Seq::new(alloc);
    for item in items {
        list.push(item.copy(alloc)?)?;
    }
    Ok(list)
}
