//! The storage that a tensor is.
ghost use Rattle.std.specs.Prelude.{◌≡◌};
ghost use Rattle.std.specs.Option.{option_copied};
ghost use Rattle.fin_run.specs.Storages.{storage_in};

use crate::state::Held;
use fin_tensor::Storage;

/// The storage of that number, where the tensor is one.
pub fn storage_at<'a>(inputs: &'a [Storage], tensors: &'a [Held], tensor: u8) -> Option<&'a Storage>
    ensures { option_copied result ≡ storage_in inputs.now tensors.now tensor }
{
    match tensors.get(tensor as usize) {
        Some(Held::Lent(k)) => inputs.get(*k as usize),
        Some(Held::Frozen(storage)) => Some(storage),
        _ => None,
    }
}
