//! Whether coordinates lie in a box.
ghost use Rattle.std.specs.Prelude.{◌≡◌};
ghost use Rattle.fin_tensor.specs.TensorFunction.{is_in_box as is_in_box_of};

/// Whether there is a coordinate for each extent, and each is below its extent.
pub fn is_in_box(shape: &[u64], at: &[u64]) -> bool
    ensures { result ≡ is_in_box_of shape.now at.now }
{
    if at.len() != shape.len() {
        return false;
    }
    for k in 0..at.len() {
        if at[k] >= shape[k] {
            return false;
        }
    }
    true
}
