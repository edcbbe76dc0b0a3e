//! Levels that are filled in order.
ghost use Rattle.std.specs.Prelude.{◌≡◌};
ghost use Rattle.fin_tensor.specs.Order.{is_ordered as is_ordered_of, ordered_levels as ordered_levels_of};

use crate::format::Level;

/// The number of levels down to the deepest list, runs or band level, which are filled in order; 0 where there is none.
pub fn ordered_levels(levels: &[Level]) -> usize
    ensures { result ≡ ordered_levels_of levels.now }
{
    let mut deepest = 0;
    for k in 0..levels.len() {
        if is_ordered(levels[k]) {
            deepest = k + 1;
        }
    }
    deepest
}

fn is_ordered(level: Level) -> bool
    ensures { result ≡ is_ordered_of level }
{
    match level {
        Level::List | Level::Runs | Level::Band => true,
        Level::Dense | Level::Dict => false,
    }
}
