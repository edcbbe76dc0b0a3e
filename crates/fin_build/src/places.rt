//! Coordinates, and their order.
ghost use Rattle.std.specs.Prelude.{◌≡◌, ◌≤◌, length, take};
ghost use Rattle.std.specs.Cmp.Lexicographic.{slice_cmp};
ghost use Rattle.std.specs.Ordering.{nat_cmp};
ghost use Rattle.fin_tensor.specs.Building.{is_less, last_of as last_update};

use fin_tensor::Coords;
use std::alloc::Global;
use std::cmp::Ordering;

/// The coordinates as a value. Up to 8 take no memory.
pub fn point(alloc: Global, coords: &[u64]) -> Coords
    requires { length coords.now ≤ 8 }
    ensures { result ≡ coords.now }
{
    let mut point = Coords::new(alloc);
    for coord in coords {
        let _ = point.push(*coord);
    }
    point
}

/// The first `depth` of these come before the first `depth` of those.
pub fn comes_before(depth: usize, these: &[u64], those: &[u64]) -> bool
    ensures { result ≡ is_less (slice_cmp nat_cmp (take depth these.now) (take depth those.now)) }
{
    match front(depth, these).cmp(&front(depth, those)) {
        Ordering::Less => true,
        _ => false,
    }
}

/// What is kept of an update, where so many levels are filled in order.
pub fn last_of(depth: usize, at: Coords) -> Option<Coords>
    ensures { result ≡ last_update depth at }
{
    if depth == 0 { None } else { Some(at) }
}

fn front(depth: usize, items: &[u64]) -> &[u64]
    ensures { result.now ≡ take depth items.now }
{
    &items[..depth.min(items.len())]
}
