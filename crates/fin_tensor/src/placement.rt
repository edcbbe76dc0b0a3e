//! Where levels may stand in a format, and how large its dense levels are.
ghost use Rattle.std.specs.Prelude.{◌≡◌, ◌↔◌, ◌≤◌, ◌*◌, ◌^◌, IsTrue, max, if◌then◌else◌};
ghost use Rattle.std.specs.Option.{SomeIff};
ghost use Rattle.std.specs.List.{list_all};
ghost use Rattle.fin_tensor.specs.Placement.{IsPlaced, Fits, RunsStandLast, is_dense, is_dense_or_dict};
ghost use Rattle.fin_tensor.specs.Extents.{dense_size};

use crate::format::{Format, Level, Wrap};

/// The most levels of a format.
const MOST_LEVELS: usize = 8;

/// The largest product of dense extents.
const MOST_DENSE: u64 = 16_777_216;

/// Whether a format keeps the placement: at most 8 levels, runs directly before the elements, and a decoration that
/// fits the levels.
pub fn keeps_placement(format: &Format) -> bool
    ensures { IsTrue result ↔ IsPlaced format.now.levels format.now.wrap }
{
    let levels = format.levels.as_slice();
    levels.len() <= MOST_LEVELS && runs_stand_last(levels) && fits(format.wrap, levels)
}

fn runs_stand_last(levels: &[Level]) -> bool
    ensures { IsTrue result ↔ RunsStandLast levels.now }
{
    for k in 0..levels.len() {
        if levels[k] == Level::Runs && k + 1 < levels.len() {
            return false;
        }
    }
    true
}

fn fits(wrap: Wrap, levels: &[Level]) -> bool
    ensures { IsTrue result ↔ Fits wrap levels.now }
{
    match wrap {
        Wrap::Bare => true,
        Wrap::Atomic => all_dense(levels),
        Wrap::Mutex(before) => before as usize <= levels.len() && all_dense(levels),
        Wrap::Shard => all_dense_or_dict(levels),
    }
}

fn all_dense(levels: &[Level]) -> bool
    ensures { result ≡ list_all is_dense levels.now }
{
    levels.iter().all(|level| *level == Level::Dense)
}

fn all_dense_or_dict(levels: &[Level]) -> bool
    ensures { result ≡ list_all is_dense_or_dict levels.now }
{
    levels
        .iter()
        .all(|level| matches!(*level, Level::Dense | Level::Dict))
}

/// Whether the product of those dense extents that aren't 0 is at most 2^24.
pub fn has_small_dense_size(levels: &[Level], shape: &[u64]) -> bool
    ensures { IsTrue result ↔ (dense_size levels.now shape.now ≤ 2 ^ 24) }
{
    let mut size = 1;
    for k in 0..levels.len().min(shape.len()) {
        match times(size, factor(levels[k], shape[k])) {
            Some(product) => size = product,
            None => return false,
        }
    }
    true
}

// What a level gives to the product.
fn factor(level: Level, extent: u64) -> u64
    ensures { result ≡ (if is_dense level then max extent 1 else 1) }
{
    if level == Level::Dense {
        extent.max(1)
    } else {
        1
    }
}

// The product, where it is at most 2^24.
fn times(size: u64, extent: u64) -> Option<u64>
    ensures { SomeIff result (size * extent ≤ 2 ^ 24) (size * extent) }
{
    match size.checked_mul(extent) {
        Some(product) if product <= MOST_DENSE => Some(product),
        _ => None,
    }
}
