//! Tests of the lines of a storage.
ghost use Rattle.std.specs.Prelude.{◌≡◌, ◌≤◌, ◌<◌, ◌+◌, ◌-◌, ◌^◌, ◌↔◌, ℕ, length, min, IsTrue, slice_index};
ghost use Rattle.fin_tensor.specs.declared.format.Level.{Level};
ghost use Rattle.fin_tensor.specs.Levels.{IsLevel, IsPtr, IsIdx, IsStop, IsStart, positions};
ghost use Rattle.fin_tensor.specs.Lines.{IsShape};

use crate::format::Level;
use crate::part::Part;

/// The greatest number of a line other than `val`, and the most fibres of a level.
pub const MOST: u64 = 1_099_511_627_776;

/// The line `shape`.
pub fn is_shape(levels: &[Level], shape: &[u64]) -> bool
    ensures { IsTrue result ↔ IsShape levels.now shape.now }
{
    if shape.len() != levels.len() {
        return false;
    }
    for extent in shape {
        if *extent > MOST {
            return false;
        }
    }
    true
}

/// The line `ptr` of a level with that many fibres.
pub fn is_ptr(fibres: u64, ptr: &[u64]) -> bool
    ensures { IsTrue result ↔ IsPtr fibres ptr.now }
{
    if ptr.is_empty()
        || ptr.len() as u64 - 1 != fibres
        || ptr[0] != 0
        || ptr[ptr.len() - 1] > MOST
    {
        return false;
    }
    for p in 0..ptr.len() - 1 {
        if ptr[p] > ptr[p + 1] {
            return false;
        }
    }
    true
}

/// The line `idx` below a valid line `ptr`.
pub fn is_idx(extent: u64, fibres: u64, ptr: &[u64], idx: &[u64]) -> bool
    requires small { extent ≤ 2 ^ 40 }
    requires ptr { IsPtr fibres ptr.now }
    ensures { IsTrue result ↔ IsIdx extent fibres ptr.now idx.now }
{
    if idx.len() as u64 != ptr[fibres as usize] {
        return false;
    }
    for i in idx {
        if *i >= extent {
            return false;
        }
    }
    for p in 0..fibres as usize {
        if !rises(idx, ptr[p], ptr[p + 1]) {
            return false;
        }
    }
    true
}

/// The line `stop` below a valid line `ptr`.
pub fn is_stop(extent: u64, fibres: u64, ptr: &[u64], stop: &[u64]) -> bool
    requires small { extent ≤ 2 ^ 40 }
    requires ptr { IsPtr fibres ptr.now }
    ensures { IsTrue result ↔ IsStop extent fibres ptr.now stop.now }
{
    if stop.len() as u64 != ptr[fibres as usize] || (extent == 0 && !stop.is_empty()) {
        return false;
    }
    for s in stop {
        if *s == 0 || *s > MOST {
            return false;
        }
    }
    for p in 0..fibres as usize {
        if !rises(stop, ptr[p], ptr[p + 1])
            || (extent != 0 && !ends_at(extent, stop, ptr[p], ptr[p + 1]))
        {
            return false;
        }
    }
    true
}

/// The line `start` below a valid line `ptr`.
pub fn is_start(extent: u64, fibres: u64, ptr: &[u64], start: &[u64]) -> bool
    requires small { extent ≤ 2 ^ 40 }
    requires ptr { IsPtr fibres ptr.now }
    ensures { IsTrue result ↔ IsStart extent fibres ptr.now start.now }
{
    if start.len() as u64 != fibres {
        return false;
    }
    for p in 0..start.len() {
        if !fits(start[p], ptr[p + 1] - ptr[p], extent) {
            return false;
        }
    }
    true
}

// Whether the numbers of a fibre rise.
fn rises(numbers: &[u64], from: u64, to: u64) -> bool
    requires order { from ≤ to }
    requires within { to ≤ length numbers.now }
    ensures { IsTrue result ↔ ((k : ℕ) → from ≤ k → k + 1 < to → slice_index numbers.now k < slice_index numbers.now (k + 1)) }
{
    let mut k = from;
    while k < to && k + 1 < to {
        if numbers[k as usize] >= numbers[k as usize + 1] {
            return false;
        }
        k += 1;
    }
    true
}

// Whether a fibre has a last stop, which is the extent.
fn ends_at(extent: u64, stop: &[u64], from: u64, to: u64) -> bool
    requires within { to ≤ length stop.now }
    ensures { IsTrue result ↔ ((from < to) × (slice_index stop.now (to - 1) ≡ extent)) }
{
    from < to && stop[to as usize - 1] == extent
}

// Whether a block ends within the extent.
fn fits(start: u64, length: u64, extent: u64) -> bool
    ensures { IsTrue result ↔ (start + length ≤ extent) }
{
    length <= extent && start <= extent - length
}

/// The number of fibres of the level after one, where both numbers are at most the greatest u64, which stands for each
/// greater one too.
pub fn next_count(count: u64, extent: u64, part: &Part) -> u64
    ensures { (fibres : ℕ) (kind : Level) → count ≡ min fibres (2 ^ 64 - 1) → IsLevel kind extent fibres part.now → result ≡ min (positions extent fibres part.now) (2 ^ 64 - 1) }
{
    match part {
        Part::Dense => count.saturating_mul(extent),
        Part::Keys { ptr, idx: _ } => last(ptr.as_slice()),
        Part::Runs { ptr, stop: _ } => last(ptr.as_slice()),
        Part::Band { ptr, start: _ } => last(ptr.as_slice()),
    }
}

/// Whether there are few fibres in a level too, where there are in those before it.
pub fn stays_few(few: bool, count: u64) -> bool
    ensures { IsTrue result ↔ (IsTrue few × (count ≤ 2 ^ 40)) }
{
    few && count <= MOST
}

fn last(ptr: &[u64]) -> u64
    ensures { result ≡ slice_index ptr.now (length ptr.now - 1) }
{
    if ptr.is_empty() {
        return 0;
    }
    ptr[ptr.len() - 1]
}
