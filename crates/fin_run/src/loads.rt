//! What expressions read of a storage.
ghost use Rattle.std.specs.Prelude.{◌≡◌, ℕ, ◌<◌, ◌≤◌, ◌+◌, ◌-◌, ◌&&◌, nat_le, length, slice_index};
ghost use Rattle.std.specs.List.{list_any, range_with_len};
ghost use Rattle.fin_tensor.specs.Levels.{AreSmall, IsPtr, fibres};
ghost use Rattle.fin_ir.specs.Loads.{table_in, part_at, number_at as number_of, word_at as word_of, lies_in_fibre, has_numbers, holds, seek_in};

use fin_ir::Table;
use fin_tensor::{Part, Storage};

/// A number of a list of a level; 0 out of range.
pub fn cell(storage: &Storage, level: u8, table: Table, at: i64) -> i64
    ensures { result ≡ number_of (table_in table (part_at storage.now.parts level)) at }
{
    let level = level as usize;
    if level < storage.parts.len() {
        number_at(table_of(storage.parts.get(level), table), at)
    } else {
        0
    }
}

fn table_of(part: &Part, table: Table) -> &[u64]
    ensures { result.now ≡ table_in table part.now }
{
    match (table, part) {
        (Table::Ptr, Part::Keys { ptr, idx: _ }) => ptr.as_slice(),
        (Table::Ptr, Part::Runs { ptr, stop: _ }) => ptr.as_slice(),
        (Table::Ptr, Part::Band { ptr, start: _ }) => ptr.as_slice(),
        (Table::Idx, Part::Keys { ptr: _, idx }) => idx.as_slice(),
        (Table::Stop, Part::Runs { ptr: _, stop }) => stop.as_slice(),
        (Table::Start, Part::Band { ptr: _, start }) => start.as_slice(),
        _ => &[],
    }
}

fn number_at(xs: &[u64], at: i64) -> i64
    requires { AreSmall xs.now }
    ensures { result ≡ number_of xs.now at }
{
    if at < 0 {
        return 0;
    }
    let at = at as usize;
    if at < xs.len() { xs[at] as i64 } else { 0 }
}

/// A word at a position; 0 out of range.
pub fn word(storage: &Storage, at: i64) -> i64
    ensures { result ≡ word_of storage.now.val at }
{
    if at < 0 {
        return 0;
    }
    let at = at as usize;
    if at < storage.val.len() {
        *storage.val.get(at)
    } else {
        0
    }
}

/// The place that a search gives, or `from` where it lies in no fibre.
pub fn seek(storage: &Storage, level: u8, from: i64, to: i64, key: i64) -> i64
    ensures { result ≡ seek_in storage.now.shape storage.now.parts level from to key }
{
    if from < 0 || to < 0 || key < 0 {
        return from;
    }
    if !lies(storage, level, from as u64, to as u64) {
        return from;
    }
    storage.search(level, from as u64, to as u64, key as u64) as i64
}

// Whether from..to lies in a fibre of the level, and there are numbers to look through.
fn lies(storage: &Storage, level: u8, from: u64, to: u64) -> bool
    ensures { result ≡ lies_in_fibre (slice_index storage.now.shape level) (fibres storage.now.shape storage.now.parts 1 level) (part_at storage.now.parts level) from to }
{
    let level = level as usize;
    if storage.parts.len() <= level || to < from {
        return false;
    }
    match storage.parts.get(level) {
        Part::Keys { ptr, idx: _ } => is_around(ptr.as_slice(), from, to),
        Part::Runs { ptr, stop: _ } => is_around(ptr.as_slice(), from, to),
        _ => false,
    }
}

// Whether from..to lies in one of the fibres that begin there.
fn is_around(ptr: &[u64], from: u64, to: u64) -> bool
    requires some { 0 < length ptr.now }
    requires ptr { IsPtr (length ptr.now - 1) ptr.now }
    ensures { result ≡ list_any (λ p. nat_le (slice_index ptr.now p) from && nat_le to (slice_index ptr.now (p + 1))) (range_with_len 0 (length ptr.now - 1)) }
{
    if ptr.len() < 2 {
        return false;
    }
    let low = last_begin(ptr, from);
    to <= ptr[low + 1]
}

// The last of the fibres that begin at `from` or before.
fn last_begin(ptr: &[u64], from: u64) -> usize
    requires some { 1 < length ptr.now }
    requires ptr { IsPtr (length ptr.now - 1) ptr.now }
    ensures within { result + 1 < length ptr.now }
    ensures begins { slice_index ptr.now result ≤ from }
    ensures last { (p : ℕ) → result < p → p + 1 < length ptr.now → from < slice_index ptr.now p }
{
    let mut low = 0;
    let mut high = ptr.len() - 1;
    while high - low > 1 {
        let middle = low + (high - low) / 2;
        if ptr[middle] <= from {
            low = middle;
        } else {
            high = middle;
        }
    }
    low
}
