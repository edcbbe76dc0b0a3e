//! The lists of a canonical storage.

ghost use Rattle.std.specs.Prelude.{◌≡◌, ◌<◌, ◌≤◌, [], ◌∷◌, drop, length, IfOk, map, if◌then◌else◌};
ghost use Rattle.std.specs.List.{All};
ghost use Rattle.fin_tensor.specs.Placement.{IsPlaced};
ghost use Rattle.fin_tensor.specs.TensorFunction.{value_at};
ghost use Rattle.fin_tensor.specs.Canon.{canon_parts, canon_values};
ghost use Rattle.fin_canon.specs.Entries.{AreEntries, named};
ghost use Rattle.fin_canon.specs.Nothing.{leads_to_nothing};
ghost use Rattle.fin_canon.specs.Ranges.{value_of};

use crate::entry::{Entry, Range};
use crate::levels::{Made, make_level};
use fin_tensor::{Format, Level, Part, Seq, Vals};
use std::alloc::{AllocError, Global};

/// The parts of all levels, and the values.
#[derive(Drop)]
pub struct Lists {
    pub parts: Seq<Part>,
    pub val: Vals,
}

/// The lists of the canonical storage of the function that the entries name.
pub fn canonical_lists(
    alloc: Global,
    format: &Format,
    shape: &[u64],
    entries: &[Entry],
) -> Result<Lists, AllocError>
    requires placed { IsPlaced format.now.levels format.now.wrap }
    requires shape { length shape.now ≡ length format.now.levels }
    requires entries { AreEntries shape.now entries.now }
    ensures parts { IfOk result (λ s. s.parts ≡ canon_parts format.now.levels format.now.fill shape.now (value_at (named shape.now format.now.fill entries.now) ∷ [])) }
    ensures values { IfOk result (λ s. s.val ≡ canon_values format.now.levels format.now.fill shape.now (value_at (named shape.now format.now.fill entries.now) ∷ [])) }
{
    let levels = format.levels.as_slice();
    let mut parts = Seq::new(alloc);
    let mut slices = Seq::new(alloc);
    slices.push(Range {
        from: 0,
        to: entries.len() as u64,
    })?;
    for k in 0..levels.len() {
        let kept = needed(alloc, levels, shape, k, slices);
        let made = make_level(
            alloc,
            format,
            entries,
            levels[k],
            k as u8,
            shape[k],
            kept.as_slice(),
        )?;
        let Made { part, next } = made;
        parts.push(part)?;
        slices = next;
    }
    let val = values(alloc, format, entries, slices.as_slice())?;
    Ok(Lists { parts, val })
}

// The slices at level k that anything is stored for: none where dense levels alone stand before an extent of 0.
// Without this, the levels before it would be gone through for nothing.
fn needed(
    alloc: Global,
    levels: &[Level],
    shape: &[u64],
    k: usize,
    slices: Seq<Range>,
) -> Seq<Range>
    requires long { length shape.now ≡ length levels.now }
    requires within { k ≤ length levels.now }
    ensures { result ≡ (if leads_to_nothing (drop k levels.now) (drop k shape.now) then [] else slices) }
{
    if leads_to_nothing(levels, shape, k) {
        Seq::new(alloc)
    } else {
        slices
    }
}

// From level k on, dense levels alone stand before an extent of 0.
fn leads_to_nothing(levels: &[Level], shape: &[u64], k: usize) -> bool
    requires long { length shape.now ≡ length levels.now }
    requires within { k ≤ length levels.now }
    ensures { result ≡ leads_to_nothing (drop k levels.now) (drop k shape.now) }
{
    for j in k..levels.len() {
        if levels[j] != Level::Dense {
            return false;
        }
        if shape[j] == 0 {
            return true;
        }
    }
    false
}

// The values of the slices without coordinates.
fn values(
    alloc: Global,
    format: &Format,
    entries: &[Entry],
    slices: &[Range],
) -> Result<Vals, AllocError>
    requires within { All (λ r. r.to ≤ length entries.now) slices.now }
    ensures { IfOk result (λ v. v ≡ map (value_of entries.now format.now.fill) slices.now) }
{
    let mut val = Vals::new(alloc);
    for r in slices {
        val.push(value(format, entries, *r))?;
    }
    Ok(val)
}

fn value(format: &Format, entries: &[Entry], r: Range) -> i64
    requires within { r.to ≤ length entries.now }
    ensures { result ≡ value_of entries.now format.now.fill r }
{
    if r.from < r.to {
        entries[r.from as usize].1
    } else {
        format.fill
    }
}
