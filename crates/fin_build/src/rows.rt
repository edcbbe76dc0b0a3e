//! The functions of some rows, by which the first coordinates are meant.
ghost use Rattle.std.specs.Prelude.{◌≡◌, ◌+◌, ◌-◌, ◌^◌, ◌<◌, ◌≤◌, length, slice_index, IfOk, OnOk, IfSome};
ghost use Rattle.fin_tensor.specs.Levels.{AreSmall};
ghost use Rattle.fin_build.specs.Parts.{rows_of, with_rows, rows_shape, moved, last_after};
ghost use Rattle.fin_build.specs.Shifts.{row_to as row_to_of, goes_to as goes_to_of, Lands, AllLand, written, written_one};

use crate::places::point;
use fin_grid::Grid;
use fin_tensor::{Coords, Nums};
use std::alloc::{AllocError, Global};

/// Which rows are taken, and to which they go.
#[derive(Clone, Copy)]
pub enum Shift {
    /// The rows lo to hi - 1, by lo down.
    Down { lo: u64, hi: u64 },
    /// The other rows, to themselves.
    Outside { lo: u64, hi: u64 },
    /// All rows, by lo up.
    Up { lo: u64 },
}

/// The function of the rows lo to hi - 1, moved down by lo.
pub fn rows_of(alloc: Global, function: &Grid, lo: u64, hi: u64) -> Result<Grid, AllocError>
    requires rows { 0 < length function.now.shape }
    requires small { AreSmall function.now.shape }
    requires order { lo ≤ hi }
    requires within { hi ≤ slice_index function.now.shape 0 }
    ensures { IfOk result (λ f. f ≡ rows_of lo hi function.now) }
{
    function.is_tensor();
    let shape = rows_shape(alloc, function.extents(), lo, hi)?;
    let mut rows = Grid::new(alloc, shape, function.fill());
    let entries = function.entries(alloc)?;
    write(alloc, entries.as_slice(), Shift::Down { lo, hi }, &mut rows)?;
    rows.is_tensor();
    Ok(rows)
}

/// The function with the part's rows as its rows lo to hi - 1.
pub fn with_rows(
    alloc: Global,
    function: &Grid,
    part: &Grid,
    lo: u64,
    hi: u64,
) -> Result<Grid, AllocError>
    requires rows { 0 < length function.now.shape }
    requires small { AreSmall function.now.shape }
    requires order { lo ≤ hi }
    requires within { hi ≤ slice_index function.now.shape 0 }
    requires shape { part.now.shape ≡ rows_shape lo hi function.now.shape }
    requires fill { part.now.fill ≡ function.now.fill }
    ensures { IfOk result (λ f. f ≡ with_rows lo hi function.now part.now) }
{
    function.is_tensor();
    part.is_tensor();
    let shape = function.extents().copy(alloc)?;
    let mut whole = Grid::new(alloc, shape, function.fill());
    let own = function.entries(alloc)?;
    write(alloc, own.as_slice(), Shift::Outside { lo, hi }, &mut whole)?;
    let theirs = part.entries(alloc)?;
    write(alloc, theirs.as_slice(), Shift::Up { lo }, &mut whole)?;
    whole.is_tensor();
    Ok(whole)
}

/// The last update of a tensor whose rows were replaced by a part that goes lo up: the part's, where it has one.
pub fn last_after(
    alloc: Global,
    lo: u64,
    last: &Option<Coords>,
    own: Option<Coords>,
) -> Option<Coords>
    requires { IfSome last.now (λ cs. (length cs ≤ 8) × (slice_index cs 0 + lo < 2 ^ 64)) }
    ensures { result ≡ last_after lo last.now own }
{
    match last {
        Some(last) => Some(raised(alloc, last, lo)),
        None => own,
    }
}

fn raised(alloc: Global, at: &Coords, lo: u64) -> Coords
    requires short { length at.now ≤ 8 }
    requires small { slice_index at.now 0 + lo < 2 ^ 64 }
    ensures { result ≡ moved (λ c. c + lo) at.now }
{
    let mut raised = point(alloc, at.as_slice());
    if raised.len() > 0 {
        let first = *raised.get(0);
        raised.set(0, first + lo);
    }
    raised
}

fn rows_shape(alloc: Global, shape: &Nums, lo: u64, hi: u64) -> Result<Nums, AllocError>
    requires { lo ≤ hi }
    ensures { IfOk result (λ s. s ≡ rows_shape lo hi shape.now) }
{
    let mut rows = shape.copy(alloc)?;
    if rows.len() > 0 {
        rows.set(0, hi - lo);
    }
    Ok(rows)
}

fn write(
    alloc: Global,
    entries: &[(Coords, i64)],
    shift: Shift,
    function: &mut Grid,
) -> Result<(), AllocError>
    requires small { AreSmall function.old.shape }
    requires land { AllLand shift function.old.shape entries.now }
    ensures { OnOk result (function.new ≡ written shift entries.now function.old) }
{
    for entry in entries {
        write_one(alloc, &entry.0, entry.1, shift, function)?;
    }
    Ok(())
}

fn write_one(
    alloc: Global,
    at: &Coords,
    value: i64,
    shift: Shift,
    function: &mut Grid,
) -> Result<(), AllocError>
    requires small { AreSmall function.old.shape }
    requires lands { Lands shift function.old.shape at.now }
    ensures { OnOk result (function.new ≡ written_one shift (at.now, value) function.old) }
{
    match goes_to(alloc, at, shift)? {
        Some(to) => function.put(alloc, &to, value),
        None => Ok(()),
    }
}

fn goes_to(alloc: Global, at: &Coords, shift: Shift) -> Result<Option<Coords>, AllocError>
    requires { IfSome (goes_to_of shift at.now) (λ ds. slice_index ds 0 < 2 ^ 64) }
    ensures { IfOk result (λ to. to ≡ goes_to_of shift at.now) }
{
    if at.len() == 0 {
        return Ok(None);
    }
    match row_to(*at.get(0), shift) {
        Some(row) => {
            let mut to = at.copy(alloc)?;
            to.set(0, row);
            Ok(Some(to))
        }
        None => Ok(None),
    }
}

fn row_to(row: u64, shift: Shift) -> Option<u64>
    requires { IfSome (row_to_of shift row) (λ to. to < 2 ^ 64) }
    ensures { result ≡ row_to_of shift row }
{
    match shift {
        Shift::Down { lo, hi } => {
            if lo <= row && row < hi {
                Some(row - lo)
            } else {
                None
            }
        }
        Shift::Outside { lo, hi } => {
            if lo <= row && row < hi {
                None
            } else {
                Some(row)
            }
        }
        Shift::Up { lo } => Some(row + lo),
    }
}
