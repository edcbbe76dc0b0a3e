//! Thawing.
ghost use Rattle.std.specs.Prelude.{◌≡◌, ◌+◌, ◌<◌, ◌≤◌, ◌++◌, ◌∷◌, [], length, slice_index, slice_index_or, IsTrue, IfOk, OnOk};
ghost use Rattle.fin_tensor.specs.Levels.{fibres, fibre_from, fibre_to};
ghost use Rattle.fin_tensor.specs.Stands.{stands};
ghost use Rattle.fin_freeze.specs.Thawing.{thawed, LeadsTo, Holds, AgreeElsewhere, IsSpan, values_below, values_before, blank};

use crate::spans::{Span, span_of};
use fin_build::Builder;
use fin_grid::Grid;
use fin_tensor::{Coords, Part, Storage};
use std::alloc::{AllocError, Global};

/// A builder of the function that the storage stands for, in the storage's format. Nothing was updated in it.
pub fn thaw(alloc: Global, storage: &Storage) -> Result<Builder, AllocError>
    ensures { IfOk result (λ b. b ≡ thawed storage.now) }
{
    let format = storage.format.copy(alloc)?;
    let function = function_of(alloc, storage)?;
    Ok(Builder::holding(alloc, format, function))
}

// Where there is no value, dense extents may be large all the same: nothing is gone over then.
fn function_of(alloc: Global, storage: &Storage) -> Result<Grid, AllocError>
    ensures { IfOk result (λ f. f ≡ stands storage.now) }
{
    let shape = storage.shape.copy(alloc)?;
    let mut function = Grid::new(alloc, shape, storage.format.fill);
    if storage.val.len() > 0 {
        let at = Coords::new(alloc);
        fill_below(alloc, storage, 0, &at, &mut function)?;
    }
    function.is_tensor();
    Ok(function)
}

// Gives the function the values below a position, to which the coordinates `at` lead.
#[cycle(walk)]
fn fill_below(
    alloc: Global,
    storage: &Storage,
    pos: u64,
    at: &Coords,
    function: &mut Grid,
) -> Result<(), AllocError>
    requires leads { LeadsTo storage.now at.now pos }
    requires blank { Holds storage.now at.now (blank storage.now) function.old }
    ensures filled { OnOk result (Holds storage.now at.now (values_below storage.now (length at.now) pos) function.new) }
    ensures elsewhere { OnOk result (AgreeElsewhere at.now function.old function.new) }
{
    let level = at.len();
    if level == storage.parts.len() {
        return function.put(alloc, at, *storage.val.get(pos as usize));
    }
    let fibre = storage.fibre(level as u8, pos);
    for place in fibre.from..fibre.to {
        fill_place(alloc, storage, pos, place, at, function)?;
    }
    Ok(())
}

// Gives it the values of one place of the fibre, after those of the places before it.
#[cycle(walk)]
fn fill_place(
    alloc: Global,
    storage: &Storage,
    pos: u64,
    place: u64,
    at: &Coords,
    function: &mut Grid,
) -> Result<(), AllocError>
    requires leads { LeadsTo storage.now at.now pos }
    requires deep { length at.now < length storage.now.parts }
    requires low { fibre_from (slice_index storage.now.shape (length at.now)) (slice_index_or storage.now.parts (length at.now) Part.Dense) pos ≤ place }
    requires high { place < fibre_to (slice_index storage.now.shape (length at.now)) (slice_index_or storage.now.parts (length at.now) Part.Dense) pos }
    requires before { Holds storage.now at.now (values_before place storage.now (length at.now) pos) function.old }
    ensures filled { OnOk result (Holds storage.now at.now (values_before (place + 1) storage.now (length at.now) pos) function.new) }
    ensures elsewhere { OnOk result (AgreeElsewhere at.now function.old function.new) }
{
    let level = at.len();
    if is_blank(storage, level, place) {
        return Ok(());
    }
    let span = span_at(storage, level, pos, place);
    for i in span.from..span.to {
        let below = extended(alloc, at, i)?;
        fill_below(alloc, storage, place, &below, function)?;
    }
    Ok(())
}

// Only a value that is the fill stands at the place, as at a long run of the fill.
fn is_blank(storage: &Storage, level: usize, place: u64) -> bool
    requires deep { level < length storage.now.parts }
    requires place { place < fibres storage.now.shape storage.now.parts 1 (level + 1) }
    ensures last { IsTrue result → level + 1 ≡ length storage.now.parts }
    ensures fill { IsTrue result → slice_index_or storage.now.val place storage.now.format.fill ≡ storage.now.format.fill }
{
    level + 1 == storage.parts.len() && *storage.val.get(place as usize) == storage.format.fill
}

fn span_at(storage: &Storage, level: usize, pos: u64, place: u64) -> Span
    requires deep { level < length storage.now.parts }
    requires within { pos < fibres storage.now.shape storage.now.parts 1 level }
    requires low { fibre_from (slice_index storage.now.shape level) (slice_index_or storage.now.parts level Part.Dense) pos ≤ place }
    requires high { place < fibre_to (slice_index storage.now.shape level) (slice_index_or storage.now.parts level Part.Dense) pos }
    ensures { IsSpan (slice_index storage.now.shape level) (slice_index_or storage.now.parts level Part.Dense) pos place result.from result.to }
{
    let extent = *storage.shape.get(level);
    span_of(storage.parts.get(level), extent, pos, place)
}

fn extended(alloc: Global, at: &Coords, i: u64) -> Result<Coords, AllocError>
    ensures { IfOk result (λ c. c ≡ at.now ++ i ∷ []) }
{
    let mut extended = at.copy(alloc)?;
    extended.push(i)?;
    Ok(extended)
}
