//! The ties of a program, by line.
ghost use Rattle.std.specs.Prelude.{◌≡◌, ◌<◌, ◌||◌, ◌==◌, ℕ, All, IfOk, OnOk, IsPermutation, filter_map, length, Some};
ghost use Rattle.std.specs.List.Sorted.{IsNonDecreasingBy};
ghost use Rattle.fin_ast.specs.Ties.{bare as bare_of, is_open, tie_of as tie_at_place, ties_of};
ghost use Rattle.fin_dims.specs.Start.{flag_of};

use fin_ast::{Index, Place, Tie};
use std::alloc::{AllocError, Global};

/// Which variables are those of loops without range.
pub fn open_loops(alloc: Global, places: &[Place]) -> Result<Vec<bool>, AllocError>
    ensures { IfOk result (λ flags. (var : ℕ) → flag_of flags.items var ≡ is_open places.now var) }
{
    let mut flags = Vec::new(alloc);
    for place in places {
        if let Place::Loop {
            var,
            range: None,
            line: _,
        } = place
        {
            raise(&mut flags, *var)?;
        }
    }
    Ok(flags)
}

fn raise(flags: &mut Vec<bool>, var: u32) -> Result<(), AllocError>
    ensures { OnOk result ((v : ℕ) → flag_of flags.new.items v ≡ (flag_of flags.old.items v || var == v)) }
{
    let place = var as usize;
    while flags.len() <= place {
        flags.push(false)?;
    }
    flags[place] = true;
    Ok(())
}

/// The ties, in the order of their lines, of the loops with a flag.
pub fn ties_by_line(alloc: Global, places: &[Place], flags: &[bool]) -> Result<Vec<Tie>, AllocError>
    ensures same { let tied = filter_map (tie_at_place (flag_of flags.now)) places.now in
        IfOk result (λ ties. IsPermutation tied ties.items) }
    ensures sorted { IfOk result (λ ties. IsNonDecreasingBy (λ t. t.line) ties.items) }
{
    let mut ties = ties(alloc, places, flags)?;
    ties.sort_by_key(|tie| tie.line)?;
    Ok(ties)
}

fn ties(alloc: Global, places: &[Place], flags: &[bool]) -> Result<Vec<Tie>, AllocError>
    ensures { IfOk result (λ ties. ties.items ≡ filter_map (tie_at_place (flag_of flags.now)) places.now) }
{
    let mut ties = Vec::new(alloc);
    for place in places {
        if let Some(tie) = tie_of(place, flags) {
            ties.push(tie)?;
        }
    }
    Ok(ties)
}

fn tie_of(place: &Place, flags: &[bool]) -> Option<Tie>
    ensures { result ≡ tie_at_place (flag_of flags.now) place.now }
{
    match place {
        Place::Use {
            dimension,
            index,
            line,
        } => {
            let var = bare(index)?;
            if flag(flags, var) {
                Some(Tie {
                    dimension: *dimension,
                    var,
                    line: *line,
                })
            } else {
                None
            }
        }
        _ => None,
    }
}

fn flag(flags: &[bool], var: u32) -> bool
    ensures { result ≡ flag_of flags.now var }
{
    let var = var as usize;
    var < flags.len() && flags[var]
}

/// The variable, where the index is no more than one that stays in the extent.
fn bare(index: &Index) -> Option<u32>
    ensures { result ≡ bare_of index.now }
{
    match (index.loose, index.first, index.second) {
        (false, Some(var), None) if index.offset == 0 => Some(var),
        _ => None,
    }
}
