//! What is asked of a loop's nests before they are stepped.
ghost use Rattle.std.specs.Prelude.{◌≡◌, ◌++◌, IfOk};
ghost use Rattle.fin_style_point.specs.Parts.{all_looplets};
ghost use Rattle.fin_style_point.specs.Steps.{AllFlat};
ghost use Rattle.fin_simp.specs.Remaining.{are_nothing};
ghost use Rattle.fin_known.specs.Telling.{marks_told, gaps_told, tests_told, fill_at, truth_at};
ghost use Rattle.fin_descend.specs.Flat.{Flattens, Tells_of};
ghost use Rattle.fin_loops.specs.Loops.{OfLoop};
ghost use Rattle.fin_stmts.specs.Parts.{parts_come};
ghost use Rattle.fin_stmts.specs.Places.{here_of};
ghost use Rattle.fin_stmts.specs.Sites.{Comes, IsFixed, loop_of};

use crate::entered::Site;
use crate::fixed::{is_fixed, is_flat};
use fin_descend::{Asks, Flat, Told, flatten, weighs_nothing};
use fin_known::{Body, is_nothing_along, with_gaps, with_tests};
use fin_simp::{Facts, Gap, Known, rest_of_all};
use fin_style_point::Nest;
use std::alloc::{AllocError, Global};

/// A loop's site, and which of its reads it drives.
#[derive(Clone, Copy)]
pub struct NestAsks<'a> {
    pub site: Site<'a>,
    pub drives: &'a [bool],
}

/// What a nest of a loop tells by the heads of its looplets, around what is known around it.
#[derive(Drop)]
pub struct HeadsTell {
    pub gaps: Vec<Gap>,
    pub known: Vec<Known>,
}

impl Asks for NestAsks<'_> {
    ghost comes = { λ asks n. Comes asks.site asks.drives.now n };

    ghost stands = { λ asks. OfLoop (loop_of asks.site) };

    ghost fixed = { λ asks n. IsFixed asks.site n };

    fn ask(&self, alloc: Global, nest: &Nest) -> Result<Told, AllocError> {
        if weighs_nothing(nest) {
            return Ok(Told::Open);
        }
        if is_nothing_here(alloc, self, nest)? {
            return Ok(Told::Nothing);
        }
        if is_flat(nest) {
            return ask_flat(alloc, self, nest);
        }
        Ok(Told::Open)
    }

    ghost parts_come = { λ asks n. parts_come asks.site asks.drives.now n };
}

/// Whether nothing is left of the loop's body along a nest, by what it tells.
pub(crate) fn is_nothing_here(
    alloc: Global,
    asks: &NestAsks<'_>,
    nest: &Nest,
) -> Result<bool, AllocError>
    ensures { let told = marks_told asks.now.site.around asks.now.drives.now nest.now in
        IfOk result (λ yes. yes ≡ are_nothing asks.now.site.one.body.now (here_of asks.now.site.place) told) }
{
    let site = &asks.site;
    let body = Body {
        stmts: site.one.body,
        read: site.place.read,
        test: site.place.test,
    };
    is_nothing_along(alloc, nest, &body, asks.drives, &site.around)
}

/// A nest of the loop, laid flat.
pub(crate) fn flat_of(alloc: Global, asks: &NestAsks<'_>, nest: &Nest) -> Result<Flat, AllocError>
    requires { Comes asks.now.site asks.now.drives.now nest.now }
    ensures { let ds = asks.now.drives.now in let l = loop_of asks.now.site in
        IfOk result (λ flat. Flattens (OfLoop l) (Comes asks.now.site ds) (IsFixed asks.now.site) flat nest.now) }
{
    flatten(alloc, nest, asks)
}

// Along runs and lookups it is known what is left.
fn ask_flat(alloc: Global, asks: &NestAsks<'_>, nest: &Nest) -> Result<Told, AllocError>
    requires comes { Comes asks.now.site asks.now.drives.now nest.now }
    requires flat { AllFlat (all_looplets nest.now) }
    ensures { IfOk result (Tells_of (OfLoop (loop_of asks.now.site)) (IsFixed asks.now.site) nest.now) }
{
    let told = heads_tell(alloc, asks, nest)?;
    let site = &asks.site;
    let facts = Facts {
        gaps: told.gaps.as_slice(),
        known: told.known.as_slice(),
        bound: site.around.bound,
    };
    let walk = rest_of_all(
        alloc,
        site.one.body,
        &facts,
        site.place.read,
        site.place.test,
    )?;
    if is_fixed(site.one.var, asks.drives, nest, &walk.found) {
        return Ok(Told::Fixed);
    }
    Ok(Told::Open)
}

/// What a nest tells.
pub(crate) fn heads_tell(
    alloc: Global,
    asks: &NestAsks<'_>,
    nest: &Nest,
) -> Result<HeadsTell, AllocError>
    ensures gaps { let told = gaps_told (fill_at asks.now.drives.now nest.now.reads) nest.now.reads in
        IfOk result (λ h. h.gaps.items ≡ asks.now.site.around.gaps.now ++ told) }
    ensures known { let told = tests_told (truth_at nest.now.masks) nest.now.masks in
        IfOk result (λ h. h.known.items ≡ asks.now.site.around.known.now ++ told) }
{
    let around = &asks.site.around;
    let gaps = with_gaps(alloc, around.gaps, asks.drives, nest.reads.as_slice())?;
    let known = with_tests(alloc, around.known, nest.masks.as_slice())?;
    Ok(HeadsTell { gaps, known })
}
