//! The step of a nest by its style, whichever crate steps it.
ghost use Rattle.std.specs.Prelude.{◌≡◌, ◌+◌, ◌<◌, ◌++◌, ◌∷◌, IfOk, map, true, false, [], MatchOption};
ghost use Rattle.fin_nest.specs.Styles.{style_of, is_point_style};
ghost use Rattle.fin_style_point.specs.Parts.{all_looplets};
ghost use Rattle.fin_descend.specs.Parts.{as_stepping, as_point, weight_in, parts_of, frame_of};
ghost use Rattle.fin_descend.specs.Promises.{Divides, AllLighter, StaySeparate};
ghost use Rattle.fin_descend.specs.Naming.{step_end};

use crate::weights::is_at_points;
use fin_ast::Stmt;
use fin_ir::{Code, IExpr};
use fin_nest::{Numbered, copy_ends};
use fin_style_point::{Nest, Parts as Points};
use fin_style_step::{Nest as Stepping, Parts as Steps};
use sqlite_items::Items;
use std::alloc::{AllocError, Global};

/// The code around a nest's parts, the parts, and how many locals the code takes.
#[derive(Debug, Drop)]
pub struct Split {
    pub frame: Code,
    pub nests: Items<Nest>,
    pub room: u32,
}

/// The step of a nest that weighs something.
pub fn step(alloc: Global, nest: &Nest) -> Result<Split, AllocError>
    requires { 0 < weight_in nest.now }
    ensures divides { IfOk result (λ p. Divides p nest.now) }
    ensures lighter { IfOk result (λ p. AllLighter p nest.now) }
    ensures separate { IfOk result (λ p. StaySeparate p nest.now) }
    ensures parts { IfOk result (λ p. p.nests ≡ parts_of nest.now) }
    ensures frame { IfOk result (λ p. p.frame ≡ frame_of nest.now) }
    ensures room { IfOk result (λ p. p.room ≡ step_end nest.now) }
{
    let copy = copy(alloc, nest)?;
    if is_at_points(nest) {
        return step_at_points(alloc, copy);
    }
    step_along(alloc, copy)
}

fn step_at_points(alloc: Global, nest: Nest) -> Result<Split, AllocError>
    requires weight { 0 < weight_in nest }
    requires style { is_point_style (style_of (all_looplets nest)) ≡ true }
    ensures divides { IfOk result (λ p. Divides p nest) }
    ensures lighter { IfOk result (λ p. AllLighter p nest) }
    ensures separate { IfOk result (λ p. StaySeparate p nest) }
    ensures parts { IfOk result (λ p. p.nests ≡ parts_of nest) }
    ensures frame { IfOk result (λ p. p.frame ≡ frame_of nest) }
    ensures room { IfOk result (λ p. p.room ≡ step_end nest) }
{
    let next = nest.next;
    let parts = fin_style_point::step(alloc, nest)?;
    points_split(parts, next)
}

fn points_split(parts: Points, next: u32) -> Result<Split, AllocError>
    ensures { IfOk result (λ p. (p.frame ≡ parts.frame) × ((p.nests ≡ parts.nests) × (p.room ≡ next + 1))) }
{
    let room = behind(next, 1)?;
    Ok(Split {
        frame: parts.frame,
        nests: parts.nests,
        room,
    })
}

fn step_along(alloc: Global, nest: Nest) -> Result<Split, AllocError>
    requires style { is_point_style (style_of (all_looplets nest)) ≡ false }
    ensures divides { IfOk result (λ p. Divides p nest) }
    ensures lighter { IfOk result (λ p. AllLighter p nest) }
    ensures separate { IfOk result (λ p. StaySeparate p nest) }
    ensures parts { IfOk result (λ p. p.nests ≡ parts_of nest) }
    ensures frame { IfOk result (λ p. p.frame ≡ frame_of nest) }
    ensures room { IfOk result (λ p. p.room ≡ step_end nest) }
{
    let next = nest.next;
    let parts = fin_style_step::step(alloc, as_stepping(nest))?;
    steps_split(alloc, parts, next)
}

fn steps_split(alloc: Global, parts: Steps, next: u32) -> Result<Split, AllocError>
    ensures { IfOk result (λ p. (p.frame ≡ parts.frame)
        × ((p.nests ≡ map as_point parts.nests) × (p.room ≡ next + 3))) }
{
    let nests = as_points(alloc, parts.nests)?;
    points_behind(parts.frame, nests, next)
}

fn points_behind(frame: Code, nests: Items<Nest>, next: u32) -> Result<Split, AllocError>
    ensures { IfOk result (λ p. (p.frame ≡ frame) × ((p.nests ≡ nests) × (p.room ≡ next + 3))) }
{
    let room = behind(next, 3)?;
    Ok(Split { frame, nests, room })
}

pub(crate) fn copy(alloc: Global, nest: &Nest) -> Result<Nest, AllocError>
    ensures { IfOk result (λ q. q ≡ nest.now) }
{
    let reads = copies(alloc, nest.reads.as_slice())?;
    let masks = copies(alloc, nest.masks.as_slice())?;
    let (body, lo, hi) = copy_loop(alloc, nest)?;
    Ok(Nest {
        body,
        var: nest.var,
        lo,
        hi,
        next: nest.next,
        reads,
        masks,
    })
}

fn copy_loop(alloc: Global, nest: &Nest) -> Result<(Stmt, IExpr, IExpr), AllocError>
    ensures { IfOk result (λ p. (p.0 ≡ nest.now.body) × ((p.1 ≡ nest.now.lo) × (p.2 ≡ nest.now.hi))) }
{
    let body = nest.body.copy(alloc)?;
    let (lo, hi) = copy_ends(alloc, &nest.lo, &nest.hi)?;
    Ok((body, lo, hi))
}

fn copies(alloc: Global, entries: &[Numbered]) -> Result<Items<Numbered>, AllocError>
    ensures { IfOk result (λ all. all ≡ entries.now) }
{
    let mut all = Items::new(alloc);
    for entry in entries {
        let looplet = entry.looplet.copy(alloc)?;
        all.push(Numbered {
            number: entry.number,
            looplet,
        })?;
    }
    Ok(all)
}

// There is no memory for more locals than there can be.
fn behind(next: u32, taken: u32) -> Result<u32, AllocError>
    ensures { IfOk result (λ room. room ≡ next + taken) }
{
    match next.checked_add(taken) {
        None => Err(AllocError),
        Some(room) => Ok(room),
    }
}

fn as_stepping(nest: Nest) -> Stepping
    ensures { result ≡ as_stepping nest }
{
    Stepping {
        body: nest.body,
        var: nest.var,
        lo: nest.lo,
        hi: nest.hi,
        next: nest.next,
        reads: nest.reads,
        masks: nest.masks,
    }
}

fn as_point(nest: Stepping) -> Nest
    ensures { result ≡ as_point nest }
{
    Nest {
        body: nest.body,
        var: nest.var,
        lo: nest.lo,
        hi: nest.hi,
        next: nest.next,
        reads: nest.reads,
        masks: nest.masks,
    }
}

// A step leaves at most two, so that taking them from the front costs little.
fn as_points(alloc: Global, nests: Items<Stepping>) -> Result<Items<Nest>, AllocError>
    ensures { IfOk result (λ all. all ≡ map as_point nests) }
{
    let mut rest = nests;
    let mut all = Items::new(alloc);
    while let Some(nest) = take_first(&mut rest) {
        all.push(as_point(nest))?;
    }
    Ok(all)
}

/// The first item, and the others left.
pub fn take_first<T: Drop>(rest: &mut Items<T>) -> Option<T>
    ensures { MatchOption result ((rest.old ≡ []) × (rest.new ≡ [])) (λ first. rest.old ≡ first ∷ rest.new) }
{
    if rest.is_empty() {
        return None;
    }
    Some(rest.remove(0))
}
