//! The step of a nest of a stepping style.
ghost use Rattle.std.specs.Prelude.{◌≡◌, ◌∷◌, [], IfOk, false};
ghost use Rattle.fin_nest.specs.Styles.{sequence, jumper, style_of, is_point_style};
ghost use Rattle.fin_style_step.specs.Parts.{all_looplets, nest_has, one_part, here_part, others_part, sequence_parts};
ghost use Rattle.fin_style_step.specs.Parts.{inside_nest, stepper_part, stepper_frame, jumper_part, jumper_frame};
ghost use Rattle.fin_style_step.specs.Parts.{nest_stop, parts_of};
ghost use Rattle.fin_style_step.specs.Limited.{begin_behind, end_before};
ghost use Rattle.fin_style_step.specs.Splits.{Splits, AllLighter, StaySeparate, AreOfNest};

use crate::dividing::{here_all, others_all};
use crate::frames::{jumper_frame, nest_stop, sequence_frame, stepper_frame};
use crate::heads::{any_jumper, any_sequence};
use crate::limits::{begin_behind, end_before};
use crate::nest::{Kind, Nest, Parts};
use crate::walking::inside_all;
use fin_ast::Stmt;
use fin_ir::{Code, IExpr};
use fin_looplet::plus;
use sqlite_items::Items;
use std::alloc::{AllocError, Global};

/// The parts of a nest whose style is sequence, stepper or jumper: they split it, weigh less, and depend on nothing
/// that their code changes where the nest doesn't. There is no memory for a local behind the last that there can be.
pub fn step(alloc: Global, nest: Nest) -> Result<Parts, AllocError>
    requires style { is_point_style (style_of (all_looplets nest)) ≡ false }
    ensures split { IfOk result (λ p. Splits p nest) }
    ensures lighter { IfOk result (λ p. AllLighter p nest) }
    ensures separate { IfOk result (λ p. StaySeparate p nest) }
    ensures body { IfOk result (λ p. AreOfNest p nest) }
    ensures made { IfOk result (λ p. p ≡ parts_of nest) }
{
    parts_of(alloc, &nest)
}

fn parts_of(alloc: Global, nest: &Nest) -> Result<Parts, AllocError>
    ensures { IfOk result (λ p. p ≡ parts_of nest.now) }
{
    if has_sequence(nest) {
        return sequence_parts(alloc, nest);
    }
    if has_jumper(nest) {
        return jumper_parts(alloc, nest);
    }
    stepper_parts(alloc, nest)
}

fn has_sequence(nest: &Nest) -> bool
    ensures { result ≡ nest_has sequence nest.now }
{
    any_sequence(nest.reads.as_slice()) || any_sequence(nest.masks.as_slice())
}

fn has_jumper(nest: &Nest) -> bool
    ensures { result ≡ nest_has jumper nest.now }
{
    any_jumper(nest.reads.as_slice()) || any_jumper(nest.masks.as_slice())
}

fn sequence_parts(alloc: Global, nest: &Nest) -> Result<Parts, AllocError>
    ensures { IfOk result (λ p. p ≡ sequence_parts nest.now) }
{
    let frame = sequence_frame(alloc, nest)?;
    let nests = sequence_nests(alloc, nest)?;
    Ok(Parts { frame, nests })
}

fn sequence_nests(alloc: Global, nest: &Nest) -> Result<Items<Nest>, AllocError>
    ensures { IfOk result (λ ns. ns ≡ here_part nest.now ∷ others_part nest.now ∷ []) }
{
    let here = here_part(alloc, nest)?;
    let others = others_part(alloc, nest)?;
    two_nests(alloc, here, others)
}

fn two_nests(alloc: Global, first: Nest, second: Nest) -> Result<Items<Nest>, AllocError>
    ensures { IfOk result (λ ns. ns ≡ first ∷ second ∷ []) }
{
    let mut nests = Items::new(alloc);
    nests.push(first)?;
    nests.push(second)?;
    Ok(nests)
}

fn here_part(alloc: Global, nest: &Nest) -> Result<Nest, AllocError>
    ensures { IfOk result (λ q. q ≡ here_part nest.now) }
{
    if nest.next == u32::MAX {
        return Err(AllocError);
    }
    let reads = here_all(alloc, &nest.hi, nest.reads.as_slice(), true)?;
    let waits = !any_sequence(nest.reads.as_slice());
    let masks = here_all(alloc, &nest.hi, nest.masks.as_slice(), waits)?;
    let hi = here_end(alloc, nest)?;
    let (body, lo) = copy_from(alloc, nest, &nest.lo)?;
    Ok(Nest {
        body,
        var: nest.var,
        lo,
        hi,
        next: nest.next + 1,
        reads,
        masks,
    })
}

fn others_part(alloc: Global, nest: &Nest) -> Result<Nest, AllocError>
    ensures { IfOk result (λ q. q ≡ others_part nest.now) }
{
    if nest.next == u32::MAX {
        return Err(AllocError);
    }
    let reads = others_all(alloc, nest.reads.as_slice(), true)?;
    let waits = !any_sequence(nest.reads.as_slice());
    let masks = others_all(alloc, nest.masks.as_slice(), waits)?;
    let lo = others_begin(alloc, nest)?;
    let (body, hi) = copy_from(alloc, nest, &nest.hi)?;
    Ok(Nest {
        body,
        var: nest.var,
        lo,
        hi,
        next: nest.next + 1,
        reads,
        masks,
    })
}

fn here_end(alloc: Global, nest: &Nest) -> Result<IExpr, AllocError>
    ensures { let n = nest.now in IfOk result (λ e. e ≡ end_before n.hi (nest_stop n) n.next) }
{
    let stop = nest_stop(alloc, nest)?;
    end_before(alloc, &nest.hi, &stop, nest.next)
}

fn others_begin(alloc: Global, nest: &Nest) -> Result<IExpr, AllocError>
    ensures { let n = nest.now in IfOk result (λ e. e ≡ begin_behind n.lo (nest_stop n) n.next) }
{
    let stop = nest_stop(alloc, nest)?;
    begin_behind(alloc, &nest.lo, &stop, nest.next)
}

/// Copies of the nest's body and of one of its ends.
fn copy_from(alloc: Global, nest: &Nest, end: &IExpr) -> Result<(Stmt, IExpr), AllocError>
    ensures { IfOk result (λ p. (p.0 ≡ nest.now.body) × (p.1 ≡ end.now)) }
{
    let body = nest.body.copy(alloc)?;
    let end = end.copy(alloc)?;
    Ok((body, end))
}

fn stepper_parts(alloc: Global, nest: &Nest) -> Result<Parts, AllocError>
    ensures { IfOk result (λ p. p ≡ one_part (stepper_frame nest.now) (stepper_part nest.now)) }
{
    let frame = stepper_frame(alloc, nest)?;
    let part = stepper_part(alloc, nest)?;
    one_part(alloc, frame, part)
}

fn stepper_part(alloc: Global, nest: &Nest) -> Result<Nest, AllocError>
    ensures { IfOk result (λ q. q ≡ stepper_part nest.now) }
{
    if nest.next > u32::MAX - 2 {
        return Err(AllocError);
    }
    let lo = IExpr::Local(nest.next);
    let hi = IExpr::Local(nest.next + 1);
    inside_between(alloc, Kind::Stepper, nest, (lo, hi), nest.next + 2)
}

fn jumper_parts(alloc: Global, nest: &Nest) -> Result<Parts, AllocError>
    ensures { IfOk result (λ p. p ≡ one_part (jumper_frame nest.now) (jumper_part nest.now)) }
{
    let frame = jumper_frame(alloc, nest)?;
    let part = jumper_part(alloc, nest)?;
    one_part(alloc, frame, part)
}

fn jumper_part(alloc: Global, nest: &Nest) -> Result<Nest, AllocError>
    ensures { IfOk result (λ q. q ≡ jumper_part nest.now) }
{
    if nest.next > u32::MAX - 3 {
        return Err(AllocError);
    }
    let lo = IExpr::Local(nest.next + 2);
    let hi = plus(alloc, IExpr::Local(nest.next + 2), IExpr::Num(1))?;
    inside_between(alloc, Kind::Jumper, nest, (lo, hi), nest.next + 3)
}

/// The nest between other ends, with what its looplets are before the stops of the walkers of the kind.
fn inside_between(
    alloc: Global,
    kind: Kind,
    nest: &Nest,
    ends: (IExpr, IExpr),
    next: u32,
) -> Result<Nest, AllocError>
    ensures { IfOk result (λ q. q ≡ record (inside_nest kind nest.now) { lo = ends.0; hi = ends.1; next = next }) }
{
    let reads = inside_all(alloc, kind, &nest.hi, nest.reads.as_slice())?;
    let masks = inside_all(alloc, kind, &nest.hi, nest.masks.as_slice())?;
    let body = nest.body.copy(alloc)?;
    let (lo, hi) = ends;
    Ok(Nest {
        body,
        var: nest.var,
        lo,
        hi,
        next,
        reads,
        masks,
    })
}

fn one_part(alloc: Global, frame: Code, part: Nest) -> Result<Parts, AllocError>
    ensures { IfOk result (λ p. p ≡ one_part frame part) }
{
    let mut nests = Items::new(alloc);
    nests.push(part)?;
    Ok(Parts { frame, nests })
}
