//! The step of a nest of a point style.
ghost use Rattle.std.specs.Prelude.{◌≡◌, ◌<◌, [], ◌∷◌, ◌++◌, IfOk, true, pos};
ghost use Rattle.fin_ir.specs.declared.code.Code.TheVariants.{Skip};
ghost use Rattle.fin_ir.specs.declared.expression.IExpr.TheVariants.{Num, Local};
ghost use Rattle.fin_looplet.specs.Cut.{plus};
ghost use Rattle.fin_nest.specs.Courses.{course_weight};
ghost use Rattle.fin_nest.specs.Styles.{shift, switch, spike, style_of, is_point_style};
ghost use Rattle.fin_style_point.specs.declared.nest.Branch.TheVariants.{Taken, Others};
ghost use Rattle.fin_style_point.specs.Parts.{all_looplets, course_of, with_looplets, nest_has, one_part, parts_of};
ghost use Rattle.fin_style_point.specs.Parts.{spike_part, shift_part, switch_part, switch_parts};
ghost use Rattle.fin_style_point.specs.Parts.{loop_frame, point_part};
ghost use Rattle.fin_style_point.specs.Splits.{Splits, Lighter, StaySeparate, AreOfNest};

use crate::codes::{loop_frame, switch_frame};
use crate::heads::{any_shift, any_spike, any_switch};
use crate::nest::{Branch, Nest, Parts};
use crate::reads::{cut_all, held_all, unshifted_all};
use crate::sides::choose;
use fin_ast::Stmt;
use fin_ir::{Code, IExpr};
use fin_looplet::plus;
use fin_nest::{Numbered, copy_ends};
use sqlite_items::Items;
use std::alloc::{AllocError, Global};

/// The parts of a nest whose style is run, spike, lookup, switch or shift: they split it, weigh less, and depend on
/// nothing that their code changes where the nest doesn't.
pub fn step(alloc: Global, nest: Nest) -> Result<Parts, AllocError>
    requires weight { 0 < course_weight (course_of nest) }
    requires style { is_point_style (style_of (all_looplets nest)) ≡ true }
    ensures split { IfOk result (λ p. Splits p nest) }
    ensures lighter { IfOk result (λ p. Lighter p nest) }
    ensures separate { IfOk result (λ p. StaySeparate p nest) }
    ensures body { IfOk result (λ p. AreOfNest p nest) }
    ensures made { IfOk result (λ p. p ≡ parts_of nest) }
{
    parts_of(alloc, &nest)
}

fn parts_of(alloc: Global, nest: &Nest) -> Result<Parts, AllocError>
    ensures { IfOk result (λ p. p ≡ parts_of nest.now) }
{
    if has_shift(nest) {
        return shift_parts(alloc, nest);
    }
    if has_switch(nest) {
        return switch_parts(alloc, nest);
    }
    if has_spike(nest) {
        return spike_parts(alloc, nest);
    }
    loop_parts(alloc, nest)
}

fn has_shift(nest: &Nest) -> bool
    ensures { result ≡ nest_has shift nest.now }
{
    any_shift(nest.reads.as_slice()) || any_shift(nest.masks.as_slice())
}

fn has_switch(nest: &Nest) -> bool
    ensures { result ≡ nest_has switch nest.now }
{
    any_switch(nest.reads.as_slice()) || any_switch(nest.masks.as_slice())
}

fn has_spike(nest: &Nest) -> bool
    ensures { result ≡ nest_has spike nest.now }
{
    any_spike(nest.reads.as_slice()) || any_spike(nest.masks.as_slice())
}

fn shift_parts(alloc: Global, nest: &Nest) -> Result<Parts, AllocError>
    ensures { IfOk result (λ p. p ≡ one_part Skip (shift_part nest.now)) }
{
    let part = shift_part(alloc, nest)?;
    one_part(alloc, Code::Skip, part)
}

fn shift_part(alloc: Global, nest: &Nest) -> Result<Nest, AllocError>
    ensures { IfOk result (λ q. q ≡ shift_part nest.now) }
{
    let reads = unshifted_all(alloc, nest.reads.as_slice())?;
    let masks = unshifted_all(alloc, nest.masks.as_slice())?;
    copy_around(alloc, nest, nest.next, reads, masks)
}

fn switch_parts(alloc: Global, nest: &Nest) -> Result<Parts, AllocError>
    ensures { IfOk result (λ p. p ≡ switch_parts nest.now) }
{
    let frame = switch_frame(alloc, nest)?;
    let nests = switch_nests(alloc, nest)?;
    Ok(Parts { frame, nests })
}

fn switch_nests(alloc: Global, nest: &Nest) -> Result<Items<Nest>, AllocError>
    ensures { IfOk result (λ ns. ns ≡ switch_part Taken nest.now ∷ switch_part Others nest.now ∷ []) }
{
    let mut nests = Items::new(alloc);
    push_side(alloc, nest, Branch::Taken, &mut nests)?;
    push_side(alloc, nest, Branch::Others, &mut nests)?;
    Ok(nests)
}

fn push_side(
    alloc: Global,
    nest: &Nest,
    branch: Branch,
    nests: &mut Items<Nest>,
) -> Result<(), AllocError>
    ensures { IfOk result (λ u. nests.new ≡ nests.old ++ switch_part branch nest.now ∷ []) }
{
    let part = switch_part(alloc, nest, branch)?;
    nests.push(part)
}

fn switch_part(alloc: Global, nest: &Nest, branch: Branch) -> Result<Nest, AllocError>
    ensures { IfOk result (λ q. q ≡ switch_part branch nest.now) }
{
    if nest.next == u32::MAX {
        return Err(AllocError);
    }
    let reads = choose(alloc, nest.reads.as_slice(), branch, true)?;
    let first = !any_switch(nest.reads.as_slice());
    let masks = choose(alloc, nest.masks.as_slice(), branch, first)?;
    copy_around(alloc, nest, nest.next + 1, reads, masks)
}

/// A copy of the nest with other looplets and another free local.
fn copy_around(
    alloc: Global,
    nest: &Nest,
    next: u32,
    reads: Items<Numbered>,
    masks: Items<Numbered>,
) -> Result<Nest, AllocError>
    ensures { IfOk result (λ q. q ≡ record (with_looplets nest.now reads masks) { next = next }) }
{
    let (body, lo, hi) = copy_loop(alloc, nest)?;
    Ok(Nest {
        body,
        var: nest.var,
        lo,
        hi,
        next,
        reads,
        masks,
    })
}

fn copy_loop(alloc: Global, nest: &Nest) -> Result<(Stmt, IExpr, IExpr), AllocError>
    ensures { IfOk result (λ p. (p.0 ≡ nest.now.body) × ((p.1 ≡ nest.now.lo) × (p.2 ≡ nest.now.hi))) }
{
    let body = nest.body.copy(alloc)?;
    let (lo, hi) = copy_ends(alloc, &nest.lo, &nest.hi)?;
    Ok((body, lo, hi))
}

fn spike_parts(alloc: Global, nest: &Nest) -> Result<Parts, AllocError>
    ensures { IfOk result (λ p. p ≡ one_part Skip (spike_part nest.now)) }
{
    let part = spike_part(alloc, nest)?;
    one_part(alloc, Code::Skip, part)
}

fn spike_part(alloc: Global, nest: &Nest) -> Result<Nest, AllocError>
    ensures { IfOk result (λ q. q ≡ spike_part nest.now) }
{
    let reads = cut_all(alloc, &nest.hi, nest.reads.as_slice())?;
    let masks = cut_all(alloc, &nest.hi, nest.masks.as_slice())?;
    copy_around(alloc, nest, nest.next, reads, masks)
}

fn loop_parts(alloc: Global, nest: &Nest) -> Result<Parts, AllocError>
    ensures { IfOk result (λ p. p ≡ one_part (loop_frame nest.now) (point_part nest.now)) }
{
    let frame = loop_frame(alloc, nest)?;
    let part = point_part(alloc, nest)?;
    one_part(alloc, frame, part)
}

fn point_part(alloc: Global, nest: &Nest) -> Result<Nest, AllocError>
    ensures { IfOk result (λ q. q ≡ point_part nest.now) }
{
    if nest.next == u32::MAX {
        return Err(AllocError);
    }
    let reads = held_all(alloc, nest.reads.as_slice())?;
    let masks = held_all(alloc, nest.masks.as_slice())?;
    let (body, hi) = copy_turn(alloc, nest)?;
    Ok(Nest {
        body,
        var: nest.var,
        lo: IExpr::Local(nest.next),
        hi,
        next: nest.next + 1,
        reads,
        masks,
    })
}

/// A copy of the body, and the end of the region of one coordinate.
fn copy_turn(alloc: Global, nest: &Nest) -> Result<(Stmt, IExpr), AllocError>
    ensures { IfOk result (λ p. (p.0 ≡ nest.now.body) × (p.1 ≡ plus (Local nest.now.next) (Num (pos 1)))) }
{
    let body = nest.body.copy(alloc)?;
    let hi = plus(alloc, IExpr::Local(nest.next), IExpr::Num(1))?;
    Ok((body, hi))
}

fn one_part(alloc: Global, frame: Code, part: Nest) -> Result<Parts, AllocError>
    ensures { IfOk result (λ p. p ≡ one_part frame part) }
{
    let mut nests = Items::new(alloc);
    nests.push(part)?;
    Ok(Parts { frame, nests })
}
