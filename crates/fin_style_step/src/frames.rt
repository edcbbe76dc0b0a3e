//! The frames: the code around the parts, each of which is a `Skip` there.
ghost use Rattle.std.specs.Prelude.{◌≡◌, ◌++◌, ◌∷◌, [], IfOk, pos};
ghost use Rattle.fin_ir.specs.declared.code.Code.TheVariants.{Skip, Seq, StepLoop};
ghost use Rattle.fin_ir.specs.declared.expression.IExpr.TheVariants.{Num, Local};
ghost use Rattle.fin_style_step.specs.Steps.{place, divide_at, least, greatest, jump};
ghost use Rattle.fin_style_step.specs.Parts.{nest_stop, sequence_frame, nest_walkers, stepper_frame, jumper_frame};

use crate::codes::{divide_at, divided_frame, greatest, least, push_places};
use crate::dividing::first_stop;
use crate::heads::any_sequence;
use crate::nest::{Kind, Nest};
use crate::walking::push_walkers;
use fin_ir::{Code, IExpr};
use fin_looplet::{Walker, before};
use fin_nest::copy_ends;
use sqlite_items::{Boxed, Items};
use std::alloc::{AllocError, Global};

/// The region is cut where the first sequence's first phase stops.
pub(crate) fn sequence_frame(alloc: Global, nest: &Nest) -> Result<Code, AllocError>
    ensures { IfOk result (λ c. c ≡ sequence_frame nest.now) }
{
    let at = nest_divide_at(alloc, nest)?;
    divided_frame(alloc, nest.next, at)
}

fn nest_divide_at(alloc: Global, nest: &Nest) -> Result<IExpr, AllocError>
    ensures { IfOk result (λ e. e ≡ divide_at nest.now.lo nest.now.hi (nest_stop nest.now)) }
{
    let stop = nest_stop(alloc, nest)?;
    let (lo, hi) = copy_ends(alloc, &nest.lo, &nest.hi)?;
    divide_at(alloc, lo, hi, stop)
}

/// Where the first sequence's first phase stops.
pub(crate) fn nest_stop(alloc: Global, nest: &Nest) -> Result<IExpr, AllocError>
    ensures { IfOk result (λ e. e ≡ nest_stop nest.now) }
{
    if any_sequence(nest.reads.as_slice()) {
        return first_stop(alloc, nest.reads.as_slice());
    }
    first_stop(alloc, nest.masks.as_slice())
}

/// From stop to stop, up to the least of the current ones, with the steppers' cursors moved behind each turn.
pub(crate) fn stepper_frame(alloc: Global, nest: &Nest) -> Result<Code, AllocError>
    ensures { IfOk result (λ c. c ≡ stepper_frame nest.now) }
{
    if nest.next == u32::MAX {
        return Err(AllocError);
    }
    let walkers = nest_walkers(alloc, nest, Kind::Stepper)?;
    let turns = stepper_turns(alloc, nest, walkers.as_slice(), nest.next + 1)?;
    placed(alloc, &nest.lo, walkers.as_slice(), turns)
}

fn nest_walkers(alloc: Global, nest: &Nest, kind: Kind) -> Result<Items<Walker>, AllocError>
    ensures { IfOk result (λ ws. ws ≡ nest_walkers kind nest.now) }
{
    let mut all = Items::new(alloc);
    push_walkers(alloc, nest.reads.as_slice(), kind, &mut all)?;
    push_walkers(alloc, nest.masks.as_slice(), kind, &mut all)?;
    Ok(all)
}

/// The code with the walkers placed before it.
fn placed(alloc: Global, at: &IExpr, walkers: &[Walker], code: Code) -> Result<Code, AllocError>
    ensures { IfOk result (λ c. c ≡ Seq (place walkers.now at.now ++ code ∷ [])) }
{
    let mut codes = Items::new(alloc);
    push_places(alloc, walkers, at, &mut codes)?;
    codes.push(code)?;
    Ok(Code::Seq(codes))
}

fn stepper_turns(
    alloc: Global,
    nest: &Nest,
    walkers: &[Walker],
    until: u32,
) -> Result<Code, AllocError>
    ensures { IfOk result (λ c. c ≡ StepLoop nest.now.next until nest.now.lo nest.now.hi
        (least walkers.now nest.now.hi) (Seq (Skip ∷ place walkers.now (Local until)))) }
{
    let body = stepper_turn(alloc, walkers, until)?;
    let hi = nest.hi.copy(alloc)?;
    let stop = least(alloc, walkers, hi)?;
    turns(alloc, nest, until, stop, body)
}

fn stepper_turn(alloc: Global, walkers: &[Walker], until: u32) -> Result<Boxed<Code>, AllocError>
    ensures { IfOk result (λ c. c ≡ Seq (Skip ∷ place walkers.now (Local until))) }
{
    let mut codes = Items::new(alloc);
    codes.push(Code::Skip)?;
    push_places(alloc, walkers, &IExpr::Local(until), &mut codes)?;
    Boxed::new(alloc, Code::Seq(codes))
}

fn turns(
    alloc: Global,
    nest: &Nest,
    until: u32,
    stop: IExpr,
    body: Boxed<Code>,
) -> Result<Code, AllocError>
    ensures { IfOk result (λ c. c ≡ StepLoop nest.now.next until nest.now.lo nest.now.hi stop body) }
{
    let (lo, hi) = copy_ends(alloc, &nest.lo, &nest.hi)?;
    Ok(Code::StepLoop {
        var: nest.next,
        until,
        lo,
        hi,
        stop,
        body,
    })
}

/// Up to the greatest of the current stops, to the last coordinate before it, with the jumpers' cursors those of that
/// coordinate, and moved behind each turn.
pub(crate) fn jumper_frame(alloc: Global, nest: &Nest) -> Result<Code, AllocError>
    ensures { IfOk result (λ c. c ≡ jumper_frame nest.now) }
{
    if nest.next > u32::MAX - 2 {
        return Err(AllocError);
    }
    let walkers = nest_walkers(alloc, nest, Kind::Jumper)?;
    let turns = jumper_turns(
        alloc,
        nest,
        walkers.as_slice(),
        nest.next + 1,
        nest.next + 2,
    )?;
    placed(alloc, &nest.lo, walkers.as_slice(), turns)
}

fn jumper_turns(
    alloc: Global,
    nest: &Nest,
    walkers: &[Walker],
    until: u32,
    last: u32,
) -> Result<Code, AllocError>
    ensures { IfOk result (λ c. c ≡ StepLoop nest.now.next until nest.now.lo nest.now.hi
        (greatest walkers.now (Num (pos 0))) (Seq (jump walkers.now until last Skip))) }
{
    let body = jumper_turn(alloc, walkers, until, last)?;
    let stop = greatest(alloc, walkers, IExpr::Num(0))?;
    turns(alloc, nest, until, stop, body)
}

fn jumper_turn(
    alloc: Global,
    walkers: &[Walker],
    until: u32,
    last: u32,
) -> Result<Boxed<Code>, AllocError>
    ensures { IfOk result (λ c. c ≡ Seq (jump walkers.now until last Skip)) }
{
    let mut codes = Items::new(alloc);
    let value = before(alloc, IExpr::Local(until))?;
    codes.push(Code::Assign { local: last, value })?;
    push_places(alloc, walkers, &IExpr::Local(last), &mut codes)?;
    codes.push(Code::Skip)?;
    push_places(alloc, walkers, &IExpr::Local(until), &mut codes)?;
    Boxed::new(alloc, Code::Seq(codes))
}
