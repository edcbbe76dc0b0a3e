//! The looplet of a comparison.
ghost use Rattle.std.specs.Prelude.{◌≡◌, IsTrue, IfOk};
ghost use Rattle.fin_unfurl.specs.Masks as spec;
ghost use Rattle.fin_unfurl.specs.Masks.{is_comparison, Compares, BreaksAtBound, IsSoundMask, NeverStops, OwnsNone, DependsOnBound};

use crate::parts::{next, two};
use fin_base::Op;
use fin_ir::IExpr;
use fin_looplet::{Leaf, Looplet, Phase};
use sqlite_items::Items;
use std::alloc::{AllocError, Global};

/// No coordinate of a loop is this one or over it.
const END: i64 = 1_099_511_627_776;

/// The looplet of the comparison of the coordinate with a bound, whatever word that is: 1 where it holds and 0
/// elsewhere, from 0 to 2^40 - 1.
pub fn mask(alloc: Global, op: Op, bound: IExpr) -> Result<Looplet, AllocError>
    requires { IsTrue (is_comparison op) }
    ensures holds { IfOk result (Compares op bound) }
    ensures breaks { IfOk result (BreaksAtBound bound) }
    ensures sound { IfOk result IsSoundMask }
    ensures stops { IfOk result NeverStops }
    ensures owns { IfOk result OwnsNone }
    ensures depends { IfOk result (DependsOnBound bound) }
    ensures made { IfOk result (λ l. l ≡ spec.mask_of op bound) }
{
    three_runs(alloc, op, &bound)
}

fn three_runs(alloc: Global, op: Op, bound: &IExpr) -> Result<Looplet, AllocError>
    ensures { IfOk result (λ l. l ≡ spec.mask_of op bound.now) }
{
    let first = bounded(alloc, bound)?;
    let second = bounded(alloc, bound)?;
    let second = next(alloc, second)?;
    let mut phases = Items::new(alloc);
    phases.push(known(holds_before(op), first))?;
    phases.push(known(holds_at(op), second))?;
    phases.push(known(holds_behind(op), IExpr::Num(END)))?;
    Ok(Looplet::Sequence(phases))
}

// A bound that no coordinate meets is brought to -1 or 2^40, so that one more is a word.
fn bounded(alloc: Global, bound: &IExpr) -> Result<IExpr, AllocError>
    ensures { IfOk result (λ e. e ≡ spec.bounded bound.now) }
{
    let bound = bound.copy(alloc)?;
    let least = two(alloc, Op::Min, bound, IExpr::Num(END))?;
    two(alloc, Op::Max, least, IExpr::Num(-1))
}

fn known(holds: bool, stop: IExpr) -> Phase
    ensures { result ≡ spec.known holds stop }
{
    let value = if holds { 1 } else { 0 };
    Phase {
        stop,
        child: Looplet::Run(Leaf::Value(IExpr::Num(value))),
    }
}

fn holds_before(op: Op) -> bool
    ensures { result ≡ spec.holds_before op }
{
    match op {
        Op::Lt | Op::Le | Op::Ne => true,
        _ => false,
    }
}

fn holds_at(op: Op) -> bool
    ensures { result ≡ spec.holds_at op }
{
    match op {
        Op::Le | Op::Ge | Op::Eq => true,
        _ => false,
    }
}

fn holds_behind(op: Op) -> bool
    ensures { result ≡ spec.holds_behind op }
{
    match op {
        Op::Gt | Op::Ge | Op::Ne => true,
        _ => false,
    }
}
