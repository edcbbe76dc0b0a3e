//! What is known of an expression's value by how it is written.
ghost use Rattle.std.specs.Prelude.{◌≡◌, IfOk};
ghost use Rattle.std.specs.Int.{int_min, int_max};
ghost use Rattle.fin_base.specs.Words.{operate as operated};
ghost use Rattle.fin_style_step.specs.Limited as spec;

use fin_base::{Op, operate};
use fin_ir::IExpr;
use fin_nest::two;
use std::alloc::{AllocError, Global};

/// The greatest beginning that a region may have.
const LAST: i64 = 1 << 40;

/// What a value is never below, and never above.
#[derive(Clone, Copy, Debug, PartialEq, Eq)]
pub struct Limits {
    pub least: Option<i64>,
    pub most: Option<i64>,
}

/// Whether a region has no coordinate, by what is known of its ends.
pub fn is_void(lo: &IExpr, hi: &IExpr) -> bool
    ensures { result ≡ spec.is_void lo.now hi.now }
{
    let Some(most) = limits_of(hi).most else {
        return false;
    };
    match limits_of(lo).least {
        None => false,
        Some(least) => most <= least,
    }
}

/// The limits of an expression: of closed ones their number, of others what least and greatest numbers in it say.
pub(crate) fn limits_of(e: &IExpr) -> Limits
    ensures { result ≡ spec.limits_of e.now }
{
    match e {
        IExpr::Num(n) => exactly(Some(*n)),
        IExpr::Two { op, left, right } => {
            limits_two(*op, limits_of(left.get()), limits_of(right.get()))
        }
        _ => unlimited(),
    }
}

fn exactly(n: Option<i64>) -> Limits
    ensures { result ≡ spec.exactly n }
{
    Limits { least: n, most: n }
}

fn unlimited() -> Limits
    ensures { result ≡ spec.unlimited }
{
    Limits {
        least: None,
        most: None,
    }
}

fn limits_two(op: Op, a: Limits, b: Limits) -> Limits
    ensures { result ≡ spec.limits_two op a b }
{
    match op {
        Op::Min => Limits {
            least: both_least(a.least, b.least),
            most: any_least(a.most, b.most),
        },
        Op::Max => Limits {
            least: any_greatest(a.least, b.least),
            most: both_greatest(a.most, b.most),
        },
        _ => exactly(number_two(op, only(a), only(b))),
    }
}

fn both_least(a: Option<i64>, b: Option<i64>) -> Option<i64>
    ensures { result ≡ spec.of_both int_min a b }
{
    match (a, b) {
        (Some(x), Some(y)) => Some(x.min(y)),
        _ => None,
    }
}

fn both_greatest(a: Option<i64>, b: Option<i64>) -> Option<i64>
    ensures { result ≡ spec.of_both int_max a b }
{
    match (a, b) {
        (Some(x), Some(y)) => Some(x.max(y)),
        _ => None,
    }
}

fn any_least(a: Option<i64>, b: Option<i64>) -> Option<i64>
    ensures { result ≡ spec.of_any int_min a b }
{
    match (a, b) {
        (Some(x), Some(y)) => Some(x.min(y)),
        (Some(x), None) => Some(x),
        (None, y) => y,
    }
}

fn any_greatest(a: Option<i64>, b: Option<i64>) -> Option<i64>
    ensures { result ≡ spec.of_any int_max a b }
{
    match (a, b) {
        (Some(x), Some(y)) => Some(x.max(y)),
        (Some(x), None) => Some(x),
        (None, y) => y,
    }
}

fn number_two(op: Op, a: Option<i64>, b: Option<i64>) -> Option<i64>
    ensures { result ≡ spec.of_both (operated op) a b }
{
    match (a, b) {
        (Some(x), Some(y)) => Some(operate(op, x, y)),
        _ => None,
    }
}

fn only(limits: Limits) -> Option<i64>
    ensures { result ≡ spec.only limits }
{
    match (limits.least, limits.most) {
        (Some(a), Some(b)) => { if a == b { Some(a) } else { None } }
        _ => None,
    }
}

/// The end of the part before a stop, where it meets the other one in the local.
pub(crate) fn end_before(
    alloc: Global,
    hi: &IExpr,
    stop: &IExpr,
    local: u32,
) -> Result<IExpr, AllocError>
    ensures { IfOk result (λ e. e ≡ spec.end_before hi.now stop.now local) }
{
    match any_least(limits_of(hi).most, limits_of(stop).most) {
        None => Ok(IExpr::Local(local)),
        Some(most) => two(alloc, Op::Min, IExpr::Local(local), IExpr::Num(most.max(0))),
    }
}

/// The beginning of the part behind a stop.
pub(crate) fn begin_behind(
    alloc: Global,
    lo: &IExpr,
    stop: &IExpr,
    local: u32,
) -> Result<IExpr, AllocError>
    ensures { IfOk result (λ e. e ≡ spec.begin_behind lo.now stop.now local) }
{
    match any_greatest(limits_of(lo).least, limits_of(stop).least) {
        None => Ok(IExpr::Local(local)),
        Some(least) => two(
            alloc,
            Op::Max,
            IExpr::Local(local),
            IExpr::Num(least.min(LAST)),
        ),
    }
}
