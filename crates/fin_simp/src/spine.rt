//! The literal that is left of an expression.
ghost use Rattle.std.specs.Prelude.{◌≡◌, ◌+◌, IfOk};
ghost use Rattle.fin_ast.specs.Spine.{expr_of};
ghost use Rattle.fin_simp.specs.Numbered.{past_expr};
ghost use Rattle.fin_simp.specs.Remaining as spec;
ghost use Rattle.fin_simp.specs.Facts.{marks};

use crate::facts::{Facts, gap_of, next_number, var_of};
use crate::remainder::absorbs;
use fin_ast::{Expr, Head};
use fin_base::{Op, negate, operate};
use std::alloc::{AllocError, Global};

/// A literal, if one is left, and the number of the next read.
#[derive(Clone, Copy, Debug)]
pub struct Found {
    pub literal: Option<i64>,
    pub next: u32,
}

fn absorbed(op: Op, n: i64) -> Option<i64>
    ensures { result ≡ spec.absorbed op n }
{
    if absorbs(op, n) { Some(n) } else { None }
}

pub fn joined(op: Op, a: Option<i64>, b: Option<i64>) -> Option<i64>
    ensures { result ≡ spec.joined_literal op a b }
{
    match (a, b) {
        (Some(n), Some(m)) => Some(operate(op, n, m)),
        (Some(n), None) => absorbed(op, n),
        (None, Some(m)) => absorbed(op, m),
        (None, None) => None,
    }
}

pub fn turned(a: Option<i64>) -> Option<i64>
    ensures { result ≡ spec.turned_literal a }
{
    match a {
        None => None,
        Some(n) => Some(negate(n)),
    }
}

fn finding(literal: Option<i64>, next: u32) -> Found
    ensures literal { result.literal ≡ literal }
    ensures next { result.next ≡ next }
{
    Found { literal, next }
}

fn at_read(facts: &Facts<'_>, next: u32) -> Result<Found, AllocError>
    ensures literal { IfOk result (λ f. f.literal ≡ (marks facts.now).reads next) }
    ensures next { IfOk result (λ f. f.next ≡ next + 1) }
{
    let behind = next_number(next)?;
    Ok(finding(gap_of(facts.gaps, next), behind))
}

/// The literal that is left of an expression, whose first read has this number. A sum may have millions of terms, and
/// groups to the left: a loop and no recursion there.
#[cycle(literals)]
pub fn literal(alloc: Global, e: &Expr, facts: &Facts<'_>, next: u32) -> Result<Found, AllocError>
    ensures literal { IfOk result (λ f. f.literal ≡ spec.literal_of e.now next (marks facts.now)) }
    ensures next { IfOk result (λ f. f.next ≡ past_expr e.now next) }
{
    let spine = e.spine(alloc)?;
    let mut value = head_literal(alloc, spine.head, facts, next)?;
    let mut sides = spine.sides;
    while let Some((op, right)) = sides.pop() {
        let right = literal(alloc, right, facts, value.next)?;
        value = finding(joined(op, value.literal, right.literal), right.next);
    }
    Ok(value)
}

#[cycle(literals)]
fn head_literal(
    alloc: Global,
    head: Head<'_>,
    facts: &Facts<'_>,
    next: u32,
) -> Result<Found, AllocError>
    ensures literal { IfOk result (λ f. f.literal ≡ spec.literal_of (expr_of head.entry) next (marks facts.now)) }
    ensures next { IfOk result (λ f. f.next ≡ past_expr (expr_of head.entry) next) }
{
    match head {
        Head::Num(n) => Ok(finding(Some(n), next)),
        Head::Var { var, line: _ } => Ok(finding(var_of(facts.bound, var), next)),
        Head::Read {
            tensor: _,
            at: _,
            line: _,
        } => at_read(facts, next),
        Head::Neg(inner) => {
            let inner = literal(alloc, inner, facts, next)?;
            Ok(finding(turned(inner.literal), inner.next))
        }
    }
}
