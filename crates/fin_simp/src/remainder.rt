//! What is left of an expression.
ghost use Rattle.std.specs.Prelude.{◌≡◌, ◌+◌, IfOk};
ghost use Rattle.fin_ast.specs.Spine.{expr_of};
ghost use Rattle.fin_ast.specs.declared.tree.Expr.TheVariants.{Read, Two};
ghost use Rattle.fin_simp.specs.declared.remainder.Left.TheVariants.{Open};
ghost use Rattle.fin_simp.specs.Facts.{marks};
ghost use Rattle.fin_simp.specs.Left as spec;
ghost use Rattle.fin_simp.specs.Numbered.{past_expr};

use crate::facts::{Facts, gap_of, next_number, var_of};
use fin_ast::{Expr, Head, Index};
use fin_base::{Op, negate, operate};
use fin_tensor::Seq;
use sqlite_items::Boxed;
use std::alloc::{AllocError, Global};

/// A literal, or an expression that is none.
#[derive(Debug, Drop)]
pub enum Left {
    Literal(i64),
    Open(Expr),
}

/// What is left of an expression, and the number of the next read.
#[derive(Debug, Drop)]
pub struct Remainder {
    pub left: Left,
    pub next: u32,
}

impl Left {
    pub fn into_expr(self) -> Expr
        ensures { result ≡ spec.as_expr self }
    {
        match self {
            Left::Literal(n) => Expr::Num(n),
            Left::Open(e) => e,
        }
    }

    pub fn literal(&self) -> Option<i64>
        ensures { result ≡ spec.literal_in self.now }
    {
        match self {
            Left::Literal(n) => Some(*n),
            Left::Open(_) => None,
        }
    }
}

/// What is left of an expression, whose first read has this number. A sum may have millions of terms, and groups to the
/// left: a loop and no recursion there.
#[cycle(simplified)]
pub fn simplify_expr(
    alloc: Global,
    e: &Expr,
    facts: &Facts<'_>,
    next: u32,
) -> Result<Remainder, AllocError>
    ensures left { IfOk result (λ r. r.left ≡ spec.left_of e.now next (marks facts.now)) }
    ensures next { IfOk result (λ r. r.next ≡ past_expr e.now next) }
{
    let spine = e.spine(alloc)?;
    let first = simplify_head(alloc, spine.head, facts, next)?;
    let mut left = first.left;
    let mut at = first.next;
    let mut sides = spine.sides;
    while let Some((op, right)) = sides.pop() {
        let right = simplify_expr(alloc, right, facts, at)?;
        left = joined(alloc, op, left, right.left)?;
        at = right.next;
    }
    Ok(remaining(left, at))
}

#[cycle(simplified)]
fn simplify_head(
    alloc: Global,
    head: Head<'_>,
    facts: &Facts<'_>,
    next: u32,
) -> Result<Remainder, AllocError>
    ensures left { IfOk result (λ r. r.left ≡ spec.left_of (expr_of head.entry) next (marks facts.now)) }
    ensures next { IfOk result (λ r. r.next ≡ past_expr (expr_of head.entry) next) }
{
    match head {
        Head::Num(n) => Ok(remaining(Left::Literal(n), next)),
        Head::Var { var, line } => {
            let left = known_or(var_of(facts.bound, var), Expr::Var { var, line });
            Ok(remaining(left, next))
        }
        Head::Read { tensor, at, line } => {
            let read = read_of(alloc, tensor, at, line)?;
            let behind = next_number(next)?;
            Ok(remaining(known_or(gap_of(facts.gaps, next), read), behind))
        }
        Head::Neg(inner) => {
            let inner = simplify_expr(alloc, inner, facts, next)?;
            let left = turned(alloc, inner.left)?;
            Ok(remaining(left, inner.next))
        }
    }
}

fn remaining(left: Left, next: u32) -> Remainder
    ensures left { result.left ≡ left }
    ensures next { result.next ≡ next }
{
    Remainder { left, next }
}

fn read_of(alloc: Global, tensor: u8, at: &Seq<Index>, line: u32) -> Result<Expr, AllocError>
    ensures { IfOk result (λ e. e ≡ Read tensor at.now line) }
{
    let at = at.copy(alloc)?;
    Ok(Expr::Read { tensor, at, line })
}

fn known_or(known: Option<i64>, e: Expr) -> Left
    ensures { result ≡ spec.known_or known e }
{
    match known {
        None => Left::Open(e),
        Some(n) => Left::Literal(n),
    }
}

fn turned(alloc: Global, left: Left) -> Result<Left, AllocError>
    ensures { IfOk result (λ l. l ≡ spec.turned left) }
{
    match left {
        Left::Literal(n) => Ok(Left::Literal(negate(n))),
        Left::Open(e) => {
            let inner = Boxed::new(alloc, e)?;
            Ok(Left::Open(Expr::Neg(inner)))
        }
    }
}

fn joined(alloc: Global, op: Op, left: Left, right: Left) -> Result<Left, AllocError>
    ensures { IfOk result (λ l. l ≡ spec.joined op left right) }
{
    match left {
        Left::Literal(n) => match right {
            Left::Literal(m) => Ok(Left::Literal(operate(op, n, m))),
            Left::Open(e) => after_literal(alloc, op, n, e),
        },
        Left::Open(e) => match right {
            Left::Literal(n) => before_literal(alloc, op, e, n),
            Left::Open(other) => both(alloc, op, e, other),
        },
    }
}

fn after_literal(alloc: Global, op: Op, n: i64, e: Expr) -> Result<Left, AllocError>
    ensures { IfOk result (λ l. l ≡ spec.after_literal op n e) }
{
    if is_neutral_before(op, n) {
        Ok(Left::Open(e))
    } else if absorbs(op, n) {
        Ok(Left::Literal(n))
    } else {
        both(alloc, op, Expr::Num(n), e)
    }
}

fn before_literal(alloc: Global, op: Op, e: Expr, n: i64) -> Result<Left, AllocError>
    ensures { IfOk result (λ l. l ≡ spec.before_literal op e n) }
{
    if is_neutral(op, n) {
        Ok(Left::Open(e))
    } else if absorbs(op, n) {
        Ok(Left::Literal(n))
    } else {
        both(alloc, op, e, Expr::Num(n))
    }
}

fn both(alloc: Global, op: Op, left: Expr, right: Expr) -> Result<Left, AllocError>
    ensures { IfOk result (λ l. l ≡ Open (Two op left right)) }
{
    let left = Boxed::new(alloc, left)?;
    let right = Boxed::new(alloc, right)?;
    Ok(Left::Open(Expr::Two { op, left, right }))
}

/// Whether `e op n` is `e`.
fn is_neutral(op: Op, n: i64) -> bool
    ensures { result ≡ spec.is_neutral op n }
{
    match op {
        Op::Add | Op::Sub | Op::Or | Op::Xor => n == 0,
        Op::Mul => n == 1,
        Op::Min => n == i64::MAX,
        Op::Max => n == i64::MIN,
        Op::And => n == -1,
        _ => false,
    }
}

/// Whether `n op e` is `e`.
fn is_neutral_before(op: Op, n: i64) -> bool
    ensures { result ≡ spec.is_neutral_before op n }
{
    match op {
        Op::Sub => false,
        _ => is_neutral(op, n),
    }
}

/// Whether `e op n` and `n op e` are `n`.
pub fn absorbs(op: Op, n: i64) -> bool
    ensures { result ≡ spec.absorbs op n }
{
    match op {
        Op::Mul => n == 0,
        Op::Min => n == i64::MIN,
        Op::Max => n == i64::MAX,
        Op::And => n == 0,
        Op::Or => n == -1,
        _ => false,
    }
}
