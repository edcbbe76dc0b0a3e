//! The code round the codes of bodies: tests that are asked, and lets.
ghost use Rattle.std.specs.Prelude.{◌≡◌, IfOk};
ghost use Rattle.fin_read.specs.Values as values;
ghost use Rattle.fin_perform.specs.Codes as spec;

use crate::single::{Placed, next_local, push_charge};
use fin_ast::Expr;
use fin_ir::{Code, IExpr};
use fin_read::{Heads, Value, push, push_value};
use sqlite_items::{Boxed, Items};
use std::alloc::{AllocError, Global};

/// The code of a test that is asked, with the steps of its value from a first free local on, round its body's codes.
pub fn cond_code(
    alloc: Global,
    heads: &Heads<'_>,
    test: &Expr,
    next: u32,
    body: Items<Code>,
) -> Result<Placed, AllocError>
    ensures code { IfOk result (λ p. p.code ≡ spec.cond_code (values.value_code heads.now test.now next) body) }
    ensures need { IfOk result (λ p. p.need ≡ spec.end_of (values.value_code heads.now test.now next)) }
{
    let mut tested = Items::new(alloc);
    push_charge(&mut tested)?;
    let Value {
        expr,
        depth: _,
        next: after,
    } = push_value(alloc, &mut tested, heads, test, next)?;
    let need = next_local(after)?;
    let body = Boxed::new(alloc, Code::Seq(body))?;
    tested.push(Code::When { test: expr, body })?;
    Ok(Placed {
        code: Code::Seq(tested),
        need,
    })
}

/// A let of a variable.
#[derive(Drop)]
pub struct Let<'a> {
    pub var: u32,
    pub value: &'a Expr,
}

/// The code of a let that is evaluated, with the steps of its value from a first free local on, before its body's codes.
pub fn let_code(
    alloc: Global,
    heads: &Heads<'_>,
    one: &Let<'_>,
    next: u32,
    body: Items<Code>,
) -> Result<Placed, AllocError>
    ensures code { let value = values.value_code heads.now one.now.value.now next in
        IfOk result (λ p. p.code ≡ spec.let_code one.now.var value body) }
    ensures need { IfOk result (λ p. p.need ≡ spec.end_of (values.value_code heads.now one.now.value.now next)) }
{
    let mut bound = Items::new(alloc);
    push_charge(&mut bound)?;
    let Value {
        expr,
        depth: _,
        next: after,
    } = push_value(alloc, &mut bound, heads, one.value, next)?;
    let need = next_local(after)?;
    push(&mut bound, one.var, expr)?;
    bound.append(body)?;
    Ok(Placed {
        code: Code::Seq(bound),
        need,
    })
}

/// The code of a let of a literal, before its body's codes.
pub fn literal_code(
    alloc: Global,
    var: u32,
    number: i64,
    body: Items<Code>,
) -> Result<Code, AllocError>
    ensures { IfOk result (λ c. c ≡ spec.literal_code var number body) }
{
    let mut bound = Items::new(alloc);
    push(&mut bound, var, IExpr::Num(number))?;
    bound.append(body)?;
    Ok(Code::Seq(bound))
}
