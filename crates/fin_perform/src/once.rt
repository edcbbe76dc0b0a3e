//! The codes of a body of which one update is left, where its work is paid elsewhere.
ghost use Rattle.std.specs.Prelude.{◌≡◌, ◌+◌, ◌++◌, ℤ, [], ◌∷◌, IfOk, OnOk, Some};
ghost use Rattle.fin_ir.specs.declared.code.Code.TheVariants as code;
ghost use Rattle.fin_ir.specs.declared.expression.IExpr.TheVariants as number;
ghost use Rattle.fin_read.specs.Values as values;
ghost use Rattle.fin_simp.specs.Numbered.{behind_test};
ghost use Rattle.fin_perform.specs.Appending.{Appends, AreOne, IsOne, here_of, once_at, one_at};
ghost use Rattle.fin_perform.specs.Codes as spec;

use crate::single::{Update, next_local, put_code};
use fin_ast::{Expr, Stmt};
use fin_ir::{Code, IExpr};
use fin_read::{Heads, Value, push, push_value};
use fin_simp::{Facts, is_nothing, literal, next_number, with_bound};
use sqlite_items::Items;
use std::alloc::{AllocError, Global};

/// Where codes of statements are made: what is known there, the numbers of the next read and test, and the first free
/// local.
#[derive(Clone, Copy)]
pub struct Site<'a> {
    pub facts: Facts<'a>,
    pub read: u32,
    pub test: u32,
    pub next: u32,
}

/// Appends codes that do the one update that is left of a body and pay nothing, and gives how many locals they need.
#[cycle(once)]
pub fn push_once(
    alloc: Global,
    into: &mut Items<Code>,
    heads: &Heads<'_>,
    body: &[Stmt],
    at: &Site<'_>,
) -> Result<u32, AllocError>
    requires { AreOne body.now at.now }
    ensures { IfOk result (λ need. Appends heads.now at.now.next need into.old into.new (once_at body.now at.now)) }
{
    let mut read = at.read;
    let mut test = at.test;
    for s in body {
        let seen = is_nothing(alloc, s, &at.facts, read, test)?;
        if !seen.nothing {
            let here = Site {
                facts: at.facts,
                read,
                test,
                next: at.next,
            };
            return push_one(alloc, into, heads, s, &here);
        }
        read = seen.read;
        test = seen.test;
    }
    Ok(at.next)
}

// The one statement of which something is left.
#[cycle(once)]
fn push_one(
    alloc: Global,
    into: &mut Items<Code>,
    heads: &Heads<'_>,
    s: &Stmt,
    at: &Site<'_>,
) -> Result<u32, AllocError>
    requires { IsOne s.now at.now }
    ensures { IfOk result (λ need. Appends heads.now at.now.next need into.old into.new (one_at s.now at.now)) }
{
    match s {
        Stmt::Block {
            body,
            line: _,
            last: _,
        } => push_once(alloc, into, heads, body.as_slice(), at),
        Stmt::Cond {
            test,
            body,
            line: _,
            last: _,
        } => {
            let inner = behind(alloc, test, at)?;
            push_once(alloc, into, heads, body.as_slice(), &inner)
        }
        Stmt::Bind {
            var,
            value,
            body,
            line: _,
            last: _,
        } => {
            let found = literal(alloc, value, &at.facts, at.read)?;
            let bound = with_bound(alloc, at.facts.bound, *var, found.literal)?;
            let inner = Site {
                facts: Facts {
                    gaps: at.facts.gaps,
                    known: at.facts.known,
                    bound: bound.as_slice(),
                },
                read: found.next,
                test: at.test,
                next: at.next,
            };
            push_literal(into, *var, found.literal)?;
            push_once(alloc, into, heads, body.as_slice(), &inner)
        }
        Stmt::Update {
            tensor,
            at: indices,
            by,
            value,
            line: _,
        } => {
            let update = Update {
                tensor: *tensor,
                at: indices.as_slice(),
                by: *by,
                value,
            };
            push_unpaid(alloc, into, heads, &update, at.next)
        }
        // of no other is one update left
        _ => Ok(at.next),
    }
}

// Behind the test of an `if`.
fn behind<'a>(alloc: Global, test: &Expr, at: &Site<'a>) -> Result<Site<'a>, AllocError>
    ensures facts { IfOk result (λ b. b.facts ≡ at.now.facts) }
    ensures here { IfOk result (λ b. here_of b ≡ behind_test test.now (here_of at.now)) }
    ensures next { IfOk result (λ b. b.next ≡ at.now.next) }
{
    let found = literal(alloc, test, &at.facts, at.read)?;
    let number = next_number(at.test)?;
    Ok(Site {
        facts: at.facts,
        read: found.next,
        test: number,
        next: at.next,
    })
}

// A literal goes into its variable's local.
fn push_literal(into: &mut Items<Code>, var: u32, literal: Option<i64>) -> Result<(), AllocError>
    ensures { (n : ℤ) → literal ≡ Some n → OnOk result (into.new ≡ into.old ++ code.Assign var (number.Num n) ∷ []) }
{
    match literal {
        Some(n) => push(into, var, IExpr::Num(n)),
        None => Ok(()),
    }
}

/// Appends the codes of an update without its work, with the steps of its value from a first free local on, and gives
/// how many locals they need.
pub fn push_unpaid(
    alloc: Global,
    into: &mut Items<Code>,
    heads: &Heads<'_>,
    update: &Update<'_>,
    next: u32,
) -> Result<u32, AllocError>
    ensures code { let value = values.value_code heads.now update.now.value.now next in
        let codes = spec.unpaid_update heads.now update.now.tensor update.now.at.now update.now.by value in
        OnOk result (into.new ≡ into.old ++ codes) }
    ensures need { IfOk result (λ need. need ≡ spec.end_of (values.value_code heads.now update.now.value.now next)) }
{
    let Value {
        expr,
        depth: _,
        next: after,
    } = push_value(alloc, into, heads, update.value, next)?;
    let need = next_local(after)?;
    let put = put_code(alloc, heads, update, expr)?;
    into.push(put)?;
    Ok(need)
}
