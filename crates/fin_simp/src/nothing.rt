//! Whether nothing is left of a statement.
ghost use Rattle.std.specs.Prelude.{◌≡◌, ◌+◌, ◌||◌, ◌&&◌, ◌∷◌, IfOk, map};
ghost use Rattle.fin_simp.specs.Left as left;
ghost use Rattle.fin_simp.specs.Numbered.{past_stmt, past_all, here_at};
ghost use Rattle.fin_simp.specs.Remaining as spec;
ghost use Rattle.fin_simp.specs.Facts.{marks};

use crate::facts::{Facts, next_number, test_of, with_bound};
use crate::spine::literal;
use fin_ast::{Expr, Stmt};
use fin_base::{Reduce, identity};
use std::alloc::{AllocError, Global};

/// Whether it is nothing, and the numbers of the next read and test.
#[derive(Clone, Copy, Debug)]
pub struct Seen {
    pub nothing: bool,
    pub read: u32,
    pub test: u32,
}

fn seeing(nothing: bool, read: u32, test: u32) -> Seen
    ensures nothing { result.nothing ≡ nothing }
    ensures read { result.read ≡ read }
    ensures test { result.test ≡ test }
{
    Seen {
        nothing,
        read,
        test,
    }
}

pub fn fails(literal: Option<i64>) -> bool
    ensures { result ≡ left.fails literal }
{
    match literal {
        None => false,
        Some(n) => n == 0,
    }
}

pub fn settled(known: Option<i64>, literal: Option<i64>) -> Option<i64>
    ensures { result ≡ spec.settled_literal known literal }
{
    match known {
        None => literal,
        Some(n) => { if fails(literal) { literal } else { Some(n) } }
    }
}

pub fn is_identity(by: Reduce, literal: Option<i64>) -> bool
    ensures { result ≡ spec.is_identity_literal by literal }
{
    match literal {
        None => false,
        Some(n) => match identity(by) {
            None => false,
            Some(e) => e == n,
        },
    }
}

fn either(a: bool, b: bool) -> bool
    ensures { result ≡ (a || b) }
{
    a || b
}

/// Whether nothing is left of a statement, whose first read and test have these numbers.
#[cycle(nothings)]
pub fn is_nothing(
    alloc: Global,
    s: &Stmt,
    facts: &Facts<'_>,
    read: u32,
    test: u32,
) -> Result<Seen, AllocError>
    ensures nothing { IfOk result (λ v. v.nothing ≡ spec.is_nothing s.now (here_at read test) (marks facts.now)) }
    ensures past { IfOk result (λ v. here_at v.read v.test ≡ past_stmt s.now (here_at read test)) }
{
    match s {
        Stmt::Block {
            body,
            line: _,
            last: _,
        } => are_nothing(alloc, body.as_slice(), facts, read, test),
        Stmt::Loop {
            var,
            range: _,
            par: _,
            body,
            line: _,
            last: _,
        } => {
            let bound = with_bound(alloc, facts.bound, *var, None)?;
            let inner = Facts {
                gaps: facts.gaps,
                known: facts.known,
                bound: bound.as_slice(),
            };
            are_nothing(alloc, body.as_slice(), &inner, read, test)
        }
        Stmt::Cond {
            test: condition,
            body,
            line: _,
            last: _,
        } => {
            let value = literal(alloc, condition, facts, read)?;
            let known = settled(test_of(facts.known, test), value.literal);
            let next = next_number(test)?;
            let body = are_nothing(alloc, body.as_slice(), facts, value.next, next)?;
            Ok(seeing(either(fails(known), body.nothing), body.read, body.test))
        }
        Stmt::Bind {
            var,
            value,
            body,
            line: _,
            last: _,
        } => {
            let value = literal(alloc, value, facts, read)?;
            let bound = with_bound(alloc, facts.bound, *var, value.literal)?;
            let inner = Facts {
                gaps: facts.gaps,
                known: facts.known,
                bound: bound.as_slice(),
            };
            are_nothing(alloc, body.as_slice(), &inner, value.next, test)
        }
        Stmt::Declare {
            tensor: _,
            value: _,
            line: _,
        } => Ok(seeing(false, read, test)),
        Stmt::Freeze { tensor: _, line: _ } => Ok(seeing(false, read, test)),
        Stmt::Thaw { tensor: _, line: _ } => Ok(seeing(false, read, test)),
        Stmt::Update {
            tensor: _,
            at: _,
            by,
            value,
            line: _,
        } => {
            let value = literal(alloc, value, facts, read)?;
            Ok(seeing(is_identity(*by, value.literal), value.next, test))
        }
    }
}

/// Whether nothing is left of a body.
#[cycle(nothings)]
pub fn are_nothing(
    alloc: Global,
    body: &[Stmt],
    facts: &Facts<'_>,
    read: u32,
    test: u32,
) -> Result<Seen, AllocError>
    ensures nothing { IfOk result (λ v. v.nothing ≡ spec.are_nothing body.now (here_at read test) (marks facts.now)) }
    ensures past { IfOk result (λ v. here_at v.read v.test ≡ past_all (map past_stmt body.now) (here_at read test)) }
{
    let mut all = seeing(true, read, test);
    for s in body {
        let one = is_nothing(alloc, s, facts, all.read, all.test)?;
        all = seeing(all.nothing && one.nothing, one.read, one.test);
    }
    Ok(all)
}
