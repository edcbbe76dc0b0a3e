//! The one update that is left of a loop's body, where it can be done at once.
ghost use Rattle.std.specs.Prelude.{◌≡◌, IfOk, IfSome, Some, false};
ghost use Rattle.fin_loops.specs.Only.{update_names};
ghost use Rattle.fin_perform.specs.Appending.{AreOne, IsOne, here_of};
ghost use Rattle.fin_simp.specs.Numbered.{behind_test};
ghost use Rattle.fin_style_point.specs.Changes as changes;
ghost use Rattle.fin_stmts.specs.Updates.{IsAtOnce, IsOnlyOf, IsOnlyOfAll, written_of};

use crate::names::update_names;
use fin_ast::{Expr, Stmt};
use fin_base::Reduce;
use fin_perform::{Site, Update};
use fin_simp::{Facts, is_nothing, literal, next_number, with_bound};
use std::alloc::{AllocError, Global};

/// The one update that is left of a loop's body, where it names neither the loop's variable nor what the body binds, and
/// isn't bitwise.
pub(crate) fn update_at_once<'a>(
    alloc: Global,
    var: u32,
    body: &'a [Stmt],
    at: &Site<'_>,
) -> Result<Option<Update<'a>>, AllocError>
    requires { AreOne body.now at.now }
    ensures { IfOk result (λ found. IfSome found (IsAtOnce var body.now at.now)) }
{
    let found = only_update(alloc, body, at)?;
    let found = unless_named(alloc, var, found)?;
    Ok(unless_bitwise(found))
}

// That of statements one after another, as it is written, where it names nothing that they bind.
#[cycle(only)]
fn only_update<'a>(
    alloc: Global,
    body: &'a [Stmt],
    at: &Site<'_>,
) -> Result<Option<Update<'a>>, AllocError>
    requires { AreOne body.now at.now }
    ensures { IfOk result (λ found. IfSome found (IsOnlyOfAll body.now at.now)) }
{
    let mut read = at.read;
    let mut test = at.test;
    for s in body {
        let seen = is_nothing(alloc, s, &at.facts, read, test)?;
        if !seen.nothing {
            let here = Site {
                facts: at.facts,
                read,
                test,
                next: at.next,
            };
            return only_one(alloc, s, &here);
        }
        read = seen.read;
        test = seen.test;
    }
    Ok(None)
}

// That of the one statement of which something is left.
#[cycle(only)]
fn only_one<'a>(alloc: Global, s: &'a Stmt, at: &Site<'_>) -> Result<Option<Update<'a>>, AllocError>
    requires { IsOne s.now at.now }
    ensures { IfOk result (λ found. IfSome found (IsOnlyOf s.now at.now)) }
{
    match s {
        Stmt::Block {
            body,
            line: _,
            last: _,
        } => only_update(alloc, body.as_slice(), at),
        Stmt::Cond {
            test,
            body,
            line: _,
            last: _,
        } => {
            let inner = behind(alloc, test, at)?;
            only_update(alloc, body.as_slice(), &inner)
        }
        Stmt::Bind {
            var,
            value,
            body,
            line: _,
            last: _,
        } => {
            let found = literal(alloc, value, &at.facts, at.read)?;
            let bound = with_bound(alloc, at.facts.bound, *var, found.literal)?;
            let inner = Site {
                facts: Facts {
                    gaps: at.facts.gaps,
                    known: at.facts.known,
                    bound: bound.as_slice(),
                },
                read: found.next,
                test: at.test,
                next: at.next,
            };
            let only = only_update(alloc, body.as_slice(), &inner)?;
            unless_named(alloc, *var, only)
        }
        Stmt::Update {
            tensor,
            at: indices,
            by,
            value,
            line: _,
        } => Ok(Some(Update {
            tensor: *tensor,
            at: indices.as_slice(),
            by: *by,
            value,
        })),
        // of no other is one update left
        _ => Ok(None),
    }
}

// Behind the test of an `if`.
fn behind<'a>(alloc: Global, test: &Expr, at: &Site<'a>) -> Result<Site<'a>, AllocError>
    ensures facts { IfOk result (λ b. b.facts ≡ at.now.facts) }
    ensures here { IfOk result (λ b. here_of b ≡ behind_test test.now (here_of at.now)) }
{
    let found = literal(alloc, test, &at.facts, at.read)?;
    let number = next_number(at.test)?;
    Ok(Site {
        facts: at.facts,
        read: found.next,
        test: number,
        next: at.next,
    })
}

fn unless_named<'a>(
    alloc: Global,
    var: u32,
    found: Option<Update<'a>>,
) -> Result<Option<Update<'a>>, AllocError>
    ensures found { IfOk result (λ o. IfSome o (λ u. found.entry ≡ Some u)) }
    ensures free { IfOk result (λ o. IfSome o (λ u. update_names var (written_of u) ≡ false)) }
{
    match found {
        Some(update) => {
            if update_names(alloc, var, &update)? {
                return Ok(None);
            }
            Ok(Some(update))
        }
        None => Ok(None),
    }
}

// What is updated bitwise has to be words, and of what is being built that isn't known.
fn unless_bitwise(found: Option<Update<'_>>) -> Option<Update<'_>>
    ensures found { IfSome result (λ u. found.entry ≡ Some u) }
    ensures plain { IfSome result (λ u. changes.is_bitwise u.by ≡ false) }
{
    match found {
        Some(update) => {
            if is_bitwise(update.by) {
                return None;
            }
            Some(update)
        }
        None => None,
    }
}

fn is_bitwise(by: Reduce) -> bool
    ensures { result ≡ changes.is_bitwise by }
{
    match by {
        Reduce::And | Reduce::Or | Reduce::Xor => true,
        _ => false,
    }
}
