//! Where codes are made, and what is seen there of statements by what is known.
ghost use Rattle.std.specs.Prelude.{◌≡◌, ◌≤◌, ◌∷◌, ℕ, ℤ, Option, IfOk, IfSome, is_some};
ghost use Rattle.fin_simp.specs.declared.facts.Facts.{Facts};
ghost use Rattle.fin_simp.specs.Facts.{marks, test_in};
ghost use Rattle.fin_simp.specs.Gathered.{as_rest};
ghost use Rattle.fin_simp.specs.Numbered.{here_at, past_expr, past_stmt};
ghost use Rattle.fin_simp.specs.Work.{inside, marks_within};
ghost use Rattle.fin_perform.specs.Layouts.{heads_in};
ghost use Rattle.fin_perform.specs.Places.{left_of_all};
ghost use Rattle.fin_perform.specs.Working.{nothing_in, literal_at, test_at};
ghost use Rattle.fin_stmts.specs.Places.{context_by, context_of, here_of, is_with};

use fin_ast::{Checked, Expr, Stmt};
use fin_ir::Code;
use fin_read::Heads;
use fin_simp::{
    Bound, Facts, Found, Known, Rest, Seen, is_nothing, literal, rest_of_all, with_bound,
    written_of_all,
};
use sqlite_items::Items;
use std::alloc::{AllocError, Global};

/// Where a statement's codes are made: what is known there, outside all loops nothing, the numbers of its first read and
/// test, and the first free local.
#[derive(Clone, Copy)]
pub struct Place<'a> {
    pub known: Option<Facts<'a>>,
    pub read: u32,
    pub test: u32,
    pub next: u32,
}

/// Codes, and how many locals a layout needs for them.
#[derive(Debug, Drop)]
pub struct Codes {
    pub codes: Items<Code>,
    pub room: u32,
}

/// The heads of a program's tensors.
#[tactic(auto, using(crate::proofs::Extents::are_shapes))]
pub(crate) fn heads_of(checked: &Checked) -> Heads<'_>
    ensures { result ≡ heads_in checked.now }
{
    Heads {
        headers: checked.program.headers.as_slice(),
        shapes: checked.dims.shapes.as_slice(),
    }
}

/// What is known, as facts; nothing where that is none.
pub(crate) fn facts_in<'a>(known: &Option<Facts<'a>>) -> Facts<'a>
    ensures marks { marks result ≡ marks_within (context_by known.now) }
    ensures some { IfSome known.now (λ f. result ≡ f) }
{
    match known {
        Some(facts) => *facts,
        None => Facts {
            gaps: &[],
            known: &[],
            bound: &[],
        },
    }
}

/// Whether nothing is left of a statement, and the numbers of the read and test behind it.
pub(crate) fn see(alloc: Global, s: &Stmt, place: &Place<'_>) -> Result<Seen, AllocError>
    ensures nothing { let no = nothing_in s.now (here_of place.now) (context_of place.now) in
        IfOk result (λ v. v.nothing ≡ no) }
    ensures past { IfOk result (λ v. here_at v.read v.test ≡ past_stmt s.now (here_of place.now)) }
{
    let facts = facts_in(&place.known);
    let seen = is_nothing(alloc, s, &facts, place.read, place.test)?;
    Ok(Seen {
        nothing: place.known.is_some() && seen.nothing,
        read: seen.read,
        test: seen.test,
    })
}

/// The literal that is left of an expression, if one is, and the number of the read behind it.
pub(crate) fn literal_there(alloc: Global, e: &Expr, place: &Place<'_>) -> Result<Found, AllocError>
    ensures literal { IfOk result (λ f. f.literal ≡ literal_at e.now (here_of place.now) (context_of place.now)) }
    ensures next { IfOk result (λ f. f.next ≡ past_expr e.now place.now.read) }
{
    let facts = facts_in(&place.known);
    let found = literal(alloc, e, &facts, place.read)?;
    match place.known {
        Some(_) => Ok(found),
        None => Ok(Found {
            literal: None,
            next: found.next,
        }),
    }
}

/// Whether a test is known, or a literal is left of it.
pub(crate) fn is_settled(test: &Found, place: &Place<'_>) -> bool
    ensures { (e : Expr) → test.now.literal ≡ literal_at e (here_of place.now) (context_of place.now)
        → result ≡ is_some (test_at e (here_of place.now) (context_of place.now)) }
{
    match place.known {
        Some(facts) => test.literal.is_some() || is_told(facts.known, place.test),
        None => false,
    }
}

fn is_told(known: &[Known], test: u32) -> bool
    ensures { result ≡ is_some (test_in known.now test) }
{
    for one in known {
        if one.test == test {
            return true;
        }
    }
    false
}

/// The variables that are bound inside a loop or a let, with what is known of them. Outside all loops nothing is known.
pub(crate) fn bound_inside(
    alloc: Global,
    known: &Option<Facts<'_>>,
    var: u32,
    number: Option<i64>,
) -> Result<Vec<Bound>, AllocError>
    ensures { IfOk result (λ v. IfSome known.now (λ f. v.items ≡ record { var = var; number = number } ∷ f.bound.now)) }
{
    let facts = facts_in(known);
    with_bound(alloc, facts.bound, var, number)
}

/// What is known there, but of the variables.
pub(crate) fn known_inside<'a>(known: &Option<Facts<'a>>, bound: &'a [Bound]) -> Option<Facts<'a>>
    ensures { (var : ℕ) (number : Option ℤ) → is_with known.now bound.now var number
        → context_by result ≡ inside (context_by known.now) var number }
{
    match known {
        None => None,
        Some(facts) => Some(Facts {
            gaps: facts.gaps,
            known: facts.known,
            bound,
        }),
    }
}

/// What is left of a body there.
pub(crate) fn rest_there(
    alloc: Global,
    body: &[Stmt],
    place: &Place<'_>,
) -> Result<Rest, AllocError>
    ensures { let left = left_of_all body.now (here_of place.now) (context_of place.now) in
        IfOk result (λ r. as_rest r ≡ left) }
{
    match place.known {
        None => {
            let walk = written_of_all(alloc, body, place.read, place.test)?;
            Ok(walk.found)
        }
        Some(facts) => {
            let walk = rest_of_all(alloc, body, &facts, place.read, place.test)?;
            Ok(walk.found)
        }
    }
}
