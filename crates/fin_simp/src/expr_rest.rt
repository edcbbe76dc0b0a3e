//! What remains of an expression: a literal, or reads and variables.
ghost use Rattle.std.specs.Prelude.{◌≡◌, [], ◌∷◌, IfOk};
ghost use Rattle.fin_ast.specs.Spine.{expr_of};
ghost use Rattle.fin_simp.specs.Facts.{marks};
ghost use Rattle.fin_simp.specs.Gathered as spec;
ghost use Rattle.fin_simp.specs.Numbered.{past_expr};
ghost use Rattle.fin_simp.specs.Rest.{expr_rest};

use crate::facts::{Facts, gap_of, next_number, var_of};
use crate::spine::{joined, turned};
use fin_ast::{Expr, Head, Index};
use fin_base::Op;
use fin_tensor::Seq;
use sqlite_items::Items;
use std::alloc::{AllocError, Global};

/// A read, with its number in the order of the text.
#[derive(Debug, Drop)]
pub struct Access {
    pub read: u32,
    pub tensor: u8,
    pub at: Seq<Index>,
}

/// The literal that is left of an expression, if one is, and the reads and variables that remain.
#[derive(Debug, Drop)]
pub struct ExprRest {
    pub literal: Option<i64>,
    pub reads: Items<Access>,
    pub vars: Items<u32>,
}

/// Of an expression, with the number of the next read.
#[derive(Debug, Drop)]
pub struct ExprRestWalk {
    pub found: ExprRest,
    pub next: u32,
}

/// What remains of an expression, whose first read has this number.
#[cycle(expr_rests)]
pub fn rest_of_expr(
    alloc: Global,
    e: &Expr,
    facts: &Facts<'_>,
    next: u32,
) -> Result<ExprRestWalk, AllocError>
    ensures found { IfOk result (λ w. spec.as_expr_rest w.found ≡ expr_rest e.now next (marks facts.now)) }
    ensures next { IfOk result (λ w. w.next ≡ past_expr e.now next) }
{
    let spine = e.spine(alloc)?;
    let first = rest_of_head(alloc, spine.head, facts, next)?;
    let mut found = first.found;
    let mut at = first.next;
    let mut sides = spine.sides;
    while let Some((op, right)) = sides.pop() {
        let right = rest_of_expr(alloc, right, facts, at)?;
        found = both(alloc, op, found, right.found)?;
        at = right.next;
    }
    Ok(walked(found, at))
}

#[cycle(expr_rests)]
fn rest_of_head(
    alloc: Global,
    head: Head<'_>,
    facts: &Facts<'_>,
    next: u32,
) -> Result<ExprRestWalk, AllocError>
    ensures found { let m = marks facts.now in
        IfOk result (λ w. spec.as_expr_rest w.found ≡ expr_rest (expr_of head.entry) next m) }
    ensures next { IfOk result (λ w. w.next ≡ past_expr (expr_of head.entry) next) }
{
    match head {
        Head::Num(n) => Ok(walked(known_rest(alloc, n), next)),
        Head::Var { var, line: _ } => {
            let own = rest_of_var(alloc, var)?;
            Ok(walked(rest_or(alloc, var_of(facts.bound, var), own), next))
        }
        Head::Read {
            tensor,
            at,
            line: _,
        } => {
            let own = rest_of_read(alloc, next, tensor, at)?;
            let behind = next_number(next)?;
            Ok(walked(rest_or(alloc, gap_of(facts.gaps, next), own), behind))
        }
        Head::Neg(inner) => {
            let inner = rest_of_expr(alloc, inner, facts, next)?;
            let literal = turned(inner.found.literal);
            Ok(walked(rest_or(alloc, literal, inner.found), inner.next))
        }
    }
}

fn walked(found: ExprRest, next: u32) -> ExprRestWalk
    ensures found { result.found ≡ found }
    ensures next { result.next ≡ next }
{
    ExprRestWalk { found, next }
}

fn known_rest(alloc: Global, n: i64) -> ExprRest
    ensures { result ≡ spec.known_rest n }
{
    ExprRest {
        literal: Some(n),
        reads: Items::new(alloc),
        vars: Items::new(alloc),
    }
}

fn rest_of_var(alloc: Global, var: u32) -> Result<ExprRest, AllocError>
    ensures { IfOk result (λ r. r ≡ spec.open_rest [] (var ∷ [])) }
{
    Ok(ExprRest {
        literal: None,
        reads: Items::new(alloc),
        vars: Items::from_slice(alloc, &[var])?,
    })
}

fn rest_of_read(
    alloc: Global,
    read: u32,
    tensor: u8,
    at: &Seq<Index>,
) -> Result<ExprRest, AllocError>
    ensures { IfOk result (λ r. r ≡ spec.open_rest (spec.access_with read tensor at.now ∷ []) []) }
{
    Ok(ExprRest {
        literal: None,
        reads: one_access(alloc, read, tensor, at)?,
        vars: Items::new(alloc),
    })
}

pub(crate) fn one_access(
    alloc: Global,
    read: u32,
    tensor: u8,
    at: &Seq<Index>,
) -> Result<Items<Access>, AllocError>
    ensures { IfOk result (λ reads. reads ≡ spec.access_with read tensor at.now ∷ []) }
{
    let at = at.copy(alloc)?;
    let mut reads = Items::new(alloc);
    reads.push(Access { read, tensor, at })?;
    Ok(reads)
}

/// The literal, if there is one, in place of what remains.
fn rest_or(alloc: Global, literal: Option<i64>, rest: ExprRest) -> ExprRest
    ensures { result ≡ spec.rest_or literal rest }
{
    match literal {
        None => rest,
        Some(n) => known_rest(alloc, n),
    }
}

fn both(alloc: Global, op: Op, left: ExprRest, right: ExprRest) -> Result<ExprRest, AllocError>
    ensures { IfOk result (λ r. r ≡ spec.both op left right) }
{
    let mut reads = left.reads;
    reads.append(right.reads)?;
    let mut vars = left.vars;
    vars.append(right.vars)?;
    let open = ExprRest {
        literal: None,
        reads,
        vars,
    };
    Ok(rest_or(alloc, joined(op, left.literal, right.literal), open))
}
