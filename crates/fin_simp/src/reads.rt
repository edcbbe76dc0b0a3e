//! The reads that remain of a statement.
ghost use Rattle.std.specs.Prelude.{◌≡◌, [], IfOk, ◌||◌, map};
ghost use Rattle.fin_ast.specs.Spine.{expr_of};
ghost use Rattle.fin_simp.specs.Facts.{marks};
ghost use Rattle.fin_simp.specs.Numbered.{here_at, past_all, past_expr, past_stmt};
ghost use Rattle.fin_simp.specs.Reads as spec;
ghost use Rattle.fin_simp.specs.Remaining.{joined_literal};
ghost use Rattle.std.specs.Prelude.{◌++◌};

use crate::facts::{Facts, gap_of, next_number, test_of, var_of, with_bound};
use crate::nothing::{fails, is_identity, settled};
use crate::spine::{joined, turned};
use fin_ast::{Expr, Head, Stmt};
use fin_base::Op;
use sqlite_items::Items;
use std::alloc::{AllocError, Global};

/// The literal that is left of an expression, if one is, and the numbers of the reads that remain.
#[derive(Debug, Drop)]
pub struct ExprReads {
    pub literal: Option<i64>,
    pub reads: Items<u32>,
}

/// Whether nothing is left of a statement, and the numbers of the reads that remain.
#[derive(Debug, Drop)]
pub struct StmtReads {
    pub nothing: bool,
    pub reads: Items<u32>,
}

/// Of an expression, with the number of the next read.
#[derive(Debug, Drop)]
pub struct ExprWalk {
    pub found: ExprReads,
    pub next: u32,
}

/// Of a statement or a body, with the numbers of the next read and test.
#[derive(Debug, Drop)]
pub struct StmtWalk {
    pub found: StmtReads,
    pub read: u32,
    pub test: u32,
}

/// The reads that remain of an expression, whose first read has this number.
#[cycle(expr_reads)]
pub fn reads_of_expr(
    alloc: Global,
    e: &Expr,
    facts: &Facts<'_>,
    next: u32,
) -> Result<ExprWalk, AllocError>
    ensures found { IfOk result (λ w. w.found ≡ spec.reads_of_expr e.now next (marks facts.now)) }
    ensures next { IfOk result (λ w. w.next ≡ past_expr e.now next) }
{
    let spine = e.spine(alloc)?;
    let first = reads_of_head(alloc, spine.head, facts, next)?;
    let mut found = first.found;
    let mut at = first.next;
    let mut sides = spine.sides;
    while let Some((op, right)) = sides.pop() {
        let right = reads_of_expr(alloc, right, facts, at)?;
        found = both(alloc, op, found, right.found)?;
        at = right.next;
    }
    Ok(walked(found, at))
}

#[cycle(expr_reads)]
fn reads_of_head(
    alloc: Global,
    head: Head<'_>,
    facts: &Facts<'_>,
    next: u32,
) -> Result<ExprWalk, AllocError>
    ensures found { IfOk result (λ w. w.found ≡ spec.reads_of_expr (expr_of head.entry) next (marks facts.now)) }
    ensures next { IfOk result (λ w. w.next ≡ past_expr (expr_of head.entry) next) }
{
    match head {
        Head::Num(n) => Ok(walked(reading(alloc, Some(n), Items::new(alloc)), next)),
        Head::Var { var, line: _ } => {
            let found = reading(alloc, var_of(facts.bound, var), Items::new(alloc));
            Ok(walked(found, next))
        }
        Head::Read {
            tensor: _,
            at: _,
            line: _,
        } => {
            let own = Items::from_slice(alloc, &[next])?;
            let behind = next_number(next)?;
            Ok(walked(reading(alloc, gap_of(facts.gaps, next), own), behind))
        }
        Head::Neg(inner) => {
            let inner = reads_of_expr(alloc, inner, facts, next)?;
            let found = reading(alloc, turned(inner.found.literal), inner.found.reads);
            Ok(walked(found, inner.next))
        }
    }
}

fn walked(found: ExprReads, next: u32) -> ExprWalk
    ensures found { result.found ≡ found }
    ensures next { result.next ≡ next }
{
    ExprWalk { found, next }
}

fn reading(alloc: Global, literal: Option<i64>, reads: Items<u32>) -> ExprReads
    ensures { result ≡ spec.reading literal reads }
{
    match literal {
        None => ExprReads {
            literal: None,
            reads,
        },
        Some(n) => ExprReads {
            literal: Some(n),
            reads: Items::new(alloc),
        },
    }
}

fn both(alloc: Global, op: Op, left: ExprReads, right: ExprReads) -> Result<ExprReads, AllocError>
    ensures { IfOk result (λ r. r ≡ spec.both op left right) }
{
    let mut reads = left.reads;
    reads.append(right.reads)?;
    Ok(reading(alloc, joined(op, left.literal, right.literal), reads))
}

/// The reads that remain of a statement, whose first read and test have these numbers.
#[cycle(stmt_reads)]
pub fn reads_of(
    alloc: Global,
    s: &Stmt,
    facts: &Facts<'_>,
    read: u32,
    test: u32,
) -> Result<StmtWalk, AllocError>
    ensures found { IfOk result (λ w. w.found ≡ spec.reads_of s.now (here_at read test) (marks facts.now)) }
    ensures past { IfOk result (λ w. here_at w.read w.test ≡ past_stmt s.now (here_at read test)) }
{
    match s {
        Stmt::Block {
            body,
            line: _,
            last: _,
        } => reads_of_all(alloc, body.as_slice(), facts, read, test),
        Stmt::Loop {
            var,
            range: _,
            par: _,
            body,
            line: _,
            last: _,
        } => {
            let bound = with_bound(alloc, facts.bound, *var, None)?;
            let inner = Facts {
                gaps: facts.gaps,
                known: facts.known,
                bound: bound.as_slice(),
            };
            let body = reads_of_all(alloc, body.as_slice(), &inner, read, test)?;
            within(alloc, false, Items::new(alloc), body)
        }
        Stmt::Cond {
            test: condition,
            body,
            line: _,
            last: _,
        } => {
            let value = reads_of_expr(alloc, condition, facts, read)?;
            let next = next_number(test)?;
            let body = reads_of_all(alloc, body.as_slice(), facts, value.next, next)?;
            let told = settled(test_of(facts.known, test), value.found.literal);
            let own = unless_known(alloc, told, value.found.reads);
            within(alloc, fails(told), own, body)
        }
        Stmt::Bind {
            var,
            value,
            body,
            line: _,
            last: _,
        } => {
            let value = reads_of_expr(alloc, value, facts, read)?;
            let bound = with_bound(alloc, facts.bound, *var, value.found.literal)?;
            let inner = Facts {
                gaps: facts.gaps,
                known: facts.known,
                bound: bound.as_slice(),
            };
            let body = reads_of_all(alloc, body.as_slice(), &inner, value.next, test)?;
            within(alloc, false, value.found.reads, body)
        }
        Stmt::Declare {
            tensor: _,
            value: _,
            line: _,
        } => Ok(without_reads(alloc, false, read, test)),
        Stmt::Freeze { tensor: _, line: _ } => Ok(without_reads(alloc, false, read, test)),
        Stmt::Thaw { tensor: _, line: _ } => Ok(without_reads(alloc, false, read, test)),
        Stmt::Update {
            tensor: _,
            at: _,
            by,
            value,
            line: _,
        } => {
            let value = reads_of_expr(alloc, value, facts, read)?;
            let behind = without_reads(alloc, false, value.next, test);
            within(
                alloc,
                is_identity(*by, value.found.literal),
                value.found.reads,
                behind,
            )
        }
    }
}

/// The reads that remain of a body.
#[cycle(stmt_reads)]
pub fn reads_of_all(
    alloc: Global,
    body: &[Stmt],
    facts: &Facts<'_>,
    read: u32,
    test: u32,
) -> Result<StmtWalk, AllocError>
    ensures found { IfOk result (λ w. w.found ≡ spec.reads_of_all body.now (here_at read test) (marks facts.now)) }
    ensures past { IfOk result (λ w. here_at w.read w.test ≡ past_all (map past_stmt body.now) (here_at read test)) }
{
    let mut nothing = true;
    let mut reads = Items::new(alloc);
    let mut next_read = read;
    let mut next_test = test;
    for s in body {
        let one = reads_of(alloc, s, facts, next_read, next_test)?;
        nothing = nothing && one.found.nothing;
        reads.append(one.found.reads)?;
        next_read = one.read;
        next_test = one.test;
    }
    Ok(walking(StmtReads { nothing, reads }, next_read, next_test))
}

fn walking(found: StmtReads, read: u32, test: u32) -> StmtWalk
    ensures found { result.found ≡ found }
    ensures read { result.read ≡ read }
    ensures test { result.test ≡ test }
{
    StmtWalk { found, read, test }
}

fn without_reads(alloc: Global, nothing: bool, read: u32, test: u32) -> StmtWalk
    ensures nothing { result.found.nothing ≡ nothing }
    ensures reads { result.found.reads ≡ [] }
    ensures read { result.read ≡ read }
    ensures test { result.test ≡ test }
{
    let reads = Items::new(alloc);
    walking(StmtReads { nothing, reads }, read, test)
}

fn unless_known(alloc: Global, literal: Option<i64>, reads: Items<u32>) -> Items<u32>
    ensures { result ≡ spec.unless_known literal reads }
{
    match literal {
        None => reads,
        Some(_) => Items::new(alloc),
    }
}

/// Behind reads of its own, unless it is left out.
fn within(
    alloc: Global,
    left_out: bool,
    own: Items<u32>,
    body: StmtWalk,
) -> Result<StmtWalk, AllocError>
    ensures found { IfOk result (λ w. w.found ≡ spec.within left_out own body.found) }
    ensures read { IfOk result (λ w. w.read ≡ body.read) }
    ensures test { IfOk result (λ w. w.test ≡ body.test) }
{
    if left_out || body.found.nothing {
        return Ok(without_reads(alloc, true, body.read, body.test));
    }
    let mut reads = own;
    reads.append(body.found.reads)?;
    Ok(walking(
        StmtReads {
            nothing: false,
            reads,
        },
        body.read,
        body.test,
    ))
}
