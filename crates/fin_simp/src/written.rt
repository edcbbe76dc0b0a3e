//! The reads, tests and changes of statements as they are written, where nothing is known and so nothing is left out.
ghost use Rattle.std.specs.Prelude.{◌≡◌, [], ◌∷◌, IfOk, map};
ghost use Rattle.fin_ast.specs.Spine.{expr_of};
ghost use Rattle.fin_simp.specs.Gathered as spec;
ghost use Rattle.fin_simp.specs.Numbered.{behind, behind_test, here_at, past_all, past_expr, past_stmt};
ghost use Rattle.fin_simp.specs.Rest as told;

use crate::expr_rest::{Access, one_access};
use crate::facts::next_number;
use crate::rest::{Kind, Rest, RestWalk, Test, beside, changing, nothing, testing, walking};
use fin_ast::{Expr, Head, Stmt};
use sqlite_items::Items;
use std::alloc::{AllocError, Global};

/// The reads of an expression, and the number of the next one.
#[derive(Debug, Drop)]
struct Accesses {
    pub reads: Items<Access>,
    pub next: u32,
}

#[cycle(written_reads)]
fn reads_of_expr(alloc: Global, e: &Expr, next: u32) -> Result<Accesses, AllocError>
    ensures reads { IfOk result (λ w. map spec.as_access w.reads ≡ told.reads_of e.now next) }
    ensures next { IfOk result (λ w. w.next ≡ past_expr e.now next) }
{
    let spine = e.spine(alloc)?;
    let first = reads_of_head(alloc, spine.head, next)?;
    let mut reads = first.reads;
    let mut at = first.next;
    let mut sides = spine.sides;
    while let Some((_, right)) = sides.pop() {
        let right = reads_of_expr(alloc, right, at)?;
        reads.append(right.reads)?;
        at = right.next;
    }
    Ok(accessing(reads, at))
}

#[cycle(written_reads)]
fn reads_of_head(alloc: Global, head: Head<'_>, next: u32) -> Result<Accesses, AllocError>
    ensures reads { IfOk result (λ w. map spec.as_access w.reads ≡ told.reads_of (expr_of head.entry) next) }
    ensures next { IfOk result (λ w. w.next ≡ past_expr (expr_of head.entry) next) }
{
    match head {
        Head::Num(_) => Ok(accessing(Items::new(alloc), next)),
        Head::Var { var: _, line: _ } => Ok(accessing(Items::new(alloc), next)),
        Head::Read {
            tensor,
            at,
            line: _,
        } => {
            let own = one_access(alloc, next, tensor, at)?;
            let behind = next_number(next)?;
            Ok(accessing(own, behind))
        }
        Head::Neg(inner) => reads_of_expr(alloc, inner, next),
    }
}

fn accessing(reads: Items<Access>, next: u32) -> Accesses
    ensures reads { result.reads ≡ reads }
    ensures next { result.next ≡ next }
{
    Accesses { reads, next }
}

#[cycle(written)]
fn written_of(alloc: Global, s: &Stmt, read: u32, test: u32) -> Result<RestWalk, AllocError>
    ensures found { IfOk result (λ w. spec.as_rest w.found ≡ told.written s.now (here_at read test)) }
    ensures past { IfOk result (λ w. here_at w.read w.test ≡ past_stmt s.now (here_at read test)) }
{
    match s {
        Stmt::Block {
            body,
            line: _,
            last: _,
        } => written_of_all(alloc, body.as_slice(), read, test),
        Stmt::Loop {
            var: _,
            range: _,
            par: _,
            body,
            line: _,
            last: _,
        } => written_of_all(alloc, body.as_slice(), read, test),
        Stmt::Cond {
            test: condition,
            body,
            line: _,
            last: _,
        } => written_of_cond(alloc, body.as_slice(), condition, read, test),
        Stmt::Bind {
            var: _,
            value,
            body,
            line: _,
            last: _,
        } => written_of_bind(alloc, body.as_slice(), value, read, test),
        Stmt::Declare {
            tensor,
            value: _,
            line: _,
        } => Ok(walking(changing(alloc, *tensor)?, read, test)),
        Stmt::Freeze { tensor, line: _ } => Ok(walking(changing(alloc, *tensor)?, read, test)),
        Stmt::Thaw { tensor, line: _ } => Ok(walking(changing(alloc, *tensor)?, read, test)),
        Stmt::Update {
            tensor,
            at: _,
            by: _,
            value,
            line: _,
        } => {
            let value = reads_of_expr(alloc, value, read)?;
            let changed = Items::from_slice(alloc, &[*tensor])?;
            let found = written_with(alloc, value.reads, Items::new(alloc), changed);
            Ok(walking(found, value.next, test))
        }
    }
}

#[cycle(written)]
fn written_of_cond(
    alloc: Global,
    body: &[Stmt],
    condition: &Expr,
    read: u32,
    test: u32,
) -> Result<RestWalk, AllocError>
    ensures found { let here = here_at read test in
        IfOk result (λ w. spec.as_rest w.found ≡ spec.cond_written condition.now body.now here) }
    ensures past { let here = behind_test condition.now (here_at read test) in
        IfOk result (λ w. here_at w.read w.test ≡ past_all (map past_stmt body.now) here) }
{
    let value = reads_of_expr(alloc, condition, read)?;
    let next = next_number(test)?;
    let tests = one_test(alloc, test, condition)?;
    let body = written_of_all(alloc, body, value.next, next)?;
    let own = written_with(alloc, value.reads, tests, Items::new(alloc));
    let found = beside(own, body.found)?;
    Ok(walking(found, body.read, body.test))
}

#[cycle(written)]
fn written_of_bind(
    alloc: Global,
    body: &[Stmt],
    value: &Expr,
    read: u32,
    test: u32,
) -> Result<RestWalk, AllocError>
    ensures found { let here = here_at read test in
        IfOk result (λ w. spec.as_rest w.found ≡ spec.bind_written value.now body.now here) }
    ensures past { let here = behind value.now (here_at read test) in
        IfOk result (λ w. here_at w.read w.test ≡ past_all (map past_stmt body.now) here) }
{
    let value = reads_of_expr(alloc, value, read)?;
    let body = written_of_all(alloc, body, value.next, test)?;
    let own = written_with(alloc, value.reads, Items::new(alloc), Items::new(alloc));
    let found = beside(own, body.found)?;
    Ok(walking(found, body.read, body.test))
}

/// The reads, tests and changes of a body as it is written, whose first read and test have these numbers.
#[cycle(written)]
pub fn written_of_all(
    alloc: Global,
    body: &[Stmt],
    read: u32,
    test: u32,
) -> Result<RestWalk, AllocError>
    ensures found { IfOk result (λ w. spec.as_rest w.found ≡ spec.written_of_all body.now (here_at read test)) }
    ensures past { IfOk result (λ w. here_at w.read w.test ≡ past_all (map past_stmt body.now) (here_at read test)) }
{
    let mut found = nothing(alloc);
    let mut next_read = read;
    let mut next_test = test;
    for s in body {
        let one = written_of(alloc, s, next_read, next_test)?;
        found = beside(found, one.found)?;
        next_read = one.read;
        next_test = one.test;
    }
    let end = written_with(
        alloc,
        Items::new(alloc),
        Items::new(alloc),
        Items::new(alloc),
    );
    let found = beside(found, end)?;
    Ok(walking(found, next_read, next_test))
}

fn one_test(alloc: Global, test: u32, expr: &Expr) -> Result<Items<Test>, AllocError>
    ensures { IfOk result (λ tests. tests ≡ spec.test_with test expr.now ∷ []) }
{
    let expr = expr.copy(alloc)?;
    let mut tests = Items::new(alloc);
    tests.push(testing(test, expr))?;
    Ok(tests)
}

fn written_with(alloc: Global, reads: Items<Access>, tests: Items<Test>, changed: Items<u8>) -> Rest
    ensures { result ≡ spec.written_with reads tests changed }
{
    Rest {
        kind: Kind::Other,
        reads,
        vars: Items::new(alloc),
        tests,
        changed,
        targets: Items::new(alloc),
    }
}
