//! What remains of a statement: its reads, variables and tests, what it changes, and whether it is a single update.
ghost use Rattle.std.specs.Prelude.{◌≡◌, IfOk, map};
ghost use Rattle.fin_simp.specs.Facts.{marks};
ghost use Rattle.fin_simp.specs.Gathered as spec;
ghost use Rattle.fin_simp.specs.Numbered.{behind, behind_test, here_at, past_all, past_stmt};
ghost use Rattle.fin_simp.specs.Rest.{rest_of as rest_told};

use crate::expr_rest::{Access, ExprRest, rest_of_expr};
use crate::facts::{Facts, next_number, test_of, with_bound};
use crate::nothing::{is_identity, settled};
use crate::remainder::simplify_expr;
use fin_ast::{Expr, Index, Stmt};
use fin_tensor::Seq;
use sqlite_items::Items;
use std::alloc::{AllocError, Global};

/// What is left of the test of an `if`, with its number.
#[derive(Debug, Drop)]
pub struct Test {
    pub test: u32,
    pub expr: Expr,
}

/// Nothing, one update alone, or anything else.
#[derive(Clone, Copy, Debug)]
pub enum Kind {
    Nothing,
    OneUpdate,
    Other,
}

/// The reads, variables and tests that remain of a statement, the tensors that it declares, updates, freezes or thaws,
/// and the indices of its updates.
#[derive(Debug, Drop)]
pub struct Rest {
    pub kind: Kind,
    pub reads: Items<Access>,
    pub vars: Items<u32>,
    pub tests: Items<Test>,
    pub changed: Items<u8>,
    pub targets: Items<Index>,
}

/// Of a statement or a body, with the numbers of the next read and test.
#[derive(Debug, Drop)]
pub struct RestWalk {
    pub found: Rest,
    pub read: u32,
    pub test: u32,
}

/// What is known at a place of the text, and the numbers of the next read and test there.
#[derive(Clone, Copy)]
struct Place<'a> {
    pub facts: Facts<'a>,
    pub read: u32,
    pub test: u32,
}

/// What remains of a statement, whose first read and test have these numbers.
#[cycle(stmt_rests)]
pub fn rest_of(
    alloc: Global,
    s: &Stmt,
    facts: &Facts<'_>,
    read: u32,
    test: u32,
) -> Result<RestWalk, AllocError>
    ensures found { IfOk result (λ w. spec.as_rest w.found ≡ rest_told s.now (here_at read test) (marks facts.now)) }
    ensures past { IfOk result (λ w. here_at w.read w.test ≡ past_stmt s.now (here_at read test)) }
{
    let at = Place {
        facts: *facts,
        read,
        test,
    };
    match s {
        Stmt::Block {
            body,
            line: _,
            last: _,
        } => rest_of_all(alloc, body.as_slice(), facts, read, test),
        Stmt::Loop {
            var,
            range: _,
            par: _,
            body,
            line: _,
            last: _,
        } => rest_of_loop(alloc, body.as_slice(), *var, &at),
        Stmt::Cond {
            test,
            body,
            line: _,
            last: _,
        } => rest_of_cond(alloc, body.as_slice(), test, &at),
        Stmt::Bind {
            var,
            value,
            body,
            line: _,
            last: _,
        } => rest_of_bind(alloc, body.as_slice(), *var, value, &at),
        Stmt::Declare {
            tensor,
            value: _,
            line: _,
        } => Ok(walking(changing(alloc, *tensor)?, read, test)),
        Stmt::Freeze { tensor, line: _ } => Ok(walking(changing(alloc, *tensor)?, read, test)),
        Stmt::Thaw { tensor, line: _ } => Ok(walking(changing(alloc, *tensor)?, read, test)),
        Stmt::Update {
            tensor,
            at: indices,
            by,
            value,
            line: _,
        } => {
            let value = rest_of_expr(alloc, value, facts, read)?;
            let left_out = is_identity(*by, value.found.literal);
            let found = updating(alloc, *tensor, indices, left_out, value.found)?;
            Ok(walking(found, value.next, test))
        }
    }
}

#[cycle(stmt_rests)]
fn rest_of_loop(
    alloc: Global,
    body: &[Stmt],
    var: u32,
    at: &Place<'_>,
) -> Result<RestWalk, AllocError>
    ensures found { let here = here_at at.now.read at.now.test in
        IfOk result (λ w. spec.as_rest w.found ≡ spec.loop_told var body.now here (marks at.now.facts)) }
    ensures past { let here = here_at at.now.read at.now.test in
        IfOk result (λ w. here_at w.read w.test ≡ past_all (map past_stmt body.now) here) }
{
    let bound = with_bound(alloc, at.facts.bound, var, None)?;
    let inner = Facts {
        gaps: at.facts.gaps,
        known: at.facts.known,
        bound: bound.as_slice(),
    };
    let body = rest_of_all(alloc, body, &inner, at.read, at.test)?;
    let found = within(alloc, no_expr(alloc), Items::new(alloc), body.found)?;
    Ok(walking(found, body.read, body.test))
}

#[cycle(stmt_rests)]
fn rest_of_cond(
    alloc: Global,
    body: &[Stmt],
    condition: &Expr,
    at: &Place<'_>,
) -> Result<RestWalk, AllocError>
    ensures found { let here = here_at at.now.read at.now.test in
        IfOk result (λ w. spec.as_rest w.found ≡ spec.cond_told condition.now body.now here (marks at.now.facts)) }
    ensures past { let here = behind_test condition.now (here_at at.now.read at.now.test) in
        IfOk result (λ w. here_at w.read w.test ≡ past_all (map past_stmt body.now) here) }
{
    let value = rest_of_expr(alloc, condition, &at.facts, at.read)?;
    let left = simplify_expr(alloc, condition, &at.facts, at.read)?;
    let next = next_number(at.test)?;
    let body = rest_of_all(alloc, body, &at.facts, value.next, next)?;
    let told = settled(test_of(at.facts.known, at.test), value.found.literal);
    let own = testing(at.test, left.left.into_expr());
    let found = chosen(alloc, told, value.found, own, body.found)?;
    Ok(walking(found, body.read, body.test))
}

#[cycle(stmt_rests)]
fn rest_of_bind(
    alloc: Global,
    body: &[Stmt],
    var: u32,
    value: &Expr,
    at: &Place<'_>,
) -> Result<RestWalk, AllocError>
    ensures found { let here = here_at at.now.read at.now.test in
        IfOk result (λ w. spec.as_rest w.found ≡ spec.bind_told var value.now body.now here (marks at.now.facts)) }
    ensures past { let here = behind value.now (here_at at.now.read at.now.test) in
        IfOk result (λ w. here_at w.read w.test ≡ past_all (map past_stmt body.now) here) }
{
    let value = rest_of_expr(alloc, value, &at.facts, at.read)?;
    let bound = with_bound(alloc, at.facts.bound, var, value.found.literal)?;
    let inner = Facts {
        gaps: at.facts.gaps,
        known: at.facts.known,
        bound: bound.as_slice(),
    };
    let body = rest_of_all(alloc, body, &inner, value.next, at.test)?;
    let found = binding(alloc, value.found, body.found)?;
    Ok(walking(found, body.read, body.test))
}

/// What remains of a body.
#[cycle(stmt_rests)]
pub fn rest_of_all(
    alloc: Global,
    body: &[Stmt],
    facts: &Facts<'_>,
    read: u32,
    test: u32,
) -> Result<RestWalk, AllocError>
    ensures found { let m = marks facts.now in
        IfOk result (λ w. spec.as_rest w.found ≡ spec.rest_of_all body.now (here_at read test) m) }
    ensures past { IfOk result (λ w. here_at w.read w.test ≡ past_all (map past_stmt body.now) (here_at read test)) }
{
    let mut found = nothing(alloc);
    let mut next_read = read;
    let mut next_test = test;
    for s in body {
        let one = rest_of(alloc, s, facts, next_read, next_test)?;
        found = beside(found, one.found)?;
        next_read = one.read;
        next_test = one.test;
    }
    Ok(walking(found, next_read, next_test))
}

pub(crate) fn walking(found: Rest, read: u32, test: u32) -> RestWalk
    ensures found { result.found ≡ found }
    ensures read { result.read ≡ read }
    ensures test { result.test ≡ test }
{
    RestWalk { found, read, test }
}

pub(crate) fn nothing(alloc: Global) -> Rest
    ensures { result ≡ spec.nothing }
{
    Rest {
        kind: Kind::Nothing,
        reads: Items::new(alloc),
        vars: Items::new(alloc),
        tests: Items::new(alloc),
        changed: Items::new(alloc),
        targets: Items::new(alloc),
    }
}

fn no_expr(alloc: Global) -> ExprRest
    ensures { result ≡ spec.no_expr }
{
    ExprRest {
        literal: None,
        reads: Items::new(alloc),
        vars: Items::new(alloc),
    }
}

pub(crate) fn testing(test: u32, expr: Expr) -> Test
    ensures test { result.test ≡ test }
    ensures expr { result.expr ≡ expr }
{
    Test { test, expr }
}

fn kinds(a: Kind, b: Kind) -> Kind
    ensures { result ≡ spec.kinds a b }
{
    match a {
        Kind::Nothing => b,
        Kind::OneUpdate => match b {
            Kind::Nothing => Kind::OneUpdate,
            Kind::OneUpdate | Kind::Other => Kind::Other,
        },
        Kind::Other => Kind::Other,
    }
}

pub(crate) fn beside(a: Rest, b: Rest) -> Result<Rest, AllocError>
    ensures { IfOk result (λ r. r ≡ spec.beside a b) }
{
    let kind = kinds(a.kind, b.kind);
    let mut reads = a.reads;
    reads.append(b.reads)?;
    let mut vars = a.vars;
    vars.append(b.vars)?;
    let mut tests = a.tests;
    tests.append(b.tests)?;
    let mut changed = a.changed;
    changed.append(b.changed)?;
    let mut targets = a.targets;
    targets.append(b.targets)?;
    Ok(Rest {
        kind,
        reads,
        vars,
        tests,
        changed,
        targets,
    })
}

pub(crate) fn changing(alloc: Global, tensor: u8) -> Result<Rest, AllocError>
    ensures { IfOk result (λ r. r ≡ spec.changing tensor) }
{
    Ok(Rest {
        kind: Kind::Other,
        reads: Items::new(alloc),
        vars: Items::new(alloc),
        tests: Items::new(alloc),
        changed: Items::from_slice(alloc, &[tensor])?,
        targets: Items::new(alloc),
    })
}

// A statement around a body, with an expression of its own.
fn joined(own: ExprRest, tests: Items<Test>, body: Rest) -> Result<Rest, AllocError>
    ensures { IfOk result (λ r. r ≡ spec.joined_rest own tests body) }
{
    let mut reads = own.reads;
    reads.append(body.reads)?;
    let mut vars = own.vars;
    vars.append(body.vars)?;
    let mut all = tests;
    all.append(body.tests)?;
    Ok(Rest {
        kind: Kind::Other,
        reads,
        vars,
        tests: all,
        changed: body.changed,
        targets: body.targets,
    })
}

// Around nothing there is nothing.
fn within(alloc: Global, own: ExprRest, tests: Items<Test>, body: Rest) -> Result<Rest, AllocError>
    ensures { IfOk result (λ r. r ≡ spec.within own tests body) }
{
    match body.kind {
        Kind::Nothing => Ok(nothing(alloc)),
        Kind::OneUpdate | Kind::Other => joined(own, tests, body),
    }
}

// An `if` whose test is left as a literal, or isn't.
fn chosen(
    alloc: Global,
    told: Option<i64>,
    value: ExprRest,
    test: Test,
    body: Rest,
) -> Result<Rest, AllocError>
    ensures { IfOk result (λ r. r ≡ spec.chosen_rest told value test body) }
{
    match told {
        Some(n) => { if n == 0 { Ok(nothing(alloc)) } else { Ok(body) } }
        None => {
            let mut tests = Items::new(alloc);
            tests.push(test)?;
            within(alloc, value, tests, body)
        }
    }
}

// A `let`, whose variable is known where a literal is left of its value.
fn binding(alloc: Global, value: ExprRest, body: Rest) -> Result<Rest, AllocError>
    ensures { IfOk result (λ r. r ≡ spec.let_rest value.literal value body) }
{
    match value.literal {
        Some(_) => Ok(body),
        None => within(alloc, value, Items::new(alloc), body),
    }
}

fn updating(
    alloc: Global,
    tensor: u8,
    at: &Seq<Index>,
    left_out: bool,
    value: ExprRest,
) -> Result<Rest, AllocError>
    ensures { IfOk result (λ r. r ≡ spec.updating_rest tensor at.now left_out value) }
{
    if left_out {
        return Ok(nothing(alloc));
    }
    Ok(Rest {
        kind: Kind::OneUpdate,
        reads: value.reads,
        vars: value.vars,
        tests: Items::new(alloc),
        changed: Items::from_slice(alloc, &[tensor])?,
        targets: Items::from_slice(alloc, at.as_slice())?,
    })
}
