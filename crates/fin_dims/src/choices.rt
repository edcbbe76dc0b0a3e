//! The choices of loops.
ghost use Rattle.std.specs.Prelude.{◌≡◌, IfOk, slice_get};
ghost use Rattle.fin_ast.specs.Spine.{expr_of};
ghost use Rattle.fin_ast.specs.Choices.{choices_of_expr, choices_in, first_in, crowd_of, crowds_of, levels_of};
ghost use Rattle.fin_ast.specs.Choices as counted;

use crate::breach::broken;
use fin_ast::{Expr, Head, Header, Index, Stmt};
use fin_base::{Refusal, Rule};
use fin_tensor::Level;
use std::alloc::{AllocError, Global};

/// The first loop that stands in no other loop and holds more than 8 choices.
#[cycle(crowd)]
pub fn first_crowd(
    alloc: Global,
    headers: &[Header],
    body: &[Stmt],
) -> Result<Option<Refusal>, AllocError>
    ensures { IfOk result (λ crowd. crowd ≡ first_in (crowds_of headers.now body.now)) }
{
    for statement in body {
        if let Some(refusal) = crowd(alloc, headers, statement)? {
            return Ok(Some(refusal));
        }
    }
    Ok(None)
}

#[cycle(crowd)]
fn crowd(alloc: Global, headers: &[Header], statement: &Stmt) -> Result<Option<Refusal>, AllocError>
    ensures { IfOk result (λ crowd. crowd ≡ (crowd_of headers.now statement.now).first) }
{
    match statement {
        Stmt::Loop {
            var: _,
            range: _,
            par: _,
            body,
            line,
            last: _,
        } => {
            let choices = choices_of_all(alloc, headers, body.as_slice(), 0)?;
            Ok(broken(8 < choices, Rule::B3, *line))
        }
        Stmt::Block {
            body,
            line: _,
            last: _,
        } => first_crowd(alloc, headers, body.as_slice()),
        Stmt::Cond {
            test: _,
            body,
            line: _,
            last: _,
        } => first_crowd(alloc, headers, body.as_slice()),
        Stmt::Bind {
            var: _,
            value: _,
            body,
            line: _,
            last: _,
        } => first_crowd(alloc, headers, body.as_slice()),
        _ => Ok(None),
    }
}

#[cycle(counted)]
fn choices_of_all(
    alloc: Global,
    headers: &[Header],
    body: &[Stmt],
    before: u8,
) -> Result<u8, AllocError>
    ensures { IfOk result (λ n. n ≡ choices_in (crowds_of headers.now body.now) before) }
{
    let mut choices = before;
    for statement in body {
        choices = choices_of(alloc, headers, statement, choices)?;
    }
    Ok(choices)
}

#[cycle(counted)]
fn choices_of(
    alloc: Global,
    headers: &[Header],
    statement: &Stmt,
    before: u8,
) -> Result<u8, AllocError>
    ensures { IfOk result (λ n. n ≡ (crowd_of headers.now statement.now).choices before) }
{
    match statement {
        Stmt::Block {
            body,
            line: _,
            last: _,
        } => choices_of_all(alloc, headers, body.as_slice(), before),
        Stmt::Loop {
            var: _,
            range: _,
            par: _,
            body,
            line: _,
            last: _,
        } => choices_of_all(alloc, headers, body.as_slice(), before),
        Stmt::Cond {
            test,
            body,
            line: _,
            last: _,
        } => {
            let tested = choices_of_value(alloc, headers, test, one_more(before))?;
            choices_of_all(alloc, headers, body.as_slice(), tested)
        }
        Stmt::Bind {
            var: _,
            value,
            body,
            line: _,
            last: _,
        } => {
            let valued = choices_of_value(alloc, headers, value, before)?;
            choices_of_all(alloc, headers, body.as_slice(), valued)
        }
        Stmt::Update {
            tensor: _,
            at: _,
            by: _,
            value,
            line: _,
        } => choices_of_value(alloc, headers, value, before),
        _ => Ok(before),
    }
}

// A sum may have millions of terms, and groups to the left: a loop and no recursion there.
#[cycle(along)]
fn choices_of_value(
    alloc: Global,
    headers: &[Header],
    expr: &Expr,
    before: u8,
) -> Result<u8, AllocError>
    ensures { IfOk result (λ n. n ≡ choices_of_expr headers.now expr.now before) }
{
    let spine = expr.spine(alloc)?;
    let mut choices = choices_of_head(alloc, headers, spine.head, before)?;
    let mut sides = spine.sides;
    while let Some((_op, right)) = sides.pop() {
        let behind = choices_of_value(alloc, headers, right, choices)?;
        choices = behind;
    }
    Ok(choices)
}

#[cycle(along)]
fn choices_of_head(
    alloc: Global,
    headers: &[Header],
    head: Head<'_>,
    before: u8,
) -> Result<u8, AllocError>
    ensures { IfOk result (λ n. n ≡ choices_of_expr headers.now (expr_of head.entry) before) }
{
    match head {
        Head::Num(_) | Head::Var { var: _, line: _ } => Ok(before),
        Head::Read {
            tensor,
            at,
            line: _,
        } => Ok(choices_of_read(headers, tensor, at.as_slice(), before)),
        Head::Neg(inner) => choices_of_value(alloc, headers, inner, before),
    }
}

fn choices_of_read(headers: &[Header], tensor: u8, at: &[Index], before: u8) -> u8
    ensures { result ≡ counted.choices_at (levels_of (slice_get headers.now tensor)) at.now before }
{
    match headers.get(tensor as usize) {
        Some(header) => choices_at(header.format.levels.as_slice(), at, before),
        None => before,
    }
}

fn choices_at(levels: &[Level], at: &[Index], before: u8) -> u8
    ensures { result ≡ counted.choices_at levels.now at.now before }
{
    let mut choices = before;
    for k in 0..levels.len().min(at.len()) {
        choices = choice_at(levels[k], at[k], choices);
    }
    choices
}

fn choice_at(level: Level, index: Index, before: u8) -> u8
    ensures { result ≡ counted.choice_at level index before }
{
    if level == Level::Dense && !index.loose {
        before
    } else {
        one_more(before)
    }
}

fn one_more(choices: u8) -> u8
    ensures { result ≡ counted.one_more choices }
{
    if choices < 9 { choices + 1 } else { choices }
}
