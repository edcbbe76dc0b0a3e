//! Values of expressions.
ghost use Rattle.std.specs.Prelude.{◌≡◌, IfOk, Some, map};
ghost use Rattle.fin_tensor.specs.Stands.{stands};
ghost use Rattle.fin_ast.specs.Dense.{made_at};
ghost use Rattle.fin_ast.specs.Spine.{expr_of};
ghost use Rattle.fin_ast.specs.Value.{place, read as read_of, value_of};
ghost use Rattle.fin_dense.specs.Runs.{seen_in};

use crate::lookups::input;
use crate::points::{coordinates, number};
use crate::run::Run;
use crate::setting::Setting;
use fin_ast::{Expr, Head, Index};
use fin_base::{negate, operate};
use fin_grid::Grid;
use fin_tensor::Storage;
use std::alloc::{AllocError, Global};

/// How many operators one behind the other are gone into by recursion. A sum may have millions of terms, and groups to the
/// left: the rest of a long one is gone along in a loop, which needs memory.
const MOST_DEEP: u32 = 64;

/// The value of an expression.
#[cycle(valued)]
pub fn value(
    alloc: Global,
    setting: &Setting<'_>,
    run: &Run,
    expr: &Expr,
) -> Result<i64, AllocError>
    ensures { IfOk result (λ v. v ≡ value_of expr.now run.now.vars.items (seen_in setting.now run.now)) }
{
    value_below(alloc, setting, run, expr, 0)
}

// So many operators below the beginning of its chain.
#[cycle(valued)]
fn value_below(
    alloc: Global,
    setting: &Setting<'_>,
    run: &Run,
    expr: &Expr,
    depth: u32,
) -> Result<i64, AllocError>
    ensures { IfOk result (λ v. v ≡ value_of expr.now run.now.vars.items (seen_in setting.now run.now)) }
{
    match expr {
        Expr::Num(value) => Ok(*value),
        Expr::Var { var, line: _ } => Ok(number(run.vars.as_slice(), *var)),
        Expr::Read {
            tensor,
            at,
            line: _,
        } => read(alloc, setting, run, *tensor, at.as_slice()),
        Expr::Two { op, left, right } if depth < MOST_DEEP => {
            let left = value_below(alloc, setting, run, left.get(), depth + 1)?;
            let right = value(alloc, setting, run, right.get())?;
            Ok(operate(*op, left, right))
        }
        _ => value_along(alloc, setting, run, expr),
    }
}

#[cycle(valued)]
fn value_along(
    alloc: Global,
    setting: &Setting<'_>,
    run: &Run,
    expr: &Expr,
) -> Result<i64, AllocError>
    ensures { IfOk result (λ v. v ≡ value_of expr.now run.now.vars.items (seen_in setting.now run.now)) }
{
    let spine = expr.spine(alloc)?;
    let mut value = value_at_head(alloc, setting, run, spine.head)?;
    let mut sides = spine.sides;
    while let Some((op, right)) = sides.pop() {
        let right = self::value(alloc, setting, run, right)?;
        value = operate(op, value, right);
    }
    Ok(value)
}

#[cycle(valued)]
fn value_at_head(
    alloc: Global,
    setting: &Setting<'_>,
    run: &Run,
    head: Head<'_>,
) -> Result<i64, AllocError>
    ensures { IfOk result (λ v. v ≡ value_of (expr_of head.entry) run.now.vars.items (seen_in setting.now run.now)) }
{
    match head {
        Head::Num(value) => Ok(value),
        Head::Var { var, line: _ } => Ok(number(run.vars.as_slice(), var)),
        Head::Read {
            tensor,
            at,
            line: _,
        } => read(alloc, setting, run, tensor, at.as_slice()),
        Head::Neg(inner) => {
            let inner = value(alloc, setting, run, inner)?;
            Ok(negate(inner))
        }
    }
}

fn read(
    alloc: Global,
    setting: &Setting<'_>,
    run: &Run,
    tensor: u8,
    at: &[Index],
) -> Result<i64, AllocError>
    ensures { let at = map (place run.now.vars.items) at.now in
        IfOk result (λ v. v ≡ read_of (seen_in setting.now run.now tensor) at) }
{
    match input(setting, tensor) {
        Some(storage) => read_stored(alloc, storage, at, run.vars.as_slice()),
        None => read_made(alloc, run.made.as_slice(), tensor, at, run.vars.as_slice()),
    }
}

fn read_stored(
    alloc: Global,
    storage: &Storage,
    at: &[Index],
    vars: &[i64],
) -> Result<i64, AllocError>
    ensures { IfOk result (λ v. v ≡ read_of (Some (stands storage.now)) (map (place vars.now) at.now)) }
{
    match coordinates(alloc, storage.shape.as_slice(), at, vars)? {
        Some(cs) => Ok(storage.at(cs.as_slice())),
        None => Ok(storage.format.fill),
    }
}

fn read_made(
    alloc: Global,
    made: &[Option<Grid>],
    tensor: u8,
    at: &[Index],
    vars: &[i64],
) -> Result<i64, AllocError>
    ensures { IfOk result (λ v. v ≡ read_of (made_at made.now tensor) (map (place vars.now) at.now)) }
{
    match made.get(tensor as usize) {
        Some(Some(grid)) => match coordinates(alloc, grid.shape(), at, vars)? {
            Some(cs) => Ok(grid.value(&cs)),
            None => Ok(grid.fill()),
        },
        _ => Ok(0),
    }
}
