//! Whether an update, as it is written, names a variable.
ghost use Rattle.std.specs.Prelude.{◌≡◌, IfOk};
ghost use Rattle.fin_ast.specs.Spine.{expr_of};
ghost use Rattle.fin_loops.specs.Only.{names_in, update_names};
ghost use Rattle.fin_stmts.specs.Updates.{written_of};

use crate::fixed::name_var;
use fin_ast::{Expr, Head};
use fin_perform::Update;
use std::alloc::{AllocError, Global};

/// Whether its indices or its value name a variable, the indices of its reads among them.
pub(crate) fn update_names(alloc: Global, var: u32, update: &Update<'_>) -> Result<bool, AllocError>
    ensures { IfOk result (λ b. b ≡ update_names var (written_of update.now)) }
{
    if name_var(update.at, var) {
        return Ok(true);
    }
    names(alloc, var, update.value)
}

// A sum may have millions of terms, and groups to the left: a loop and no recursion there.
#[cycle(naming)]
fn names(alloc: Global, var: u32, e: &Expr) -> Result<bool, AllocError>
    ensures { IfOk result (λ b. b ≡ names_in var e.now) }
{
    let spine = e.spine(alloc)?;
    let mut named = head_names(alloc, var, spine.head)?;
    let mut sides = spine.sides;
    while let Some((op, right)) = sides.pop() {
        let right = names(alloc, var, right)?;
        named = named || right;
    }
    Ok(named)
}

#[cycle(naming)]
fn head_names(alloc: Global, var: u32, head: Head<'_>) -> Result<bool, AllocError>
    ensures { IfOk result (λ b. b ≡ names_in var (expr_of head.entry)) }
{
    match head {
        Head::Num(_) => Ok(false),
        Head::Var { var: own, line: _ } => Ok(own == var),
        Head::Read {
            tensor: _,
            at,
            line: _,
        } => Ok(name_var(at.as_slice(), var)),
        Head::Neg(inner) => names(alloc, var, inner),
    }
}
