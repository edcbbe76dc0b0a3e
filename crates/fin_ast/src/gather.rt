//! The places of a program.
ghost use Rattle.std.specs.Prelude.{◌≡◌, ◌*◌, IfOk, OnOk, []};
ghost use Rattle.fin_ast.specs.Spine.{expr_of};
ghost use Rattle.fin_ast.specs.Places.{uses_of, places_of_expr, places_of, places_of_all};

use crate::place::Place;
use crate::program::Program;
use crate::spine::Head;
use crate::tree::{Expr, Index, Stmt};
use std::alloc::{AllocError, Global};

impl Program {
    /// The loops, the lets and the indices, in the order of the text.
    pub fn places(&self, alloc: Global) -> Result<Vec<Place>, AllocError>
        ensures { IfOk result (λ places. places.items ≡ places_of_all self.now.body []) }
    {
        let mut places = Vec::new(alloc);
        gather_all(alloc, self.body.as_slice(), &mut places)?;
        Ok(places)
    }
}

#[cycle(gathered)]
fn gather_all(alloc: Global, body: &[Stmt], into: &mut Vec<Place>) -> Result<(), AllocError>
    ensures { OnOk result (into.new.items ≡ places_of_all body.now into.old.items) }
{
    for statement in body {
        gather(alloc, statement, into)?;
    }
    Ok(())
}

#[cycle(gathered)]
fn gather(alloc: Global, statement: &Stmt, into: &mut Vec<Place>) -> Result<(), AllocError>
    ensures { OnOk result (into.new.items ≡ places_of statement.now into.old.items) }
{
    match statement {
        Stmt::Block {
            body,
            line: _,
            last: _,
        } => gather_all(alloc, body.as_slice(), into),
        Stmt::Loop {
            var,
            range,
            par: _,
            body,
            line,
            last: _,
        } => {
            into.push(Place::Loop {
                var: *var,
                range: *range,
                line: *line,
            })?;
            gather_all(alloc, body.as_slice(), into)
        }
        Stmt::Cond {
            test,
            body,
            line: _,
            last: _,
        } => {
            gather_expr(alloc, test, into)?;
            gather_all(alloc, body.as_slice(), into)
        }
        Stmt::Bind {
            var: _,
            value,
            body,
            line: _,
            last: _,
        } => {
            into.push(Place::Let)?;
            gather_expr(alloc, value, into)?;
            gather_all(alloc, body.as_slice(), into)
        }
        Stmt::Update {
            tensor,
            at,
            by: _,
            value,
            line,
        } => {
            gather_uses(*tensor, at.as_slice(), *line, into)?;
            gather_expr(alloc, value, into)
        }
        Stmt::Declare {
            tensor: _,
            value: _,
            line: _,
        }
        | Stmt::Freeze { tensor: _, line: _ }
        | Stmt::Thaw { tensor: _, line: _ } => Ok(()),
    }
}

#[cycle(along)]
fn gather_expr(alloc: Global, expr: &Expr, into: &mut Vec<Place>) -> Result<(), AllocError>
    ensures { OnOk result (into.new.items ≡ places_of_expr expr.now into.old.items) }
{
    let spine = expr.spine(alloc)?;
    let mut sides = spine.sides;
    gather_head(alloc, spine.head, into)?;
    while let Some((_op, right)) = sides.pop() {
        gather_expr(alloc, right, into)?;
    }
    Ok(())
}

#[cycle(along)]
fn gather_head(alloc: Global, head: Head<'_>, into: &mut Vec<Place>) -> Result<(), AllocError>
    ensures { OnOk result (into.new.items ≡ places_of_expr (expr_of head.entry) into.old.items) }
{
    match head {
        Head::Num(_) | Head::Var { var: _, line: _ } => Ok(()),
        Head::Read { tensor, at, line } => gather_uses(tensor, at.as_slice(), line, into),
        Head::Neg(inner) => gather_expr(alloc, inner, into),
    }
}

fn gather_uses(tensor: u8, at: &[Index], line: u32, into: &mut Vec<Place>) -> Result<(), AllocError>
    ensures { OnOk result (into.new.items ≡ uses_of line (8 * tensor) at.now into.old.items) }
{
    let mut dimension = 8 * usize::from(tensor);
    for index in at {
        into.push(Place::Use {
            dimension,
            index: *index,
            line,
        })?;
        dimension += 1;
    }
    Ok(())
}
