//! The nodes of loop code, with their parts in boxes.
ghost use Rattle.std.specs.Prelude.{◌≡◌, ◌++◌, [], ◌∷◌, IfOk, OnOk};
ghost use Rattle.fin_ir.specs.declared.code.Code.TheVariants as code;
ghost use Rattle.fin_ir.specs.declared.expression.IExpr.TheVariants as made;

use fin_base::Op;
use fin_ir::{Code, IExpr, Table};
use sqlite_items::{Boxed, Items};
use std::alloc::{AllocError, Global};

/// A level of a tensor, and the local that has the position in it; the one behind is free for a step.
#[derive(Clone, Copy)]
pub struct Place {
    pub tensor: u8,
    pub level: u8,
    pub at: u32,
}

pub(crate) fn neg(alloc: Global, inner: IExpr) -> Result<IExpr, AllocError>
    ensures { IfOk result (λ e. e ≡ made.Neg inner) }
{
    let inner = Boxed::new(alloc, inner)?;
    Ok(IExpr::Neg(inner))
}

pub(crate) fn two(alloc: Global, op: Op, left: IExpr, right: IExpr) -> Result<IExpr, AllocError>
    ensures { IfOk result (λ e. e ≡ made.Two op left right) }
{
    let left = Boxed::new(alloc, left)?;
    let right = Boxed::new(alloc, right)?;
    Ok(IExpr::Two { op, left, right })
}

pub(crate) fn pick(alloc: Global, test: IExpr, yes: IExpr, no: IExpr) -> Result<IExpr, AllocError>
    ensures { IfOk result (λ e. e ≡ made.Pick test yes no) }
{
    let test = Boxed::new(alloc, test)?;
    let yes = Boxed::new(alloc, yes)?;
    let no = Boxed::new(alloc, no)?;
    Ok(IExpr::Pick { test, yes, no })
}

pub(crate) fn cell(
    alloc: Global,
    tensor: u8,
    level: u8,
    table: Table,
    at: IExpr,
) -> Result<IExpr, AllocError>
    ensures { IfOk result (λ e. e ≡ made.Cell tensor level table at) }
{
    let at = Boxed::new(alloc, at)?;
    Ok(IExpr::Cell {
        tensor,
        level,
        table,
        at,
    })
}

/// A search in the level of a place.
pub(crate) fn seek(
    alloc: Global,
    place: Place,
    from: IExpr,
    to: IExpr,
    key: IExpr,
) -> Result<IExpr, AllocError>
    ensures { IfOk result (λ e. e ≡ made.Seek place.tensor place.level from to key) }
{
    let from = Boxed::new(alloc, from)?;
    let to = Boxed::new(alloc, to)?;
    let key = Boxed::new(alloc, key)?;
    Ok(IExpr::Seek {
        tensor: place.tensor,
        level: place.level,
        from,
        to,
        key,
    })
}

pub(crate) fn val(alloc: Global, tensor: u8, pos: IExpr) -> Result<IExpr, AllocError>
    ensures { IfOk result (λ e. e ≡ made.Val tensor pos) }
{
    let pos = Boxed::new(alloc, pos)?;
    Ok(IExpr::Val { tensor, pos })
}

/// Appends an assignment.
pub fn push(into: &mut Items<Code>, local: u32, value: IExpr) -> Result<(), AllocError>
    ensures { OnOk result (into.new ≡ into.old ++ code.Assign local value ∷ []) }
{
    into.push(Code::Assign { local, value })
}
