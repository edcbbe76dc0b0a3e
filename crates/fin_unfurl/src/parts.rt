//! Expressions and leaves, with their parts in boxes.
ghost use Rattle.std.specs.Prelude.{◌≡◌, ◌+◌, ◌<◌, ◌^◌, IfOk};
ghost use Rattle.fin_ir.specs.declared.expression.IExpr.TheVariants as made;
ghost use Rattle.fin_unfurl.specs.Parts as spec;

use crate::fibre::Fibre;
use fin_base::Op;
use fin_ir::{IExpr, Table};
use fin_looplet::Leaf;
use sqlite_items::Boxed;
use std::alloc::{AllocError, Global};

pub(crate) fn two(alloc: Global, op: Op, left: IExpr, right: IExpr) -> Result<IExpr, AllocError>
    ensures { IfOk result (λ e. e ≡ made.Two op left right) }
{
    let left = Boxed::new(alloc, left)?;
    let right = Boxed::new(alloc, right)?;
    Ok(IExpr::Two { op, left, right })
}

pub(crate) fn pick(alloc: Global, test: IExpr, yes: IExpr, no: IExpr) -> Result<IExpr, AllocError>
    ensures { IfOk result (λ e. e ≡ made.Pick test yes no) }
{
    let test = Boxed::new(alloc, test)?;
    let yes = Boxed::new(alloc, yes)?;
    let no = Boxed::new(alloc, no)?;
    Ok(IExpr::Pick { test, yes, no })
}

/// One more.
pub(crate) fn next(alloc: Global, e: IExpr) -> Result<IExpr, AllocError>
    ensures { IfOk result (λ s. s ≡ spec.next e) }
{
    two(alloc, Op::Add, e, IExpr::Num(1))
}

/// A number of a list of the fibre's level.
pub(crate) fn cell(
    alloc: Global,
    fibre: Fibre,
    table: Table,
    at: IExpr,
) -> Result<IExpr, AllocError>
    ensures { IfOk result (λ e. e ≡ spec.cell fibre table at) }
{
    let at = Boxed::new(alloc, at)?;
    Ok(IExpr::Cell {
        tensor: fibre.tensor,
        level: fibre.level,
        table,
        at,
    })
}

/// Where the fibre begins.
pub(crate) fn begin(alloc: Global, fibre: Fibre, pos: &IExpr) -> Result<IExpr, AllocError>
    ensures { IfOk result (λ e. e ≡ spec.begin fibre pos.now) }
{
    let pos = pos.copy(alloc)?;
    cell(alloc, fibre, Table::Ptr, pos)
}

/// Where the fibre ends.
pub(crate) fn end(alloc: Global, fibre: Fibre, pos: &IExpr) -> Result<IExpr, AllocError>
    ensures { IfOk result (λ e. e ≡ spec.end fibre pos.now) }
{
    let pos = pos.copy(alloc)?;
    let after = next(alloc, pos)?;
    cell(alloc, fibre, Table::Ptr, after)
}

/// The place in the fibre for the coordinate in the local above the cursor.
pub(crate) fn seek(alloc: Global, fibre: Fibre, pos: &IExpr) -> Result<IExpr, AllocError>
    requires { fibre.cursor + 1 < 2 ^ 32 }
    ensures { IfOk result (λ e. e ≡ spec.place fibre pos.now) }
{
    let from = begin(alloc, fibre, pos)?;
    let from = Boxed::new(alloc, from)?;
    let to = end(alloc, fibre, pos)?;
    let to = Boxed::new(alloc, to)?;
    let key = Boxed::new(alloc, IExpr::Local(fibre.cursor + 1))?;
    Ok(IExpr::Seek {
        tensor: fibre.tensor,
        level: fibre.level,
        from,
        to,
        key,
    })
}

/// What stands at a position below the fibre's level.
pub(crate) fn leaf(alloc: Global, fibre: Fibre, pos: IExpr) -> Result<Leaf, AllocError>
    ensures { IfOk result (λ l. l ≡ spec.leaf fibre pos) }
{
    match fibre.below {
        Some(level) => Ok(Leaf::Sub {
            tensor: fibre.tensor,
            level,
            pos,
            there: IExpr::Num(1),
        }),
        None => {
            let pos = Boxed::new(alloc, pos)?;
            Ok(Leaf::Value(IExpr::Val {
                tensor: fibre.tensor,
                pos,
            }))
        }
    }
}
