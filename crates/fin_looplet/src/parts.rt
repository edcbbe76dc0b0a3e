//! Small expressions.
ghost use Rattle.std.specs.Prelude.{◌≡◌, ◌^◌, ◌+◌, pos, negsuc, IfOk};
ghost use Rattle.fin_looplet.specs.Cut.{plus, minus, before, cap};
ghost use Rattle.fin_looplet.specs.Moved.{clip, lowered, raised};

use fin_base::Op;
use fin_ir::IExpr;
use sqlite_items::Boxed;
use std::alloc::{AllocError, Global};

/// Over each coordinate that a region has.
const FAR: i64 = 1 << 43;

fn two(alloc: Global, op: Op, left: IExpr, right: IExpr) -> Result<IExpr, AllocError>
    ensures { IfOk result (λ e. e ≡ IExpr.Two op left right) }
{
    let left = Boxed::new(alloc, left)?;
    let right = Boxed::new(alloc, right)?;
    Ok(IExpr::Two { op, left, right })
}

/// The sum of two expressions.
pub fn plus(alloc: Global, left: IExpr, right: IExpr) -> Result<IExpr, AllocError>
    ensures { IfOk result (λ e. e ≡ plus left right) }
{
    two(alloc, Op::Add, left, right)
}

/// The difference of two expressions.
pub fn minus(alloc: Global, left: IExpr, right: IExpr) -> Result<IExpr, AllocError>
    ensures { IfOk result (λ e. e ≡ minus left right) }
{
    two(alloc, Op::Sub, left, right)
}

/// The number before that of the expression.
pub fn before(alloc: Global, e: IExpr) -> Result<IExpr, AllocError>
    ensures { IfOk result (λ b. b ≡ before e) }
{
    plus(alloc, e, IExpr::Num(-1))
}

/// The expression, at most 2^43.
pub(crate) fn cap(alloc: Global, e: IExpr) -> Result<IExpr, AllocError>
    ensures { IfOk result (λ c. c ≡ cap e) }
{
    two(alloc, Op::Min, e, IExpr::Num(FAR))
}

/// The expression, brought between -2^43 and 2^43.
fn clip(alloc: Global, e: IExpr) -> Result<IExpr, AllocError>
    ensures { IfOk result (λ c. c ≡ clip e) }
{
    let e = cap(alloc, e)?;
    two(alloc, Op::Max, e, IExpr::Num(-FAR - 1))
}

/// The local less the distance.
pub(crate) fn lowered(alloc: Global, local: u32, by: &IExpr) -> Result<IExpr, AllocError>
    ensures { IfOk result (λ e. e ≡ lowered local by.now) }
{
    let by = by.copy(alloc)?;
    minus(alloc, IExpr::Local(local), by)
}

/// The stop, brought into range, and the distance.
pub(crate) fn raised(alloc: Global, by: &IExpr, stop: &IExpr) -> Result<IExpr, AllocError>
    ensures { IfOk result (λ e. e ≡ raised by.now stop.now) }
{
    let stop = stop.copy(alloc)?;
    let stop = clip(alloc, stop)?;
    let by = by.copy(alloc)?;
    plus(alloc, stop, by)
}
