//! Expressions and code, built from their parts.
ghost use Rattle.std.specs.Prelude.{◌≡◌, IfOk};
ghost use Rattle.fin_ir.specs.declared.code.Code.TheVariants.{When};
ghost use Rattle.fin_ir.specs.declared.expression.IExpr.TheVariants.{Two};

use fin_base::Op;
use fin_ir::{Code, IExpr};
use sqlite_items::Boxed;
use std::alloc::{AllocError, Global};

/// Two sides under an operator.
pub fn two(alloc: Global, op: Op, left: IExpr, right: IExpr) -> Result<IExpr, AllocError>
    ensures { IfOk result (λ e. e ≡ Two op left right) }
{
    let left = Boxed::new(alloc, left)?;
    let right = Boxed::new(alloc, right)?;
    Ok(IExpr::Two { op, left, right })
}

/// The code, where the test isn't 0.
pub fn when(alloc: Global, test: IExpr, body: Code) -> Result<Code, AllocError>
    ensures { IfOk result (λ c. c ≡ When test body) }
{
    let body = Boxed::new(alloc, body)?;
    Ok(Code::When { test, body })
}

/// Copies of a region's two ends.
pub fn copy_ends(alloc: Global, lo: &IExpr, hi: &IExpr) -> Result<(IExpr, IExpr), AllocError>
    ensures { IfOk result (λ ends. (ends.0 ≡ lo.now) × (ends.1 ≡ hi.now)) }
{
    let lo = lo.copy(alloc)?;
    let hi = hi.copy(alloc)?;
    Ok((lo, hi))
}
