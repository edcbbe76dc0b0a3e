//! The code between the parts.
ghost use Rattle.std.specs.Prelude.{◌≡◌, ◌+◌, ◌++◌, ◌∷◌, [], IfOk, pos};
ghost use Rattle.fin_ir.specs.declared.code.Code.TheVariants.{Skip, Seq, Assign, StepLoop};
ghost use Rattle.fin_ir.specs.declared.expression.IExpr.TheVariants.{Num, Local};
ghost use Rattle.fin_style_step.specs.Steps.{divide_at, divided_code, place, least, greatest, jump, steps_code, jumps_code};

use fin_base::Op;
use fin_ir::{Code, IExpr};
use fin_looplet::{Walker, before};
use fin_nest::two;
use sqlite_items::Items;
use std::alloc::{AllocError, Global};

/// The number in the region that is nearest to the stop.
pub(crate) fn divide_at(
    alloc: Global,
    lo: IExpr,
    hi: IExpr,
    stop: IExpr,
) -> Result<IExpr, AllocError>
    ensures { IfOk result (λ e. e ≡ divide_at lo hi stop) }
{
    let upper = two(alloc, Op::Min, stop, hi)?;
    two(alloc, Op::Max, lo, upper)
}

/// The number at which the region is cut in the local, and the codes of what is before and behind, still to come.
pub(crate) fn divided_frame(alloc: Global, local: u32, at: IExpr) -> Result<Code, AllocError>
    ensures { IfOk result (λ c. c ≡ Seq (Assign local at ∷ Skip ∷ Skip ∷ [])) }
{
    let mut codes = Items::new(alloc);
    codes.push(Code::Assign { local, value: at })?;
    codes.push(Code::Skip)?;
    codes.push(Code::Skip)?;
    Ok(Code::Seq(codes))
}

/// Each walker's coordinate and its cursor. There is no memory for a coordinate's local behind the last one that there
/// can be.
pub(crate) fn push_places(
    alloc: Global,
    walkers: &[Walker],
    at: &IExpr,
    codes: &mut Items<Code>,
) -> Result<(), AllocError>
    ensures { IfOk result (λ u. codes.new ≡ codes.old ++ place walkers.now at.now) }
{
    for walker in walkers {
        push_place(alloc, walker, at, codes)?;
    }
    Ok(())
}

fn push_place(
    alloc: Global,
    walker: &Walker,
    at: &IExpr,
    codes: &mut Items<Code>,
) -> Result<(), AllocError>
    ensures { IfOk result (λ u. codes.new ≡ codes.old ++ place (walker.now ∷ []) at.now) }
{
    if walker.cursor == u32::MAX {
        return Err(AllocError);
    }
    let at = at.copy(alloc)?;
    codes.push(Code::Assign {
        local: walker.cursor + 1,
        value: at,
    })?;
    let seek = walker.seek.copy(alloc)?;
    codes.push(Code::Assign {
        local: walker.cursor,
        value: seek,
    })
}

/// The least of the walkers' stops and of the end.
pub(crate) fn least(alloc: Global, walkers: &[Walker], end: IExpr) -> Result<IExpr, AllocError>
    ensures { IfOk result (λ e. e ≡ least walkers.now end) }
{
    let mut joint = end;
    for walker in walkers {
        let stop = walker.stop.copy(alloc)?;
        joint = two(alloc, Op::Min, stop, joint)?;
    }
    Ok(joint)
}

/// The greatest of the walkers' stops and of another number.
pub(crate) fn greatest(alloc: Global, walkers: &[Walker], from: IExpr) -> Result<IExpr, AllocError>
    ensures { IfOk result (λ e. e ≡ greatest walkers.now from) }
{
    let mut joint = from;
    for walker in walkers {
        let stop = walker.stop.copy(alloc)?;
        joint = two(alloc, Op::Max, stop, joint)?;
    }
    Ok(joint)
}
