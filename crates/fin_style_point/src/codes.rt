//! The frames: the code between the parts.
ghost use Rattle.std.specs.Prelude.{◌≡◌, ◌++◌, IfOk};
ghost use Rattle.fin_ir.specs.declared.expression.IExpr.TheVariants.{Local};
ghost use Rattle.fin_nest.specs.Entries.{looplets};
ghost use Rattle.fin_style_point.specs.Steps.{either_code, within_code, coordinate, coordinates, hold};
ghost use Rattle.fin_style_point.specs.Parts.{nest_test, switch_frame, turn_frame, loop_frame};

use crate::heads::any_switch;
use crate::nest::Nest;
use crate::sides::first_test;
use fin_base::Op;
use fin_ir::{Code, IExpr};
use fin_looplet::Looplet;
use fin_nest::{Numbered, copy_ends, two, when};
use sqlite_items::{Boxed, Items};
use std::alloc::{AllocError, Global};

/// The first part where the test isn't 0, and else the second one; the test's value stands in the local.
pub(crate) fn switch_frame(alloc: Global, nest: &Nest) -> Result<Code, AllocError>
    ensures { IfOk result (λ c. c ≡ switch_frame nest.now) }
{
    let test = nest_test(alloc, nest)?;
    either_code(alloc, nest.next, test, Code::Skip, Code::Skip)
}

fn nest_test(alloc: Global, nest: &Nest) -> Result<IExpr, AllocError>
    ensures { IfOk result (λ e. e ≡ nest_test nest.now) }
{
    if any_switch(nest.reads.as_slice()) {
        return first_test(alloc, nest.reads.as_slice());
    }
    first_test(alloc, nest.masks.as_slice())
}

/// The first code where the test isn't 0, and else the second one; the test's value stands in the local.
pub fn either_code(
    alloc: Global,
    local: u32,
    test: IExpr,
    taken: Code,
    others: Code,
) -> Result<Code, AllocError>
    ensures { IfOk result (λ c. c ≡ either_code local test taken others) }
{
    let mut codes = Items::new(alloc);
    codes.push(Code::Assign { local, value: test })?;
    let first = when(alloc, IExpr::Local(local), taken)?;
    codes.push(first)?;
    let off = two(alloc, Op::Eq, IExpr::Local(local), IExpr::Num(0))?;
    let second = when(alloc, off, others)?;
    codes.push(second)?;
    Ok(Code::Seq(codes))
}

/// One coordinate after another, in the local `next` and in those of the lookups.
pub(crate) fn loop_frame(alloc: Global, nest: &Nest) -> Result<Code, AllocError>
    ensures { IfOk result (λ c. c ≡ loop_frame nest.now) }
{
    let body = turn_frame(alloc, nest)?;
    let body = Boxed::new(alloc, body)?;
    let (lo, hi) = copy_ends(alloc, &nest.lo, &nest.hi)?;
    Ok(Code::ForLoop {
        var: nest.next,
        lo,
        hi,
        body,
    })
}

fn turn_frame(alloc: Global, nest: &Nest) -> Result<Code, AllocError>
    ensures { IfOk result (λ c. c ≡ turn_frame nest.now) }
{
    let mut codes = Items::new(alloc);
    push_holds(nest.reads.as_slice(), nest.next, &mut codes)?;
    push_holds(nest.masks.as_slice(), nest.next, &mut codes)?;
    codes.push(Code::Skip)?;
    Ok(Code::Seq(codes))
}

/// The coordinate in the local of each lookup.
fn push_holds(entries: &[Numbered], local: u32, codes: &mut Items<Code>) -> Result<(), AllocError>
    ensures { IfOk result (λ u. codes.new ≡ codes.old ++ hold (coordinates (looplets entries.now)) (Local local)) }
{
    for entry in entries {
        push_hold(&entry.looplet, local, codes)?;
    }
    Ok(())
}

fn push_hold(looplet: &Looplet, local: u32, codes: &mut Items<Code>) -> Result<(), AllocError>
    ensures { IfOk result (λ u. codes.new ≡ codes.old ++ hold (coordinate looplet.now) (Local local)) }
{
    match looplet {
        Looplet::Lookup { coord, leaf: _ } => codes.push(Code::Assign {
            local: *coord,
            value: IExpr::Local(local),
        }),
        _ => Ok(()),
    }
}

/// The code, where there is a coordinate from `lo` on and before `hi`.
pub fn within_code(alloc: Global, lo: IExpr, hi: IExpr, once: Code) -> Result<Code, AllocError>
    ensures { IfOk result (λ c. c ≡ within_code lo hi once) }
{
    let some = two(alloc, Op::Lt, lo, hi)?;
    when(alloc, some, once)
}
