//! The looplet of a shifted index.
ghost use Rattle.std.specs.Prelude.{◌≡◌, ◌≤◌, ◌^◌, IfOk, IfSome};
ghost use Rattle.fin_looplet.specs.declared.looplet.Leaf.TheVariants as shown;
ghost use Rattle.fin_looplet.specs.declared.looplet.Looplet.TheVariants as looplet;
ghost use Rattle.fin_unfurl.specs.Shifts as spec;
ghost use Rattle.fin_unfurl.specs.Shifts.{ShiftsLeaves, ShiftsBreaks, ShiftsStops, ShiftsSound, OwnsTheSame, DependsOnDistance};

use crate::parts::two;
use fin_base::Op;
use fin_ir::IExpr;
use fin_looplet::{Leaf, Looplet, Phase};
use sqlite_items::{Boxed, Items};
use std::alloc::{AllocError, Global};

/// No coordinate of a loop is this one or over it.
const END: i64 = 1_099_511_627_776;

/// No box that ends at 0 or later begins here or before.
const FAR: i64 = -2_199_023_255_553;

/// The looplet moved up by `by`. Where an index may leave its dimension, `edge` is that extent and the fill, which
/// stands outside of it, at the coordinates from 0 to 2^40 - 1.
pub fn shift(
    alloc: Global,
    child: Looplet,
    by: IExpr,
    edge: Option<(u64, i64)>,
) -> Result<Looplet, AllocError>
    requires { IfSome edge (λ e. e.0 ≤ 2 ^ 40) }
    ensures leaves { IfOk result (ShiftsLeaves child by edge) }
    ensures breaks { IfOk result (ShiftsBreaks child by edge) }
    ensures stops { IfOk result (ShiftsStops child by edge) }
    ensures sound { IfOk result (ShiftsSound child by edge) }
    ensures owns { IfOk result (OwnsTheSame child) }
    ensures depends { IfOk result (DependsOnDistance child by) }
    ensures made { IfOk result (λ l. l ≡ spec.shift_of child by edge) }
{
    shifted(alloc, child, by, edge)
}

fn shifted(
    alloc: Global,
    child: Looplet,
    by: IExpr,
    edge: Option<(u64, i64)>,
) -> Result<Looplet, AllocError>
    requires { IfSome edge (λ e. e.0 ≤ 2 ^ 40) }
    ensures { IfOk result (λ l. l ≡ spec.shift_of child by edge) }
{
    match edge {
        None => moved(alloc, child, by),
        Some((extent, fill)) => edged(alloc, child, by, extent, fill),
    }
}

fn moved(alloc: Global, child: Looplet, by: IExpr) -> Result<Looplet, AllocError>
    ensures { IfOk result (λ l. l ≡ looplet.Shift by child) }
{
    let child = Boxed::new(alloc, child)?;
    Ok(Looplet::Shift { by, child })
}

fn edged(
    alloc: Global,
    child: Looplet,
    by: IExpr,
    extent: u64,
    fill: i64,
) -> Result<Looplet, AllocError>
    requires { extent ≤ 2 ^ 40 }
    ensures { IfOk result (λ l. l ≡ spec.edged child by extent fill) }
{
    let first = by.copy(alloc)?;
    let within = boxed(alloc, child, by, extent)?;
    let mut phases = Items::new(alloc);
    phases.push(outside(fill, first))?;
    phases.push(within)?;
    phases.push(outside(fill, IExpr::Num(END)))?;
    Ok(Looplet::Sequence(phases))
}

fn boxed(alloc: Global, child: Looplet, by: IExpr, extent: u64) -> Result<Phase, AllocError>
    requires { extent ≤ 2 ^ 40 }
    ensures { IfOk result (λ p. p ≡ spec.boxed child by extent) }
{
    let begin = near(alloc, &by)?;
    let stop = two(alloc, Op::Add, begin, IExpr::Num(extent as i64))?;
    let child = moved(alloc, child, by)?;
    Ok(Phase { stop, child })
}

// Where the box begins, brought into what stops can say.
fn near(alloc: Global, by: &IExpr) -> Result<IExpr, AllocError>
    ensures { IfOk result (λ e. e ≡ spec.near by.now) }
{
    let by = by.copy(alloc)?;
    let least = two(alloc, Op::Min, by, IExpr::Num(END))?;
    two(alloc, Op::Max, least, IExpr::Num(FAR))
}

fn outside(fill: i64, stop: IExpr) -> Phase
    ensures { result ≡ spec.outside fill stop }
{
    Phase {
        stop,
        child: Looplet::Run(gap(fill)),
    }
}

fn gap(fill: i64) -> Leaf
    ensures { result ≡ shown.Fill fill }
{
    Leaf::Fill(fill)
}
