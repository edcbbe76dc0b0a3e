//! The walkers at the head of looplets, and what looplets are before the walkers' stops.
ghost use Rattle.std.specs.Prelude.{◌≡◌, ◌++◌, IfOk, [], map};
ghost use Rattle.fin_looplet.specs.Cut.{cut};
ghost use Rattle.fin_nest.specs.Entries.{looplets};
ghost use Rattle.fin_style_step.specs.Steps.{listed, walkers, stepper, jumper};
ghost use Rattle.fin_style_step.specs.Parts.{kind_of, inside_one, inside_all};

use crate::nest::Kind;
use fin_ir::IExpr;
use fin_looplet::{Looplet, Walker};
use fin_nest::Numbered;
use sqlite_items::Items;
use std::alloc::{AllocError, Global};

/// The walkers of the kind, behind those that are there.
pub(crate) fn push_walkers(
    alloc: Global,
    entries: &[Numbered],
    kind: Kind,
    all: &mut Items<Walker>,
) -> Result<(), AllocError>
    ensures { IfOk result (λ u. all.new ≡ all.old ++ walkers (kind_of kind) (looplets entries.now)) }
{
    for entry in entries {
        push_walker(alloc, &entry.looplet, kind, all)?;
    }
    Ok(())
}

fn push_walker(
    alloc: Global,
    looplet: &Looplet,
    kind: Kind,
    all: &mut Items<Walker>,
) -> Result<(), AllocError>
    ensures { IfOk result (λ u. all.new ≡ all.old ++ listed (kind_of kind looplet.now) []) }
{
    match walker_of(alloc, looplet, kind)? {
        Some(walker) => all.push(walker),
        None => Ok(()),
    }
}

fn walker_of(alloc: Global, looplet: &Looplet, kind: Kind) -> Result<Option<Walker>, AllocError>
    ensures { IfOk result (λ w. w ≡ kind_of kind looplet.now) }
{
    match kind {
        Kind::Stepper => stepper(alloc, looplet),
        Kind::Jumper => jumper(alloc, looplet),
    }
}

fn stepper(alloc: Global, looplet: &Looplet) -> Result<Option<Walker>, AllocError>
    ensures { IfOk result (λ w. w ≡ stepper looplet.now) }
{
    match looplet {
        Looplet::Stepper(walker) => {
            let walker = walker.get().copy(alloc)?;
            Ok(Some(walker))
        }
        _ => Ok(None),
    }
}

fn jumper(alloc: Global, looplet: &Looplet) -> Result<Option<Walker>, AllocError>
    ensures { IfOk result (λ w. w ≡ jumper looplet.now) }
{
    match looplet {
        Looplet::Jumper(walker) => {
            let walker = walker.get().copy(alloc)?;
            Ok(Some(walker))
        }
        _ => Ok(None),
    }
}

/// What the looplets are before the stops of the walkers of the kind, in a region that ended at `end`.
pub(crate) fn inside_all(
    alloc: Global,
    kind: Kind,
    end: &IExpr,
    entries: &[Numbered],
) -> Result<Items<Numbered>, AllocError>
    ensures { IfOk result (λ all. all ≡ inside_all kind end.now entries.now) }
{
    let mut all = Items::new(alloc);
    for entry in entries {
        let looplet = inside_one(alloc, kind, end, &entry.looplet)?;
        all.push(Numbered {
            number: entry.number,
            looplet,
        })?;
    }
    Ok(all)
}

fn inside_one(
    alloc: Global,
    kind: Kind,
    end: &IExpr,
    looplet: &Looplet,
) -> Result<Looplet, AllocError>
    ensures { IfOk result (λ l. l ≡ inside_one kind end.now looplet.now) }
{
    match kind {
        Kind::Stepper => inside_stepper(alloc, end, looplet),
        Kind::Jumper => inside_jumper(alloc, end, looplet),
    }
}

fn inside_stepper(alloc: Global, end: &IExpr, looplet: &Looplet) -> Result<Looplet, AllocError>
    ensures { IfOk result (λ l. l ≡ inside_one Kind.Stepper end.now looplet.now) }
{
    match looplet {
        Looplet::Stepper(walker) => before_stop(alloc, walker.get()),
        _ => looplet.cut(alloc, end),
    }
}

fn inside_jumper(alloc: Global, end: &IExpr, looplet: &Looplet) -> Result<Looplet, AllocError>
    ensures { IfOk result (λ l. l ≡ inside_one Kind.Jumper end.now looplet.now) }
{
    match looplet {
        Looplet::Jumper(walker) => before_stop(alloc, walker.get()),
        _ => looplet.cut(alloc, end),
    }
}

fn before_stop(alloc: Global, walker: &Walker) -> Result<Looplet, AllocError>
    ensures { IfOk result (λ l. l ≡ cut walker.now.stop walker.now.child) }
{
    walker.child.cut(alloc, &walker.stop)
}
