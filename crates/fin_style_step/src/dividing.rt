//! The looplets up to the stop of the first sequence, and behind it.
ghost use Rattle.std.specs.Prelude.{◌≡◌, IfOk};
ghost use Rattle.fin_nest.specs.Entries.{looplets};
ghost use Rattle.fin_style_step.specs.Steps.{nothing_there, sequence_of, phased};
ghost use Rattle.fin_style_step.specs.Parts.{phased_by, before_stop, behind_stop, here_one, others_one};
ghost use Rattle.fin_style_step.specs.Parts.{here_all, others_all, stop_of, first_stop};

use crate::heads::is_sequence;
use fin_ir::IExpr;
use fin_looplet::{Leaf, Looplet, Phase};
use fin_nest::Numbered;
use sqlite_items::Items;
use std::alloc::{AllocError, Global};

/// The looplets up to the stop of the first sequence, where that is still to come; others are cut at `end`.
pub(crate) fn here_all(
    alloc: Global,
    end: &IExpr,
    entries: &[Numbered],
    first: bool,
) -> Result<Items<Numbered>, AllocError>
    ensures { IfOk result (λ all. all ≡ here_all end.now first entries.now) }
{
    let mut waits = first;
    let mut all = Items::new(alloc);
    for entry in entries {
        let looplet = here_one(alloc, end, &entry.looplet, waits)?;
        waits = waits && !is_sequence(&entry.looplet);
        all.push(numbered(entry.number, looplet))?;
    }
    Ok(all)
}

fn numbered(number: u32, looplet: Looplet) -> Numbered
    ensures { result ≡ record { number = number; looplet = looplet } }
{
    Numbered { number, looplet }
}

fn here_one(
    alloc: Global,
    end: &IExpr,
    looplet: &Looplet,
    waits: bool,
) -> Result<Looplet, AllocError>
    ensures { IfOk result (λ l. l ≡ here_one end.now waits looplet.now) }
{
    if waits {
        return before_stop(alloc, end, looplet);
    }
    looplet.cut(alloc, end)
}

fn before_stop(alloc: Global, end: &IExpr, looplet: &Looplet) -> Result<Looplet, AllocError>
    ensures { IfOk result (λ l. l ≡ before_stop end.now (phased looplet.now) looplet.now) }
{
    match looplet {
        Looplet::Sequence(phases) => first_child(alloc, phases.as_slice()),
        _ => looplet.cut(alloc, end),
    }
}

fn first_child(alloc: Global, phases: &[Phase]) -> Result<Looplet, AllocError>
    ensures { IfOk result (λ l. l ≡ (phased_by phases.now).here) }
{
    match phases.first() {
        None => Ok(nothing_there()),
        Some(first) => first.child.cut(alloc, &first.stop),
    }
}

fn nothing_there() -> Looplet
    ensures { result ≡ nothing_there }
{
    Looplet::Run(Leaf::Fill(0))
}

/// The looplets behind the stop of the first sequence, where that is still to come.
pub(crate) fn others_all(
    alloc: Global,
    entries: &[Numbered],
    first: bool,
) -> Result<Items<Numbered>, AllocError>
    ensures { IfOk result (λ all. all ≡ others_all first entries.now) }
{
    let mut waits = first;
    let mut all = Items::new(alloc);
    for entry in entries {
        let looplet = others_one(alloc, &entry.looplet, waits)?;
        waits = waits && !is_sequence(&entry.looplet);
        all.push(numbered(entry.number, looplet))?;
    }
    Ok(all)
}

fn others_one(alloc: Global, looplet: &Looplet, waits: bool) -> Result<Looplet, AllocError>
    ensures { IfOk result (λ l. l ≡ others_one waits looplet.now) }
{
    if waits {
        return behind_stop(alloc, looplet);
    }
    looplet.copy(alloc)
}

fn behind_stop(alloc: Global, looplet: &Looplet) -> Result<Looplet, AllocError>
    ensures { IfOk result (λ l. l ≡ behind_stop (phased looplet.now) looplet.now) }
{
    match looplet {
        Looplet::Sequence(phases) => other_phases(alloc, phases.as_slice()),
        _ => looplet.copy(alloc),
    }
}

fn other_phases(alloc: Global, phases: &[Phase]) -> Result<Looplet, AllocError>
    ensures { IfOk result (λ l. l ≡ (phased_by phases.now).others) }
{
    match phases.split_first() {
        None => Ok(nothing_there()),
        Some((_, rest)) => sequence_of(alloc, rest),
    }
}

fn sequence_of(alloc: Global, phases: &[Phase]) -> Result<Looplet, AllocError>
    ensures { IfOk result (λ l. l ≡ sequence_of phases.now) }
{
    if phases.is_empty() {
        return Ok(nothing_there());
    }
    let phases = copies(alloc, phases)?;
    Ok(Looplet::Sequence(phases))
}

fn copies(alloc: Global, phases: &[Phase]) -> Result<Items<Phase>, AllocError>
    ensures { IfOk result (λ copies. copies ≡ phases.now) }
{
    let mut copies = Items::new(alloc);
    for phase in phases {
        let phase = phase.copy(alloc)?;
        copies.push(phase)?;
    }
    Ok(copies)
}

/// The stop of the first sequence's first phase.
pub(crate) fn first_stop(alloc: Global, entries: &[Numbered]) -> Result<IExpr, AllocError>
    ensures { IfOk result (λ e. e ≡ first_stop (looplets entries.now)) }
{
    for entry in entries {
        if let Some(stop) = stop_of(alloc, &entry.looplet)? {
            return Ok(stop);
        }
    }
    Ok(IExpr::Num(0))
}

fn stop_of(alloc: Global, looplet: &Looplet) -> Result<Option<IExpr>, AllocError>
    ensures { IfOk result (λ o. o ≡ stop_of (phased looplet.now)) }
{
    match looplet {
        Looplet::Sequence(phases) => {
            let stop = first_phase_stop(alloc, phases.as_slice())?;
            Ok(Some(stop))
        }
        _ => Ok(None),
    }
}

fn first_phase_stop(alloc: Global, phases: &[Phase]) -> Result<IExpr, AllocError>
    ensures { IfOk result (λ e. e ≡ (phased_by phases.now).stop) }
{
    match phases.first() {
        None => Ok(IExpr::Num(0)),
        Some(first) => first.stop.copy(alloc),
    }
}
