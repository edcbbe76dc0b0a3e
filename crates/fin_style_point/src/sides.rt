//! The sides of the first switch.
ghost use Rattle.std.specs.Prelude.{◌≡◌, IfOk};
ghost use Rattle.fin_nest.specs.Entries.{looplets};
ghost use Rattle.fin_style_point.specs.Steps.{alternatives, nothing_there, holds, switch_of};
ghost use Rattle.fin_style_point.specs.Parts.{side, side_of, alternatives_of, chosen, choose, test_of, first_test};

use crate::heads::is_switch;
use crate::nest::Branch;
use fin_ir::IExpr;
use fin_looplet::{Case, Leaf, Looplet};
use fin_nest::Numbered;
use sqlite_items::Items;
use std::alloc::{AllocError, Global};

/// The looplets with the first switch by one of its sides, where it is still to come.
pub(crate) fn choose(
    alloc: Global,
    entries: &[Numbered],
    branch: Branch,
    first: bool,
) -> Result<Items<Numbered>, AllocError>
    ensures { IfOk result (λ all. all ≡ choose branch first entries.now) }
{
    let mut waits = first;
    let mut all = Items::new(alloc);
    for entry in entries {
        let part = chosen(alloc, entry, branch, waits)?;
        waits = waits && !is_switch(&entry.looplet);
        all.push(part)?;
    }
    Ok(all)
}

fn chosen(
    alloc: Global,
    entry: &Numbered,
    branch: Branch,
    waits: bool,
) -> Result<Numbered, AllocError>
    ensures { IfOk result (λ e. e ≡ chosen branch waits entry.now) }
{
    let looplet = if waits {
        side_of(alloc, &entry.looplet, branch)?
    } else {
        entry.looplet.copy(alloc)?
    };
    Ok(Numbered {
        number: entry.number,
        looplet,
    })
}

fn side_of(alloc: Global, looplet: &Looplet, branch: Branch) -> Result<Looplet, AllocError>
    ensures { IfOk result (λ l. l ≡ side_of branch (alternatives looplet.now) looplet.now) }
{
    match looplet {
        Looplet::Switch(cases) => side(alloc, cases.as_slice(), branch),
        _ => looplet.copy(alloc),
    }
}

fn side(alloc: Global, cases: &[Case], branch: Branch) -> Result<Looplet, AllocError>
    ensures { IfOk result (λ l. l ≡ side branch (alternatives_of cases.now)) }
{
    match cases.split_first() {
        None => Ok(nothing_there()),
        Some((first, rest)) => match branch {
            Branch::Taken => first.child.copy(alloc),
            Branch::Others => switch_of(alloc, rest),
        },
    }
}

fn nothing_there() -> Looplet
    ensures { result ≡ nothing_there }
{
    Looplet::Run(Leaf::Fill(0))
}

fn switch_of(alloc: Global, cases: &[Case]) -> Result<Looplet, AllocError>
    ensures { IfOk result (λ l. l ≡ switch_of cases.now) }
{
    match cases.first() {
        None => Ok(nothing_there()),
        Some(first) => {
            if holds(&first.test) {
                return first.child.copy(alloc);
            }
            let cases = copies(alloc, cases)?;
            Ok(Looplet::Switch(cases))
        }
    }
}

// A test that is a literal, and not 0.
fn holds(test: &IExpr) -> bool
    ensures { result ≡ holds test.now }
{
    match test {
        IExpr::Num(n) => *n != 0,
        _ => false,
    }
}

fn copies(alloc: Global, cases: &[Case]) -> Result<Items<Case>, AllocError>
    ensures { IfOk result (λ copies. copies ≡ cases.now) }
{
    let mut copies = Items::new(alloc);
    for case in cases {
        let case = case.copy(alloc)?;
        copies.push(case)?;
    }
    Ok(copies)
}

/// The test of the first switch's first case.
pub(crate) fn first_test(alloc: Global, entries: &[Numbered]) -> Result<IExpr, AllocError>
    ensures { IfOk result (λ e. e ≡ first_test (looplets entries.now)) }
{
    for entry in entries {
        if is_switch(&entry.looplet) {
            return test_of(alloc, &entry.looplet);
        }
    }
    Ok(IExpr::Num(0))
}

fn test_of(alloc: Global, looplet: &Looplet) -> Result<IExpr, AllocError>
    ensures { IfOk result (λ e. e ≡ test_of looplet.now) }
{
    match looplet {
        Looplet::Switch(cases) => case_test(alloc, cases.as_slice()),
        _ => Ok(IExpr::Num(0)),
    }
}

fn case_test(alloc: Global, cases: &[Case]) -> Result<IExpr, AllocError>
    ensures { IfOk result (λ e. e ≡ (alternatives_of cases.now).test) }
{
    match cases.first() {
        None => Ok(IExpr::Num(0)),
        Some(first) => first.test.copy(alloc),
    }
}
