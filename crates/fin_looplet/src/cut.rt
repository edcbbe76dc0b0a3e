//! Looplets that are cut at the end of their region.
ghost use Rattle.std.specs.Prelude.{◌≡◌, IfOk, map};
ghost use Rattle.fin_looplet.specs.Cut.{before, cap, minus, cut, cut_case, two_runs};

use crate::looplet::{Case, Leaf, Looplet, Phase};
use crate::parts::{before, cap, minus};
use fin_ir::IExpr;
use sqlite_items::{Boxed, Items};
use std::alloc::{AllocError, Global};

impl Looplet {
    /// What the looplet of a region that ends at `end` is in any region that ends before.
    #[cycle(cut)]
    pub fn cut(&self, alloc: Global, end: &IExpr) -> Result<Looplet, AllocError>
        ensures { IfOk result (λ l. l ≡ cut end.now self.now) }
    {
        match self {
            Looplet::Spike { body, tail } => {
                let end = capped(alloc, end)?;
                two_runs(alloc, &end, body, tail)
            }
            Looplet::Switch(cases) => {
                let cases = cut_cases(alloc, cases.as_slice(), end)?;
                Ok(Looplet::Switch(cases))
            }
            Looplet::Shift { by, child } => {
                let child = cut_child(alloc, child.get(), by, end)?;
                let by = by.copy(alloc)?;
                Ok(Looplet::Shift { by, child })
            }
            _ => self.copy(alloc),
        }
    }
}

#[cycle(cut)]
fn cut_child(
    alloc: Global,
    child: &Looplet,
    by: &IExpr,
    end: &IExpr,
) -> Result<Boxed<Looplet>, AllocError>
    ensures { IfOk result (λ l. l ≡ cut (minus (cap end.now) by.now) child.now) }
{
    let end = less(alloc, end, by)?;
    let child = child.cut(alloc, &end)?;
    let child = Boxed::new(alloc, child)?;
    Ok(child)
}

#[cycle(cut)]
fn cut_cases(alloc: Global, cases: &[Case], end: &IExpr) -> Result<Items<Case>, AllocError>
    ensures { IfOk result (λ all. all ≡ map (cut_case end.now) cases.now) }
{
    let mut all = Items::new(alloc);
    for case in cases {
        let test = case.test.copy(alloc)?;
        let child = case.child.cut(alloc, end)?;
        all.push(Case { test, child })?;
    }
    Ok(all)
}

fn capped(alloc: Global, end: &IExpr) -> Result<IExpr, AllocError>
    ensures { IfOk result (λ e. e ≡ cap end.now) }
{
    let end = end.copy(alloc)?;
    cap(alloc, end)
}

/// Where the region of a shifted child ends.
fn less(alloc: Global, end: &IExpr, by: &IExpr) -> Result<IExpr, AllocError>
    ensures { IfOk result (λ e. e ≡ minus (cap end.now) by.now) }
{
    let end = capped(alloc, end)?;
    let by = by.copy(alloc)?;
    minus(alloc, end, by)
}

fn run_until(alloc: Global, stop: IExpr, leaf: &Leaf) -> Result<Phase, AllocError>
    ensures { IfOk result (λ p. p ≡ record { stop = stop; child = Looplet.Run leaf.now }) }
{
    let leaf = leaf.copy(alloc)?;
    Ok(Phase {
        stop,
        child: Looplet::Run(leaf),
    })
}

fn two_runs(alloc: Global, end: &IExpr, body: &Leaf, tail: &Leaf) -> Result<Looplet, AllocError>
    ensures { IfOk result (λ l. l ≡ two_runs end.now body.now tail.now) }
{
    let mut phases = Items::new(alloc);
    let stop = end.copy(alloc)?;
    let stop = before(alloc, stop)?;
    let first = run_until(alloc, stop, body)?;
    phases.push(first)?;
    let stop = end.copy(alloc)?;
    let last = run_until(alloc, stop, tail)?;
    phases.push(last)?;
    Ok(Looplet::Sequence(phases))
}
