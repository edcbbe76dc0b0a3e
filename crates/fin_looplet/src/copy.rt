//! Equal copies.
ghost use Rattle.std.specs.Prelude.{◌≡◌, IfOk};

use crate::looplet::{Case, Leaf, Looplet, Phase, Walker};
use fin_tensor::Duplicate;
use sqlite_items::{Boxed, Items};
use std::alloc::{AllocError, Global};

impl Leaf {
    /// An equal leaf.
    pub fn copy(&self, alloc: Global) -> Result<Leaf, AllocError>
        ensures { IfOk result (λ l. l ≡ self.now) }
    {
        match self {
            Leaf::Fill(fill) => Ok(Leaf::Fill(*fill)),
            Leaf::Value(value) => {
                let value = value.copy(alloc)?;
                Ok(Leaf::Value(value))
            }
            Leaf::Sub {
                tensor,
                level,
                pos,
                there,
            } => {
                let pos = pos.copy(alloc)?;
                let there = there.copy(alloc)?;
                Ok(Leaf::Sub {
                    tensor: *tensor,
                    level: *level,
                    pos,
                    there,
                })
            }
        }
    }
}

impl Duplicate for Looplet {
    fn copy(&self, alloc: Global) -> Result<Looplet, AllocError> {
        Looplet::copy(self, alloc)
    }
}

impl Looplet {
    /// An equal looplet.
    #[cycle(copied)]
    pub fn copy(&self, alloc: Global) -> Result<Looplet, AllocError>
        ensures { IfOk result (λ l. l ≡ self.now) }
    {
        match self {
            Looplet::Run(leaf) => {
                let leaf = leaf.copy(alloc)?;
                Ok(Looplet::Run(leaf))
            }
            Looplet::Spike { body, tail } => {
                let body = body.copy(alloc)?;
                let tail = tail.copy(alloc)?;
                Ok(Looplet::Spike { body, tail })
            }
            Looplet::Lookup { coord, leaf } => {
                let leaf = leaf.copy(alloc)?;
                Ok(Looplet::Lookup {
                    coord: *coord,
                    leaf,
                })
            }
            Looplet::Sequence(phases) => {
                let phases = copy_phases(alloc, phases.as_slice())?;
                Ok(Looplet::Sequence(phases))
            }
            Looplet::Stepper(walker) => {
                let walker = copy_walker(alloc, walker.get())?;
                Ok(Looplet::Stepper(walker))
            }
            Looplet::Jumper(walker) => {
                let walker = copy_walker(alloc, walker.get())?;
                Ok(Looplet::Jumper(walker))
            }
            Looplet::Switch(cases) => {
                let cases = copy_cases(alloc, cases.as_slice())?;
                Ok(Looplet::Switch(cases))
            }
            Looplet::Shift { by, child } => {
                let by = by.copy(alloc)?;
                let child = child.get().copy(alloc)?;
                let child = Boxed::new(alloc, child)?;
                Ok(Looplet::Shift { by, child })
            }
        }
    }
}

impl Phase {
    /// An equal phase.
    #[cycle(copied)]
    pub fn copy(&self, alloc: Global) -> Result<Phase, AllocError>
        ensures { IfOk result (λ p. p ≡ self.now) }
    {
        let stop = self.stop.copy(alloc)?;
        let child = self.child.copy(alloc)?;
        Ok(Phase { stop, child })
    }
}

impl Walker {
    /// An equal walker.
    #[cycle(copied)]
    pub fn copy(&self, alloc: Global) -> Result<Walker, AllocError>
        ensures { IfOk result (λ w. w ≡ self.now) }
    {
        let seek = self.seek.copy(alloc)?;
        let stop = self.stop.copy(alloc)?;
        let child = self.child.copy(alloc)?;
        Ok(Walker {
            cursor: self.cursor,
            seek,
            stop,
            child,
        })
    }
}

impl Case {
    /// An equal case.
    #[cycle(copied)]
    pub fn copy(&self, alloc: Global) -> Result<Case, AllocError>
        ensures { IfOk result (λ c. c ≡ self.now) }
    {
        let test = self.test.copy(alloc)?;
        let child = self.child.copy(alloc)?;
        Ok(Case { test, child })
    }
}

#[cycle(copied)]
fn copy_walker(alloc: Global, walker: &Walker) -> Result<Boxed<Walker>, AllocError>
    ensures { IfOk result (λ w. w ≡ walker.now) }
{
    let walker = walker.copy(alloc)?;
    let walker = Boxed::new(alloc, walker)?;
    Ok(walker)
}

#[cycle(copied)]
fn copy_phases(alloc: Global, phases: &[Phase]) -> Result<Items<Phase>, AllocError>
    ensures { IfOk result (λ copies. copies ≡ phases.now) }
{
    let mut copies = Items::new(alloc);
    for phase in phases {
        let phase = phase.copy(alloc)?;
        copies.push(phase)?;
    }
    Ok(copies)
}

#[cycle(copied)]
fn copy_cases(alloc: Global, cases: &[Case]) -> Result<Items<Case>, AllocError>
    ensures { IfOk result (λ copies. copies ≡ cases.now) }
{
    let mut copies = Items::new(alloc);
    for case in cases {
        let case = case.copy(alloc)?;
        copies.push(case)?;
    }
    Ok(copies)
}
