//! A program with what the checks found of it.
ghost use Rattle.std.specs.Prelude.{◌≡◌, IfOk};
ghost use Rattle.fin_ast.specs.OneProof.{FitHeaders-prop};
ghost use Rattle.fin_ast.specs.Shaped.{FitHeaders};

use crate::program::Program;
use fin_base::Updated;
use fin_tensor::{Duplicate, Nums, Seq};
use std::alloc::{AllocError, Global};

/// The extents: a shape for each tensor, by its number, and a range for each variable, (0, 0) for a let.
#[derive(Debug, Drop)]
pub struct Dims {
    pub shapes: Seq<Nums>,
    pub ranges: Seq<(u64, u64)>,
}

/// What a parallel loop updates, by the variable of the loop.
#[derive(Debug, Drop)]
pub struct LoopWays {
    pub var: u32,
    pub of: Seq<Updated>,
}

/// The ways of all parallel loops.
#[derive(Debug, Drop)]
pub struct Ways {
    pub loops: Seq<LoopWays>,
}

/// A program that meets the checks, with its extents and ways. Each tensor can be built: it has an extent for each
/// level, none over 2^40, and its dense extents keep their limit; and no range reaches over 2^40.
#[derive(Debug, Drop)]
pub struct Checked {
    pub program: Program,
    pub dims: Dims,
    pub ways: Ways,
    pub ghost fits: { FitHeaders program.headers dims } by { FitHeaders-prop program.headers dims },
}

impl Dims {
    /// Equal extents.
    pub fn copy(&self, alloc: Global) -> Result<Dims, AllocError>
        ensures { IfOk result (λ d. d ≡ self.now) }
    {
        let shapes = self.shapes.copy(alloc)?;
        let ranges = copy_items(alloc, self.ranges.as_slice())?;
        Ok(Dims { shapes, ranges })
    }
}

impl Duplicate for LoopWays {
    fn copy(&self, alloc: Global) -> Result<LoopWays, AllocError> {
        let of = copy_items(alloc, self.of.as_slice())?;
        Ok(LoopWays { var: self.var, of })
    }
}

impl Ways {
    /// Equal ways.
    pub fn copy(&self, alloc: Global) -> Result<Ways, AllocError>
        ensures { IfOk result (λ w. w ≡ self.now) }
    {
        let loops = self.loops.copy(alloc)?;
        Ok(Ways { loops })
    }
}

impl Checked {
    /// An equal program with its extents and ways.
    pub fn copy(&self, alloc: Global) -> Result<Checked, AllocError>
        ensures { IfOk result (λ c. c ≡ self.now) }
    {
        let program = self.program.copy(alloc)?;
        let dims = self.dims.copy(alloc)?;
        let ways = self.ways.copy(alloc)?;
        Ok(Checked {
            program,
            dims,
            ways,
        })
    }
}

fn copy_items<T: Copy + Drop>(alloc: Global, items: &[T]) -> Result<Seq<T>, AllocError>
    ensures { IfOk result (λ copies. copies ≡ items.now) }
{
    let mut copies = Seq::new(alloc);
    for item in items {
        copies.push(*item)?;
    }
    Ok(copies)
}
