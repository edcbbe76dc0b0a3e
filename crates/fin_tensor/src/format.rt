//! How a tensor is stored: a level for each dimension, outermost first, a decoration, and the fill.
ghost use Rattle.std.specs.Prelude.{◌≡◌, IfOk};

use crate::duplicate::Duplicate;
use crate::seq::Seq;
use std::alloc::{AllocError, Global};

/// How one level keeps its coordinates.
#[derive(Clone, Copy, Debug, PartialEq, Eq)]
pub enum Level {
    /// Every coordinate.
    Dense,
    /// The coordinates of a sorted list.
    List,
    /// Runs of equal values, by their ends.
    Runs,
    /// One block of neighbouring coordinates.
    Band,
    /// The coordinates that a map holds.
    Dict,
}

/// How workers share a tensor while it is updated.
#[derive(Clone, Copy, Debug, PartialEq, Eq)]
pub enum Wrap {
    /// Not at all.
    Bare,
    /// By atomic words.
    Atomic,
    /// By a lock for each position that the levels before it make; their number.
    Mutex(u8),
    /// By a part for each worker.
    Shard,
}

/// The levels of a format.
pub type Levels = Seq<Level>;

/// The format of a tensor.
#[derive(Debug, Drop)]
pub struct Format {
    pub levels: Levels,
    pub wrap: Wrap,
    pub fill: i64,
}

impl Duplicate for Level {
    fn copy(&self, _alloc: Global) -> Result<Level, AllocError> {
        Ok(*self)
    }
}

impl Format {
    /// An equal format.
    pub fn copy(&self, alloc: Global) -> Result<Format, AllocError>
        ensures { IfOk result (λ c. c ≡ self.now) }
    {
        let levels = self.levels.copy(alloc)?;
        Ok(Format {
            levels,
            wrap: self.wrap,
            fill: self.fill,
        })
    }
}

impl Duplicate for Format {
    fn copy(&self, alloc: Global) -> Result<Format, AllocError> {
        Format::copy(self, alloc)
    }
}
