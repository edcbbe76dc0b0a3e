//! The small words of programs: operators, protocols, and the ways in which a parallel loop updates a tensor.
use crate::reduce::Reduce;

/// An operator between two values. A comparison gives 1 or 0; the others are those of the reductions, and the
/// difference.
#[derive(Clone, Copy, Debug, PartialEq, Eq)]
pub enum Op {
    /// `+`
    Add,
    /// `-`
    Sub,
    /// `*`
    Mul,
    /// `min`
    Min,
    /// `max`
    Max,
    /// `and`
    And,
    /// `or`
    Or,
    /// `xor`
    Xor,
    /// `<`
    Lt,
    /// `<=`
    Le,
    /// `>`
    Gt,
    /// `>=`
    Ge,
    /// `==`
    Eq,
    /// `!=`
    Ne,
}

/// How a loop goes through a level that it reads.
#[derive(Clone, Copy, Debug, PartialEq, Eq)]
pub enum Proto {
    /// Coordinate by coordinate of what is stored.
    Walk,
    /// By leaps, where it alone decides which coordinates matter.
    Gallop,
    /// By a search at each coordinate of the loop.
    Follow,
}

/// How the chunks of a parallel loop update a tensor that is declared outside it.
#[derive(Clone, Copy, Debug, PartialEq, Eq)]
pub enum Way {
    /// Each chunk has rows of its own.
    Rows,
    /// By atomic words.
    Word,
    /// By taking the turn of a position.
    Turn,
    /// By a part for each worker.
    Shard,
}

/// A tensor that a parallel loop updates.
#[derive(Clone, Copy, Debug, PartialEq, Eq)]
pub struct Updated {
    /// The tensor, by the place of its header.
    pub tensor: u8,
    /// How the chunks share it.
    pub way: Way,
    /// What each update does.
    pub by: Reduce,
}
