//! What the rules on extents look at: binders, and the indices of accesses.
use crate::tree::Index;

/// A loop, a let, or an index of an access. Those of a program stand in the order of its text.
#[derive(Clone, Copy, Debug)]
pub enum Place {
    /// A loop, with its range where it has one.
    Loop {
        var: u32,
        range: Option<(u64, u64)>,
        line: u32,
    },
    /// A let.
    Let,
    /// The index at a dimension of a tensor, on the line of the tensor's name. Level k of the tensor t is the
    /// dimension 8 t + k, since a tensor has at most 8 levels.
    Use {
        dimension: usize,
        index: Index,
        line: u32,
    },
}

/// An index that is a bare variable of a loop without range ties its dimension to the loop.
#[derive(Clone, Copy, Debug)]
pub struct Tie {
    pub dimension: usize,
    pub var: u32,
    pub line: u32,
}
