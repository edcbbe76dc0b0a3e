//! Modes of tensors.

/// What may be done with a tensor at a place of a program.
#[derive(Clone, Copy, Debug, PartialEq, Eq)]
pub enum Mode {
    /// Nothing, until it is declared.
    Undeclared,
    /// Updates.
    Update,
    /// Reads.
    Read,
}
