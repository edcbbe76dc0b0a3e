//! How a mode ends: with an answer, or without one.

/// A status, and the text for the error output.
#[derive(Debug, Drop)]
pub(crate) struct Answer {
    pub(crate) status: u8,
    pub(crate) line: String,
}

/// Why there is no answer.
#[derive(Clone, Copy, Debug, PartialEq, Eq)]
pub(crate) enum Stop {
    /// The source failed.
    ReadFault,
    /// The output failed.
    WriteFault,
    /// Memory ran out.
    Memory,
}
