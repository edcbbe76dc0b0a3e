//! The words of the command line: `finch MODE [--workers N] [--budget N] [--stats] [--seed N] [--size N]`.
//!
//! The first word is passed over. MODE is `run`, `check`, `plain` or `gen`. Each option takes a number in
//! its range and has a default; what is outside, missing, unknown or given twice leaves the words without
//! a reading, as does a request for help or the version.
#![tactic(auto)]

mod command;
mod mode;
mod words;

pub use mode::{Asked, Mode};
pub use words::{asks_workers, reading};
