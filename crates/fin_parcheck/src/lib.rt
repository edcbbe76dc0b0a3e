//! Parallel loops: how each updates the tensors that are declared outside it, and whether that is safe.
//!
//! A tensor is outer to a parallel loop where it is declared at the loop's beginning. `ways` gives each parallel loop
//! one way for each outer tensor that it updates: rows of its own, where the first level is dense and each update in
//! the loop has the loop's variable as its first index; else what the format's decoration says, atomic words, turns of
//! positions, or shards. It refuses a program by its first breach in text order: an outer tensor is updated by `=`
//! (`C1`), by two reductions (`C2`), or in a format that has no way for that (`C3`), and the way isn't rows; a parallel
//! loop stands in a parallel loop (`C4`); or an outer tensor is frozen or thawed in one (`C5`).
#![tactic(auto)]

mod breach;
mod declared;
mod deeds;
mod loops;
mod safety;
mod usages;

pub use deeds::{Deed, ParallelLoop};
pub use safety::ways;
pub use usages::Usage;
