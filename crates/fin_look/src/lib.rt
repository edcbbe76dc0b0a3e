//! What looplets show, in plain numbers, for tables that were worked out by hand.
//!
//! `seen` makes a looplet by the calls of `fin_unfurl`, goes along it by its meaning over the lists of one level, and
//! answers what stands at a coordinate. It is a second reading of what looplets mean, written for tests, and no clause
//! speaks of it. It stands outside of the tests so that these own no looplet: that is more than the prover can tell.
#![tactic(auto)]

mod looks;
mod views;

pub use looks::Lists;
pub use views::{Comparison, Fibre, Made, Place, seen};
