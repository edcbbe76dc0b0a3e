//! Gives each dimension and loop of a program the number to which ties join it, or refuses.
//!
//! `infer` answers exactly the numbers that chains of ties give, or the first breach of the rules on extents. It goes
//! over the program a fixed number of times, over the ties once in the order of their lines, and over the dimensions,
//! of which there are at most 512, once for each two classes that a tie makes one.
#![tactic(auto)]

mod breach;
mod choices;
mod classes;
mod dimensions;
mod extents;
mod large;
mod laws;
mod settle;
mod start;
mod ties;

pub use dimensions::infer;
pub use laws::inferred_or_breach;
