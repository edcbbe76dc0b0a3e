//! Dense evaluation of a program: `plain` gives the canonical storage of each output, visiting every coordinate of
//! every extent, or refuses with `B2` exactly where more than 2^24 loop turns are made or an output is too large to
//! store. It stops at once where the turn 2^24 + 1 is due.
//!
//! A bound number stands in a list by its variable, and what the program makes in a list by header. Inputs are read
//! where they are stored. Index sums are whole numbers and don't wrap.
#![tactic(auto)]

mod evaluate;
mod halt;
mod lookups;
mod made;
mod outputs;
mod points;
mod reads;
mod run;
mod setting;

pub use evaluate::plain;
