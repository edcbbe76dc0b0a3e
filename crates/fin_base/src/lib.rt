//! Words, what is done with them, and refusals.
//!
//! A word is an integer from -2^63 to 2^63 - 1; arithmetic on words is that on integers modulo 2^64. A
//! reduction takes a word and a value to the next word, and an operator two words to one. A refusal is the rule that a job breaks and the line
//! where it does.
#![tactic(auto)]

mod laws;
mod operators;
mod reduce;
mod refusal;
mod steps;
mod terms;

pub use laws::{forgets_order, identity_keeps, keeps_words, repeats_at_once};
pub use operators::{negate, operate};
pub use reduce::{Reduce, apply, identity, repeat};
pub use refusal::{Fail, Refusal, Rule};
pub use steps::Steps;
pub use terms::{Op, Proto, Updated, Way};
