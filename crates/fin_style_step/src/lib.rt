//! The stepping styles: the steps that cut a loop's region where the parts of its looplets end.
//!
//! `specs/Steps.antt` says each step as a function from a nest to its parts and to the code between them. The first
//! sequence is its first phase up to where that stops, and its other phases behind; other looplets are cut to the same
//! region. Steppers are their children from one joint stop to the next, which is the least of their current stops: a
//! loop moves their cursors behind each turn. Jumpers go on to the greatest of their current stops, and of what is
//! between only the last coordinate is a part, with their cursors those of that coordinate.
//!
//! The laws say of each step, in both senses of nests, when code that means the parts, with the code between them,
//! means the nest. In turns, what a loop counts is paid by stops: each turn of steppers by a stop of one that counts,
//! each turn of jumpers by a counted stop that it comes to or passes. Code means a nest where the body is nothing at the
//! coordinates that jumpers may pass over (`Jumps` of `fin_nest`); where that holds of a nest, it holds of each part when
//! the code between them comes to it. Where a nest has a looplet of the step's style, each part weighs less; and no part
//! depends on what its code changes. What a part's body does is left to its code.
#![tactic(auto)]

mod codes;
mod dividing;
mod frames;
mod heads;
mod joining;
mod laws;
mod limits;
mod nest;
mod stepping;
mod walking;

pub use joining::join;
pub use laws::{jumpers_split, parts_split, sequences_split, steppers_split};
pub use limits::is_void;
pub use nest::{Frame, Kind, Nest, Parts};
pub use stepping::step;
