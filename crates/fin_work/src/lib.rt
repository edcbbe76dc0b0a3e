//! The run by pieces does what the run by stages does.
//!
//! A run by pieces does nothing where nothing is left of a statement, and takes known numbers in place of expressions.
//! What it knows at a coordinate of a loop is right: a read that sees a gap gives the fill, whatever is bound inside the
//! loop, and a mask has the value of its test. It stays right to the end of the body, since a tensor that the body
//! changes is never seen before it, and what is left of a body changes the fewer tensors, the more is known. So the run
//! by pieces of a program that meets the checks, over inputs that fit it, follows its run by stages: it differs in work,
//! and in last updates that come no later. Its functions are those of dense evaluation.
#![tactic(auto)]

mod laws;

pub use laws::{fewer_change, gaps_read_fill, masks_tell, pieced_is_sound, readable_have_parts};
