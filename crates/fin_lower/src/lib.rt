//! The lowering: programs as loop code.
//!
//! `lower` gives a plan of a program: code over its tensors, and as many locals as the code needs. `specs/Plans.antt`
//! says by meaning which plans these are: the code does what the program's run by pieces does, wherever that ends, so
//! that no reader of a plan has to know how the code of a statement looks.
//!
//! The law `accepted_is_lowered` says what the code of any such plan does. For a program that meets the checks, over
//! inputs that fit it, where these and the fills are words, its run is regular. Where it isn't cut, it leaves each
//! output as the canonical storage of the function that dense evaluation gives, and its charges are the work of the
//! program, by the pieces of its loops; where it is cut, its charges are over 2^40, and at most that work.
#![tactic(auto)]

mod laws;
mod plan;

pub use laws::accepted_is_lowered;
pub use plan::lower;
