//! Accepted programs run soundly.
//!
//! A run of a program by the stages of its tensors (declared and built, or frozen) does what dense evaluation does; it
//! keeps besides whether each statement was asked for what it can do: whether its tensors stand in the stages that it
//! needs, whether its indices are small, and whether each update follows the one before. For a program that meets the
//! checks, over inputs that fit it, all of that holds to the end, the functions are those of dense evaluation, and each
//! output is frozen. So code that does what the run by stages does needs no rule of the language.
#![tactic(auto)]

mod laws;

pub use laws::accepted_is_sound;
