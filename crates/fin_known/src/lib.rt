//! What is known of a nest before it is stepped.
//!
//! The looplets of a nest tell something by their heads: a run or a lookup of a fill is a gap, wherever the read stands,
//! and a run of 1 or 0 a test that holds or fails. Where by that, and by what is known around, nothing is left of the
//! loop's body, nothing is left of it at any coordinate, whatever else is seen there (`heads_tell_nothing`): the nest's
//! code is none.
//! `is_nothing_along` asks that of a nest.
#![tactic(auto)]

mod laws;
mod nothing;
mod telling;

pub use laws::heads_tell_nothing;
pub use nothing::{Body, is_nothing_along};
pub use telling::{with_gaps, with_tests};
