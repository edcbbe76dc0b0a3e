//! Effects of chunks in any order of events.
//!
//! A core holds tensors that are built, and for each chunk a list of effects. An event of a chunk applies the next
//! effect of its list. Whatever the order of the events is, tensors whose effects have one reduction other than `Put`,
//! or whose chunks have first coordinates of their own, end as all effects of chunk 0, then of chunk 1, and so on leave
//! them. After want of memory a core is as before.
#![tactic(auto)]

mod effect;
mod events;
mod laws;
mod queue;

pub use effect::Effect;
pub use events::Core;
pub use laws::{any_order_is_serial, each_word_is_reduced};
