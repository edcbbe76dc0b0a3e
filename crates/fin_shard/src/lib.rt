//! Shards: what one worker reduces beside the others, to be joined to the tensor later.
//!
//! A shard starts at the identity of its reduction, so that at each coordinate it is the identity reduced by the values
//! that were appended there; only coordinates that were appended to take memory. When shards are merged into a tensor,
//! each of its words is reduced by all values that were appended to any of them. After want of memory a shard is as
//! before an append, and a merge gives up all that it took.
#![tactic(auto)]

mod merge;
mod shard;

pub use merge::merge_all;
pub use shard::Shard;
