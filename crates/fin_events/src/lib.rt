//! What chunks that add to one vector leave of it, in an order of events or through shards, in plain numbers.
//!
//! A caller tells for each chunk what it adds, and asks for a word of the vector. So tests own no core, no builder and
//! no shard: that is more than the prover can tell of a test.
#![tactic(auto)]

mod chunks;
mod orders;
mod shards;
mod vector;

pub use chunks::Addend;
pub use orders::word_after;
pub use shards::merged_word;
