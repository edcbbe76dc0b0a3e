//! The top call: it does all that the program does, over the words, the source and the sinks that it is given.
//!
//! With status 0 the output took exactly the canonical storage text of what dense evaluation gives for the job that the
//! source had left, which was read to its end. Each other status comes only with its cause: 1 for the first breach of a
//! rule, 2 for words without a reading, 3 and 4 for a fault of the source or of a sink, 5 for want of memory. Where no
//! port failed, the call ends by what is due for the words and the job, or for want of memory.
#![tactic(auto)]

mod line;
mod memory;
mod modes;
mod outcome;
mod outputs;
mod top;

pub use fin_words::asks_workers;
pub use memory::finch_in_memory;
pub use top::{finch, finch_one};
