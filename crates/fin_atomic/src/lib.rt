//! Words that workers reduce at once, each by single atomic steps.
//!
//! A `Words` keeps one atomic word for each number of its start. Each worker has a seat of it. `reduce` is one fetch: it
//! takes no lock and doesn't wait. At each moment each word stands for its start, reduced by the values of all that was
//! noted for it; their order is free. After the work the seats are joined into one, and `close` writes the words.
#![tactic(auto)]

mod rule;
mod seat;
mod shared;
mod words;

pub use rule::Reducing;
pub use seat::WordSeat;
pub use words::Words;
