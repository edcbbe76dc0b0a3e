//! Words that workers update by turns.
//!
//! A `Turns` keeps one atomic word for each number of its start, and a turn word for each position: a group of `per`
//! words, one after another. Each worker has a seat of it. `update` waits until it has taken the turn of the word's
//! position, loads the word, stores it with the value joined, and gives the turn back; so every reduction whose order is
//! free may be used. After the work the seats are joined into one, and `close` writes the words.
#![tactic(auto)]

mod ends;
mod rule;
mod seat;
mod shared;
mod turns;

pub use rule::{Plan, Turning, View};
pub use seat::TurnSeat;
pub use turns::Turns;
