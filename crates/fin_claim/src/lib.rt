//! Numbers that workers draw, each once.
//!
//! A `Claims` is one atomic word that counts. Each worker has a seat of it. A draw takes the next number, by one atomic
//! step; a seat is done once it drew a number past the limit. After the work the seats are joined into one, and `close`
//! says how many numbers were drawn: those below its answer, each once.
#![tactic(auto)]

mod claims;
mod rule;
mod seat;
mod shared;

pub use claims::Claims;
pub use rule::{Drawing, Holding, Limits};
pub use seat::ClaimSeat;
