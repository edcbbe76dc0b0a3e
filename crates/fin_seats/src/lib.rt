//! What the tables share that several workers hold seats of.
//!
//! A table of atomic words has seats. What a seat knows is its view; a rule ties the views of all seats to the words, and
//! holds between any two atomic steps. Each unspent view stands for one seat or, after seats were joined, for several. The
//! view of the seat from which the others are split has the count of the seats made.
//!
//! Where the words are reduced, a view is a book of entries, each a word's number and a value; each word then stands for
//! its start, reduced by the values of all entries at it.
#![tactic(auto)]

mod codes;
mod views;

pub use codes::{all_stored, flipped, read, stored};
pub use views::{Book, Standing, Start};
