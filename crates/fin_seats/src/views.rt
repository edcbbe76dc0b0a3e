//! What views are made of, and what the words hold at the start.
use fin_base::Reduce;
use std::collections::LinkedList;
use std::snapshot::Snapshot;

/// How one view stands in its table. No value of it is made: it says what views are.
pub struct Standing {
    /// The number of seats made, in the one view that has it; 0 in the others.
    pub count: u64,
    /// For how many seats the view stands; 0 once it was joined into another one.
    pub stands: u64,
    /// How many seats there may be.
    pub seats: u64,
}

/// What a seat did to words that are reduced. No value of it is made.
pub struct Book {
    /// For how many seats it stands, and the count.
    pub standing: Standing,
    /// The numbers of words and the values by which they were reduced, in order.
    pub entries: LinkedList<(u64, i64)>,
}

/// How words are reduced, what they hold at the start, and how many seats there may be.
#[derive(Drop)]
pub struct Start {
    /// The reduction.
    pub by: Reduce,
    /// The words at the start, as they are stored.
    pub codes: Snapshot<Vec<u64>>,
    /// The number of seats.
    pub seats: u64,
}
