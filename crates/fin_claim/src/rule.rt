//! The rule of the counter, and what its steps tell.
use atomic_table::{Join, Play, Split, TableRule};
use fin_seats::Standing;
use std::collections::LinkedList;

/// How many numbers are to be drawn, and how many seats there may be.
#[derive(Drop)]
pub struct Limits {
    /// The numbers below it are the ones to draw.
    pub limit: u64,
    /// The number of seats.
    pub seats: u64,
}

/// What a seat knows. No value of it is made.
pub struct Holding {
    /// For how many seats it stands, and the count.
    pub standing: Standing,
    /// How many of these seats are done.
    pub done: u64,
    /// The numbers that they drew, in order.
    pub numbers: LinkedList<u64>,
    /// The limit.
    pub limit: u64,
}

/// The rule that ties what the seats know to the word.
pub struct Drawing;

impl TableRule<(), Holding, Limits> for Drawing {
    ghost use Rattle.fin_claim.specs.Claims.{IsKept, opening_view};

    ghost holds = { IsKept };

    ghost first = { opening_view };
}

/// A fetch that adds one.
pub struct Draw;

impl Play<(), Holding> for Draw {
    ghost use Rattle.fin_claim.specs.Claims.{Draws};

    ghost then = { Draws };
}

/// A load, by which a seat sees that its numbers of seats are small.
pub struct Weigh;

impl Play<(), Holding> for Weigh {
    ghost use Rattle.fin_claim.specs.Claims.{Weighs};

    ghost then = { Weighs };
}

/// How a seat is split from another one, and joined into it.
pub struct Seats;

impl Split<Holding> for Seats {
    ghost use Rattle.fin_claim.specs.Claims.{counted, new_view};

    ghost left = { counted };

    ghost right = { new_view };
}

impl Join<Holding> for Seats {
    ghost use Rattle.fin_claim.specs.Claims.{joined, spent_view};

    ghost both = { joined };

    ghost spent = { spent_view };
}
