//! The rule of the words and their turns, and what the steps tell.
use atomic_table::{Join, Play, Split, TableRule};
use fin_seats::{Book, Start};
use std::marker::{Brand, PhantomData};

/// What the words hold at the start, and how they are cut into positions.
#[derive(Drop)]
pub struct Plan {
    /// The words and the reduction.
    pub start: Start,
    /// How many words a position has.
    pub per: u64,
    /// How many positions there are.
    pub positions: u64,
}

/// What a seat knows. No value of it is made.
pub struct View {
    /// For how many seats it stands, the count, and its entries.
    pub book: Book,
    /// The number of the seat, from 1 on, by which it takes turns.
    pub number: u64,
    /// The position whose turn it has taken.
    pub held: Option<u64>,
    /// The word that it has loaded, and what was stored there.
    pub note: Option<(u64, u64)>,
    /// The place of the first turn word.
    pub base: u64,
    /// How many words a position has.
    pub per: u64,
}

/// The rule that ties what the seats know to the words and the turn words.
pub struct Turning;

impl TableRule<(), View, Plan> for Turning {
    ghost use Rattle.fin_mutex.specs.Turns.{IsKept, opening_view};

    ghost holds = { IsKept };

    ghost first = { opening_view };
}

/// Taking a turn, won or lost.
pub struct Take;

impl Play<(), View> for Take {
    ghost use Rattle.fin_mutex.specs.Turns.{Takes};

    ghost then = { Takes };
}

/// Loading a word.
pub struct Load;

impl Play<(), View> for Load {
    ghost use Rattle.fin_mutex.specs.Turns.{Loads};

    ghost then = { Loads };
}

/// The value that a store is for.
pub trait Value {
    ghost use Rattle.std.specs.Prelude.{ℤ};

    ghost value: { ℤ };
}

impl Value for Brand {
    ghost use Rattle.std.specs.Prelude.{pos};

    ghost value = { pos 0 };
}

/// Storing a word that a value was joined to.
pub struct Write<B> {
    value: PhantomData<B>,
}

impl<B: Value> Play<(), View> for Write<B> {
    ghost use Rattle.fin_mutex.specs.Turns.{Writes};

    ghost then = { Writes B.value };
}

/// Giving a turn back.
pub struct Give;

impl Play<(), View> for Give {
    ghost use Rattle.fin_mutex.specs.Turns.{Gives};

    ghost then = { Gives };
}

/// How a seat is split from another one, and joined into it.
pub struct Seats;

impl Split<View> for Seats {
    ghost use Rattle.fin_mutex.specs.Turns.{counted, new_view};

    ghost left = { counted };

    ghost right = { new_view };
}

impl Join<View> for Seats {
    ghost use Rattle.fin_mutex.specs.Turns.{joined, spent_view};

    ghost both = { joined };

    ghost spent = { spent_view };
}
