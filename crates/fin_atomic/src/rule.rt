//! The rule of the words, and what their steps tell.
use atomic_table::{Join, Play, Split, TableRule};
use fin_seats::{Book, Start};

/// The rule that ties what the seats know to the words.
pub struct Reducing;

impl TableRule<(), Book, Start> for Reducing {
    ghost use Rattle.fin_atomic.specs.Words.{IsKept};
    ghost use Rattle.fin_seats.specs.Books.{opened};

    ghost holds = { IsKept };

    ghost first = { opened };
}

/// A fetch whose operand is the value itself.
pub struct Plain;

impl Play<(), Book> for Plain {
    ghost use Rattle.fin_atomic.specs.Words.{NotesPlain};

    ghost then = { NotesPlain };
}

/// A fetch whose operand is the value with its top bit flipped.
pub struct Flipped;

impl Play<(), Book> for Flipped {
    ghost use Rattle.fin_atomic.specs.Words.{NotesFlipped};

    ghost then = { NotesFlipped };
}

/// How a seat is split from another one, and joined into it.
pub struct Seats;

impl Split<Book> for Seats {
    ghost use Rattle.fin_seats.specs.Books.{counted, entered};

    ghost left = { counted };

    ghost right = { entered };
}

impl Join<Book> for Seats {
    ghost use Rattle.fin_seats.specs.Books.{joined, spent};

    ghost both = { joined };

    ghost spent = { spent };
}
