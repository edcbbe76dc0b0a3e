//! Seats go to other threads, and the words are shared by them.
ghost use Rattle.std.specs.Prelude.{◌≡◌};

use crate::seat::WordSeat;
use crate::words::Words;

/// Words and a seat of them, which another thread may take: both are `Send`, and the words are also `Sync`.
pub fn seats_cross(words: Words, seat: WordSeat) -> (Words, WordSeat)
    ensures same { result ≡ (words, seat) }
{
    shares(&words);
    (crosses(words), crosses(seat))
}

fn crosses<T: Send>(value: T) -> T
    ensures same { result ≡ value }
{
    value
}

fn shares<T: Sync>(value: &T) {
    let _ = value;
}
