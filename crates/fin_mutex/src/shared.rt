//! Seats go to other threads, and the words are shared by them.
ghost use Rattle.std.specs.Prelude.{◌≡◌};

use crate::seat::TurnSeat;
use crate::turns::Turns;

/// Words and a seat of them, which another thread may take: both are `Send`, and the words are also `Sync`.
pub fn seats_cross(turns: Turns, seat: TurnSeat) -> (Turns, TurnSeat)
    ensures same { result ≡ (turns, seat) }
{
    shares(&turns);
    (crosses(turns), crosses(seat))
}

fn crosses<T: Send>(value: T) -> T
    ensures same { result ≡ value }
{
    value
}

fn shares<T: Sync>(value: &T) {
    let _ = value;
}
