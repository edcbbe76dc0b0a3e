//! The seats.
ghost use Rattle.std.specs.Prelude.{◌≡◌, ◌<◌, [], None};

use crate::rule::View;
use atomic_table::Seat;

/// A worker's seat at some words and their turns. After joins it stands for several. Between calls it holds no turn.
#[derive(Drop)]
pub struct TurnSeat {
    pub(crate) seat: Seat<(), View>,
    pub(crate) number: u64,
    ghost no_slot: { seat.me.1 ≡ [] },
    ghost unspent: { 0 < seat.me.0.book.standing.stands },
    ghost number_is: { number ≡ seat.me.0.number },
    ghost idle: { (seat.me.0.held ≡ None) × (seat.me.0.note ≡ None) },
}
