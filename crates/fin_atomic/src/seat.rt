//! The seats.
ghost use Rattle.std.specs.Prelude.{◌≡◌, ◌<◌, []};

use atomic_table::Seat;
use fin_seats::Book;

/// A worker's seat at some words. After joins it stands for several.
#[derive(Drop)]
pub struct WordSeat {
    pub(crate) seat: Seat<(), Book>,
    ghost no_slot: { seat.me.1 ≡ [] },
    ghost unspent: { 0 < seat.me.0.standing.stands },
}
