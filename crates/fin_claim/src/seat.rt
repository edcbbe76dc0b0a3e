//! The seats.
ghost use Rattle.std.specs.Prelude.{◌≡◌, ◌<◌, ◌≤◌, [], IsTrue, ◌↔◌};

use crate::rule::Holding;
use atomic_table::Seat;

/// A worker's seat at a counter. After joins it stands for several.
#[derive(Drop)]
pub struct ClaimSeat {
    pub(crate) seat: Seat<(), Holding>,
    pub(crate) stands: u64,
    pub(crate) done: u64,
    ghost no_slot: { seat.me.1 ≡ [] },
    ghost counts: { (stands ≡ seat.me.0.standing.stands) × (done ≡ seat.me.0.done) },
    ghost unspent: { (0 < stands) × (done ≤ stands) },
}

impl ClaimSeat {
    ghost use Rattle.fin_claim.specs.Seats.{view};

    /// Whether all the seats that this one stands for are done.
    pub fn done(&self) -> bool
        ensures all { IsTrue result ↔ ((view self.now).done ≡ (view self.now).standing.stands) }
    {
        self.done == self.stands
    }
}
