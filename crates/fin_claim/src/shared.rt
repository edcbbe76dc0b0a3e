//! Seats go to other threads, and the counter is shared by them.
ghost use Rattle.std.specs.Prelude.{◌≡◌};

use crate::claims::Claims;
use crate::seat::ClaimSeat;

/// A counter and a seat of it, which another thread may take: both are `Send`, and the counter is also `Sync`.
pub fn seats_cross(claims: Claims, seat: ClaimSeat) -> (Claims, ClaimSeat)
    ensures same { result ≡ (claims, seat) }
{
    shares(&claims);
    (crosses(claims), crosses(seat))
}

fn crosses<T: Send>(value: T) -> T
    ensures same { result ≡ value }
{
    value
}

fn shares<T: Sync>(value: &T) {
    let _ = value;
}
