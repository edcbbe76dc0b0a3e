//! What no clause says: that a counter is made in ample memory, and the number at which it closes.
ghost use Rattle.std.specs.Prelude.{◌≡◌};
ghost use Rattle.fin_claim.specs.Seats.{IsSeatOf, IsFresh, IsGathered, view, seats_of};

use fin_claim::{ClaimSeat, Claims};
use std::test::Fail;

// One draw, where the seat isn't done.
fn turn(claims: &Claims, seat: &mut ClaimSeat)
    requires seat { IsSeatOf claims.now seat.old }
    ensures seat { IsSeatOf claims.now seat.new × ((view seat.new).standing ≡ (view seat.old).standing) }
{
    if !seat.done() {
        claims.draw(seat);
    }
}

// Draws in turn, past the end, and then the counter's last number.
fn drawn_in_turn(
    claims: Claims,
    mut first: ClaimSeat,
    mut second: ClaimSeat,
    mut third: ClaimSeat,
) -> u64
    requires seats { IsFresh claims first × IsFresh claims second × IsFresh claims third × (seats_of claims ≡ 3) }
{
    for _ in 0..4 {
        turn(&claims, &mut first);
        turn(&claims, &mut second);
        turn(&claims, &mut third);
    }
    claims.join(&mut second, third);
    claims.join(&mut first, second);
    claims.close(first)
}

#[test]
fn three_seats_draw_until_none(rt: HostRuntime) -> Result<(), Fail> {
    let (claims, mut seats) = Claims::new(rt.alloc(), 2, 3)?;
    let (Some(third), Some(second), Some(first)) = (seats.pop(), seats.pop(), seats.pop()) else {
        unreachable!()
    };
    assert_eq!(rt; drawn_in_turn(claims, first, second, third), 5);
    Ok(())
}
