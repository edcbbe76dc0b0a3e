//! The counter.
ghost use Rattle.std.specs.Prelude.{◌≡◌, ℕ, ◌+◌, ◌^◌, ◌<◌, ◌≤◌, length, All, IfOk, IfSome, IfNone};

use crate::rule::{Draw, Drawing, Holding, Limits, Seats, Weigh};
use crate::seat::ClaimSeat;
use atomic_table::Table;
use std::alloc::{AllocError, Global};

/// A counter from 0 on, whose numbers below a limit are to be drawn.
#[derive(Drop)]
pub struct Claims {
    pub(crate) table: Table<(), Holding, Limits, Drawing, Global>,
    limit: u64,
    ghost one_word: { (table.shared.table_id.words ≡ 1) × (table.shared.table_id.slots ≡ 0) },
    ghost limit_is: { limit ≡ table.shared.key.limit },
}

impl Claims {
    ghost use Rattle.fin_claim.specs.Claims.{counted, new_view, dealt, drawn, joined, times, once_below};
    ghost use Rattle.fin_claim.specs.Seats.{IsSeatOf, IsFresh, IsGathered, view, limit_of, seats_of};

    /// A counter at 0 for the numbers below `limit`, and its seats.
    pub fn new(alloc: Global, limit: u64, seats: u8) -> Result<(Claims, Vec<ClaimSeat>), AllocError>
        requires limit { limit ≤ 2 ^ 40 }
        requires seats { (0 < seats) × (seats ≤ 64) }
        ensures claims { IfOk result (λ r. (limit_of r.0 ≡ limit) × (seats_of r.0 ≡ seats)) }
        ensures seats { IfOk result (λ r. (length r.1.items ≡ seats) × All (IsFresh r.0) r.1.items) }
    {
        let key = Limits {
            limit,
            seats: u64::from(seats),
        };
        let (table, seat) = Table::of_words(alloc, &[0], &key)?;
        let claims = Claims { table, limit };
        let first = ClaimSeat {
            seat,
            stands: 1,
            done: 0,
        };
        let all = claims.deal(alloc, first, seats)?;
        Ok((claims, all))
    }

    // All seats, of which the first is the one that the others are split from.
    fn deal(
        &self,
        alloc: Global,
        mut first: ClaimSeat,
        seats: u8,
    ) -> Result<Vec<ClaimSeat>, AllocError>
        requires first { IsSeatOf self.now first × (view first ≡ dealt (view first) 1) }
        requires seats { (0 < seats) × (seats_of self.now ≡ seats) }
        ensures all { IfOk result (λ r. (length r.items ≡ seats) × All (IsFresh self.now) r.items) }
    {
        let mut all = Vec::with_capacity(alloc, usize::from(seats))?;
        for _ in 1..seats {
            let next = self.split(&mut first);
            all.push(next)?;
        }
        all.push(first)?;
        Ok(all)
    }

    fn split(&self, seat: &mut ClaimSeat) -> ClaimSeat
        requires seat { IsSeatOf self.now seat.old }
        requires count { (0 < (view seat.old).standing.count) × ((view seat.old).standing.count < (view seat.old).standing.seats) }
        ensures seat { IsSeatOf self.now seat.new × (view seat.new ≡ counted (view seat.old)) }
        ensures new { IsSeatOf self.now result × (view result ≡ new_view (view seat.old)) }
    {
        let new = self.table.shared.split_seat::<Seats>(&mut seat.seat);
        ClaimSeat {
            seat: new,
            stands: 1,
            done: 0,
        }
    }

    /// Draws one number, by one atomic step: some number below the limit, greater than each that the seat drew before, or
    /// `None` where the number drawn isn't below the limit; then one more of the seats that this one stands for is done.
    /// Two draws never give one number: that is the rule of the counter, and what `close` says of all seats.
    pub fn draw(&self, seat: &mut ClaimSeat) -> Option<u64>
        requires seat { IsSeatOf self.now seat.old }
        requires undone { (view seat.old).done < (view seat.old).standing.stands }
        ensures seat { IsSeatOf self.now seat.new }
        ensures some { IfSome result (λ n. (n < limit_of self.now) × All (λ y. y < n) (view seat.old).numbers × (view seat.new ≡ drawn (view seat.old) n)) }
        ensures none { IfNone result ((n : ℕ) × (limit_of self.now ≤ n) × All (λ y. y < n) (view seat.old).numbers × (view seat.new ≡ drawn (view seat.old) n)) }
    {
        let n = self.table.shared.fetch_add::<Draw>(&mut seat.seat, 0, 1);
        if n < self.limit {
            Some(n)
        } else {
            seat.done += 1;
            None
        }
    }

    /// Puts the seats of `other`, with their numbers, to those of `seat`.
    pub fn join(&self, seat: &mut ClaimSeat, other: ClaimSeat)
        requires seats { IsSeatOf self.now seat.old × IsSeatOf self.now other }
        ensures seat { IsSeatOf self.now seat.new }
        ensures joined { view seat.new ≡ joined (view seat.old) (view other) }
    {
        let ClaimSeat {
            seat: theirs,
            stands,
            done,
        } = other;
        self.table.shared.join_seat::<Seats>(&mut seat.seat, theirs);
        self.table.shared.load::<Weigh>(&mut seat.seat, 0);
        seat.stands += stands;
        seat.done += done;
    }

    /// How many numbers were drawn, once one seat has gathered all: those below the answer, each once. Where a seat is
    /// done, they go past the limit, by at most the number of seats that are done.
    pub fn close(self, seat: ClaimSeat) -> u64
        requires seat { IsSeatOf self seat }
        requires gathered { IsGathered self seat }
        ensures each_once { (x : ℕ) → times x (view seat).numbers ≡ once_below x result }
        ensures reached { 0 < (view seat).done → limit_of self < result }
        ensures most { result ≤ limit_of self + (view seat).done }
    {
        let Claims { table, limit: _ } = self;
        let ClaimSeat {
            seat: mine,
            stands: _,
            done: _,
        } = seat;
        let closed = table.close_with(mine);
        let answer = closed.word(0);
        closed.free();
        answer
    }
}
