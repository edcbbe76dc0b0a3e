//! The start and the end: seats are made, joined, and the words written.
ghost use Rattle.std.specs.Prelude.{◌≡◌, ◌≢◌, ℕ, ◌+◌, ◌%◌, ◌<◌, ◌≤◌, ◌++◌, length, All, IfOk, slice_index_or, pos, replicate};
ghost use Rattle.fin_base.specs.declared.reduce.Reduce.TheVariants.{Put};
ghost use Rattle.fin_base.specs.Words.{IsWord, reduced};
ghost use Rattle.fin_seats.specs.Books.{values_at, dealt, AreWords};
ghost use Rattle.fin_mutex.specs.Turns.{joined, counted, new_view};
ghost use Rattle.fin_mutex.specs.Seats.{view, by_of, seats_of, size_of, per_of, start_of, IsSeatOf, IsFresh, IsGathered, StartsAs};

use crate::rule::{Plan, Seats};
use crate::seat::TurnSeat;
use crate::turns::Turns;
use atomic_table::Table;
use fin_base::Reduce;
use fin_seats::{Start, all_stored, read};
use std::alloc::{AllocError, Global};
use std::snapshot::Snapshot;

impl Turns {
    /// Words that begin as `start` and are reduced by `by`, `per` of them to a position, and their seats. Where values
    /// are put, their order would count.
    pub fn new(
        alloc: Global,
        by: Reduce,
        start: &[i64],
        per: u64,
        seats: u8,
    ) -> Result<(Turns, Vec<TurnSeat>), AllocError>
        requires by { by ≢ Put }
        requires start { 0 < length start.now }
        requires per { (0 < per) × (length start.now % per ≡ 0) }
        requires seats { (0 < seats) × (seats ≤ 64) }
        ensures turns { IfOk result (λ r. (by_of r.0 ≡ by) × (seats_of r.0 ≡ seats) × (per_of r.0 ≡ per) × StartsAs r.0 start.now) }
        ensures seats { IfOk result (λ r. (length r.1.items ≡ seats) × All (IsFresh r.0) r.1.items) }
    {
        let codes = all_stored(alloc, by, start)?;
        let count = start.len() as u64;
        let positions = count / per;
        let key = Plan {
            start: Start {
                by,
                codes: Snapshot::of(&codes),
                seats: u64::from(seats),
            },
            per,
            positions,
        };
        let words = with_turns(codes, positions)?;
        let (table, seat) = Table::of_words(alloc, words.as_slice(), &key)?;
        let turns = Turns {
            table,
            by,
            per,
            count,
        };
        let first = TurnSeat { seat, number: 1 };
        let all = turns.deal(alloc, first, seats)?;
        Ok((turns, all))
    }

    // All seats, of which the first is the one that the others are split from.
    fn deal(
        &self,
        alloc: Global,
        mut first: TurnSeat,
        seats: u8,
    ) -> Result<Vec<TurnSeat>, AllocError>
        requires first { IsSeatOf self.now first × ((view first).book ≡ dealt (view first).book 1) }
        requires seats { (0 < seats) × (seats_of self.now ≡ seats) }
        ensures all { IfOk result (λ r. (length r.items ≡ seats) × All (IsFresh self.now) r.items) }
    {
        let mut all = Vec::with_capacity(alloc, usize::from(seats))?;
        for made in 1..seats {
            let next = self.split(&mut first, u64::from(made) + 1);
            all.push(next)?;
        }
        all.push(first)?;
        Ok(all)
    }

    fn split(&self, seat: &mut TurnSeat, number: u64) -> TurnSeat
        requires seat { IsSeatOf self.now seat.old }
        requires count { (0 < (view seat.old).book.standing.count) × ((view seat.old).book.standing.count < (view seat.old).book.standing.seats) }
        requires number { number ≡ (view seat.old).book.standing.count + 1 }
        ensures seat { IsSeatOf self.now seat.new × (view seat.new ≡ counted (view seat.old)) }
        ensures new { IsSeatOf self.now result × (view result ≡ new_view (view seat.old)) }
    {
        let new = self.table.shared.split_seat::<Seats>(&mut seat.seat);
        TurnSeat { seat: new, number }
    }

    /// Puts the seats of `other`, with their entries, to those of `seat`.
    pub fn join(&self, seat: &mut TurnSeat, other: TurnSeat)
        requires seats { IsSeatOf self.now seat.old × IsSeatOf self.now other }
        ensures seat { IsSeatOf self.now seat.new }
        ensures joined { view seat.new ≡ joined (view seat.old) (view other) }
    {
        let TurnSeat {
            seat: theirs,
            number: _,
        } = other;
        self.table.shared.join_seat::<Seats>(&mut seat.seat, theirs);
    }

    /// Writes each word, once one seat has gathered all: its start, reduced by the values of all entries at it.
    pub fn close(self, seat: TurnSeat, into: &mut [i64])
        requires seat { IsSeatOf self seat }
        requires gathered { IsGathered self seat }
        requires into { length into.old ≡ size_of self }
        ensures length { length into.new ≡ length into.old }
        ensures words { (k : ℕ) → k < length into.old → slice_index_or into.new k (pos 0) ≡ reduced (by_of self) (start_of self k) (values_at k (view seat).book.entries) }
        ensures values { AreWords (view seat).book.entries }
        ensures starts { (k : ℕ) → k < length into.old → IsWord (start_of self k) }
    {
        let Turns {
            table,
            by,
            per: _,
            count: _,
        } = self;
        let TurnSeat {
            seat: mine,
            number: _,
        } = seat;
        let closed = table.close_with(mine);
        for k in 0..into.len() {
            into[k] = read(by, closed.word(k));
        }
        closed.free();
    }
}

// Turn words behind the words, all free.
fn with_turns(mut words: Vec<u64>, positions: u64) -> Result<Vec<u64>, AllocError>
    ensures turns { IfOk result (λ v. v.items ≡ words.items ++ replicate positions 0) }
{
    for _ in 0..positions {
        words.push(0)?;
    }
    Ok(words)
}
