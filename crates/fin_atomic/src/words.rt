//! The words.
ghost use Rattle.std.specs.Prelude.{◌≡◌, ◌≢◌, ℕ, ◌+◌, ◌<◌, ◌≤◌, length, All, IfOk};
ghost use Rattle.fin_base.specs.declared.reduce.Reduce.TheVariants.{Mul, Put};

use crate::rule::{Flipped, Plain, Reducing, Seats};
use crate::seat::WordSeat;
use atomic_table::{Seat, Table};
use fin_base::Reduce;
use fin_seats::{Book, Start, all_stored, flipped, read};
use std::alloc::{AllocError, Global};
use std::snapshot::Snapshot;

/// Words that are reduced in one way.
#[derive(Drop)]
pub struct Words {
    pub(crate) table: Table<(), Book, Start, Reducing, Global>,
    by: Reduce,
    ghost by_is: { (by ≡ table.shared.key.by) × (by ≢ Mul) × (by ≢ Put) },
    ghost wide: { (table.shared.table_id.words ≡ length table.shared.key.codes.value.items) × (0 < table.shared.table_id.words) × (table.shared.table_id.slots ≡ 0) },
}

impl Words {
    ghost use Rattle.std.specs.Prelude.{slice_index_or, pos};
    ghost use Rattle.fin_base.specs.Words.{IsWord, reduced};
    ghost use Rattle.fin_seats.specs.Books.{noted, counted, entered, dealt, joined, values_at, AreWords};
    ghost use Rattle.fin_atomic.specs.Seats.{view, by_of, seats_of, count_of, start_of, IsSeatOf, IsFresh, IsGathered, StartsAs};

    /// Words that begin as `start` and are reduced by `by`, and their seats. No fetch makes a product, and where values
    /// are put their order would count.
    pub fn new(
        alloc: Global,
        by: Reduce,
        start: &[i64],
        seats: u8,
    ) -> Result<(Words, Vec<WordSeat>), AllocError>
        requires by { (by ≢ Mul) × (by ≢ Put) }
        requires start { 0 < length start.now }
        requires seats { (0 < seats) × (seats ≤ 64) }
        ensures words { IfOk result (λ r. (by_of r.0 ≡ by) × (seats_of r.0 ≡ seats) × StartsAs r.0 start.now) }
        ensures seats { IfOk result (λ r. (length r.1.items ≡ seats) × All (IsFresh r.0) r.1.items) }
    {
        let codes = all_stored(alloc, by, start)?;
        let key = Start {
            by,
            codes: Snapshot::of(&codes),
            seats: u64::from(seats),
        };
        let (table, seat) = Table::of_words(alloc, codes.as_slice(), &key)?;
        let words = Words { table, by };
        let first = WordSeat { seat };
        let all = words.deal(alloc, first, seats)?;
        Ok((words, all))
    }

    // All seats, of which the first is the one that the others are split from.
    fn deal(
        &self,
        alloc: Global,
        mut first: WordSeat,
        seats: u8,
    ) -> Result<Vec<WordSeat>, AllocError>
        requires first { IsSeatOf self.now first × (view first ≡ dealt (view first) 1) }
        requires seats { (0 < seats) × (seats_of self.now ≡ seats) }
        ensures all { IfOk result (λ r. (length r.items ≡ seats) × All (IsFresh self.now) r.items) }
    {
        let mut all = Vec::with_capacity(alloc, usize::from(seats))?;
        for _ in 1..seats {
            let next = self.split(&mut first);
            all.push(next)?;
        }
        all.push(first)?;
        Ok(all)
    }

    fn split(&self, seat: &mut WordSeat) -> WordSeat
        requires seat { IsSeatOf self.now seat.old }
        requires count { (0 < (view seat.old).standing.count) × ((view seat.old).standing.count < (view seat.old).standing.seats) }
        ensures seat { IsSeatOf self.now seat.new × (view seat.new ≡ counted (view seat.old)) }
        ensures new { IsSeatOf self.now result × (view result ≡ entered (view seat.old)) }
    {
        let new = self.table.shared.split_seat::<Seats>(&mut seat.seat);
        WordSeat { seat: new }
    }

    /// Reduces word `k` by `v`, in one atomic step, and notes that in the seat.
    pub fn reduce(&self, seat: &mut WordSeat, k: u64, v: i64)
        requires seat { IsSeatOf self.now seat.old }
        requires word { k < count_of self.now }
        ensures seat { IsSeatOf self.now seat.new }
        ensures noted { view seat.new ≡ noted (view seat.old) k v }
    {
        self.fetch(&mut seat.seat, k as usize, v);
    }

    // One fetch. The least and the greatest of unsigned numbers are those of signed ones with the top bit flipped.
    fn fetch(&self, seat: &mut Seat<(), Book>, k: usize, v: i64)
        requires table { (seat.old.table_id ≡ self.now.table.shared.table_id) × (k < self.now.table.shared.table_id.words) }
        requires seated { 0 < seat.old.me.0.standing.stands }
        ensures table { seat.new.table_id ≡ seat.old.table_id }
        ensures view { seat.new.me ≡ (noted seat.old.me.0 k v, seat.old.me.1) }
    {
        let shared = &self.table.shared;
        let plain = v.cast_unsigned();
        match self.by {
            Reduce::Add => {
                shared.fetch_add::<Plain>(seat, k, plain);
            }
            Reduce::And => {
                shared.fetch_and::<Plain>(seat, k, plain);
            }
            Reduce::Or => {
                shared.fetch_or::<Plain>(seat, k, plain);
            }
            Reduce::Xor => {
                shared.fetch_xor::<Plain>(seat, k, plain);
            }
            Reduce::Min => {
                shared.fetch_min::<Flipped>(seat, k, flipped(plain));
            }
            Reduce::Max => {
                shared.fetch_max::<Flipped>(seat, k, flipped(plain));
            }
            Reduce::Mul | Reduce::Put => unreachable!(),
        }
    }

    /// Puts the seats of `other`, with their entries, to those of `seat`.
    pub fn join(&self, seat: &mut WordSeat, other: WordSeat)
        requires seats { IsSeatOf self.now seat.old × IsSeatOf self.now other }
        ensures seat { IsSeatOf self.now seat.new }
        ensures joined { view seat.new ≡ joined (view seat.old) (view other) }
    {
        let WordSeat { seat: theirs } = other;
        self.table.shared.join_seat::<Seats>(&mut seat.seat, theirs);
    }

    /// Writes each word, once one seat has gathered all: its start, reduced by the values of all entries at it.
    pub fn close(self, seat: WordSeat, into: &mut [i64])
        requires seat { IsSeatOf self seat }
        requires gathered { IsGathered self seat }
        requires into { length into.old ≡ count_of self }
        ensures length { length into.new ≡ length into.old }
        ensures words { (k : ℕ) → k < length into.old → slice_index_or into.new k (pos 0) ≡ reduced (by_of self) (start_of self k) (values_at k (view seat).entries) }
        ensures values { AreWords (view seat).entries }
        ensures starts { (k : ℕ) → k < length into.old → IsWord (start_of self k) }
    {
        let Words { table, by } = self;
        let WordSeat { seat: mine } = seat;
        let closed = table.close_with(mine);
        for k in 0..into.len() {
            into[k] = read(by, closed.word(k));
        }
        closed.free();
    }
}
