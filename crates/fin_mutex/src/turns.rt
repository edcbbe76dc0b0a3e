//! The words, their turns, and an update.
ghost use Rattle.std.specs.Prelude.{◌≡◌, ◌≢◌, ℕ, ◌+◌, ◌*◌, ◌^◌, ◌<◌, Some, None};
ghost use Rattle.fin_base.specs.declared.reduce.Reduce.TheVariants.{Put};
ghost use Rattle.fin_mutex.specs.Turns.{count_of};

use crate::rule::{Give, Load, Plan, Take, Turning, Value, View, Write};
use crate::seat::TurnSeat;
use atomic_table::{Seat, Table};
use fin_base::{Reduce, apply};
use fin_seats::{read, stored};
use std::alloc::Global;
use std::marker::Brand;
use std::sync::Wait;
use std::thread;

/// Words that are reduced in one way, by turns.
#[derive(Drop)]
pub struct Turns {
    pub(crate) table: Table<(), View, Plan, Turning, Global>,
    pub(crate) by: Reduce,
    pub(crate) per: u64,
    pub(crate) count: u64,
    ghost by_is: { (by ≡ table.shared.key.start.by) × (by ≢ Put) },
    ghost per_is: { (per ≡ table.shared.key.per) × (0 < per) × (count ≡ table.shared.key.positions * per) },
    ghost small: { (0 < count) × (count + table.shared.key.positions < 2 ^ 63) },
    ghost wide: { (count ≡ count_of table.shared.key) × (table.shared.table_id.words ≡ count_of table.shared.key + table.shared.key.positions) × (table.shared.table_id.slots ≡ 0) },
}

impl Turns {
    ghost use Rattle.fin_seats.specs.Books.{noted};
    ghost use Rattle.fin_mutex.specs.Turns.{holding, written, with_book};
    ghost use Rattle.fin_mutex.specs.Seats.{IsSeatOf, view, size_of};

    /// Reduces word `k` by `v`, in the turn of its position, and notes that in the seat. It waits for the turn.
    pub fn update<R: Wait>(&self, rt: &R, seat: &mut TurnSeat, k: u64, v: i64)
        requires seat { IsSeatOf self.now seat.old }
        requires word { k < size_of self.now }
        ensures seat { IsSeatOf self.now seat.new }
        ensures noted { view seat.new ≡ with_book (view seat.old) (noted (view seat.old).book k v) }
    {
        self.change(rt, &mut seat.seat, k, v, seat.number);
    }

    // The steps of one update.
    fn change<R: Wait>(&self, rt: &R, seat: &mut Seat<(), View>, k: u64, v: i64, number: u64)
        requires table { (seat.old.table_id ≡ self.now.table.shared.table_id) × (k < count_of self.now.table.shared.key) }
        requires view { (0 < seat.old.me.0.book.standing.stands) × (seat.old.me.0.held ≡ None) × (seat.old.me.0.note ≡ None) × (seat.old.me.0.base ≡ count_of self.now.table.shared.key) × (number ≡ seat.old.me.0.number) }
        ensures table { seat.new.table_id ≡ seat.old.table_id }
        ensures view { seat.new.me ≡ (with_book seat.old.me.0 (noted seat.old.me.0.book k v), seat.old.me.1) }
    {
        let position = k / self.per;
        self.take(rt, seat, position, number);
        let found = self.table.shared.load::<Load>(seat, k as usize);
        self.put::<Brand>(seat, k, v, found);
        self.table
            .shared
            .store::<Give>(seat, (self.count + position) as usize, 0);
    }

    // Waits for the turn of a position.
    fn take<R: Wait>(&self, rt: &R, seat: &mut Seat<(), View>, position: u64, number: u64)
        requires table { (seat.old.table_id ≡ self.now.table.shared.table_id) × (position < self.now.table.shared.key.positions) }
        requires view { (0 < seat.old.me.0.book.standing.stands) × (seat.old.me.0.held ≡ None) × (seat.old.me.0.note ≡ None) × (seat.old.me.0.base ≡ count_of self.now.table.shared.key) × (number ≡ seat.old.me.0.number) }
        ensures table { seat.new.table_id ≡ seat.old.table_id }
        ensures view { seat.new.me ≡ (holding seat.old.me.0 position, seat.old.me.1) }
    {
        let turn = (self.count + position) as usize;
        for _ in rt.forever() {
            if self
                .table
                .shared
                .compare_exchange::<Take>(seat, turn, 0, number)
                == 0
            {
                return;
            }
            thread::yield_now();
        }
        unreachable!()
    }

    // Stores what v makes of the word that was noted.
    fn put<B: Value>(&self, seat: &mut Seat<(), View>, k: u64, v: i64, found: u64)
        requires table { seat.old.table_id ≡ self.now.table.shared.table_id }
        requires view { (0 < seat.old.me.0.book.standing.stands) × (k < count_of self.now.table.shared.key) × (seat.old.me.0.note ≡ Some (k, found)) }
        requires value { v ≡ B.value }
        ensures table { seat.new.table_id ≡ seat.old.table_id }
        ensures view { seat.new.me ≡ (written seat.old.me.0 k v, seat.old.me.1) }
    {
        let new = stored(self.by, apply(self.by, read(self.by, found), v));
        self.table.shared.store::<Write<B>>(seat, k as usize, new);
    }
}
