//! What no clause says: that words are made in ample memory, and that two threads may update them.
ghost use Rattle.std.specs.Prelude.{◌≡◌, ◌≢◌, ◌<◌, length, All};
ghost use denote.Param.Send.{IsSync};
ghost use Rattle.fin_base.specs.declared.reduce.Reduce.TheVariants.{Put};
ghost use Rattle.fin_mutex.specs.Seats.{IsFresh, IsOwn, size_of, seats_of};

use fin_base::Reduce;
use fin_mutex::{TurnSeat, Turns};
use std::alloc::{AllocError, Global};
use std::sync::Wait;
use std::test::Fail;
use std::thread;
use std::thread::Threads;

// The four words in turn, ten times each.
fn work<R: Wait>(rt: &R, turns: &Turns, seat: &mut TurnSeat)
    requires seat { IsOwn turns.now seat.old }
    requires words { 3 < size_of turns.now }
    ensures seat { IsOwn turns.now seat.new }
{
    for i in 0..40 {
        turns.update(rt, seat, i % 4, 3);
    }
}

// Both seats, each in a thread of its own.
fn work_all<R: Threads + Wait + Sync>(rt: &R, turns: &Turns, seats: &mut [TurnSeat])
    requires seats { All (IsOwn turns.now) seats.old }
    requires words { 3 < size_of turns.now }
    ensures seats { (length seats.new ≡ length seats.old) × All (IsOwn turns.now) seats.new }
{
    let step = |_: usize, seat: &mut TurnSeat|
        requires { IsSync R.row × IsOwn turns.now seat.now × (3 < size_of turns.now) }
        ensures { IsOwn turns.entry.now seat.exit.now }
    { work(rt, turns, seat) };
    thread::for_each_mut(rt, seats, 2, &step);
}

fn updated<R: Threads + Wait + Sync>(
    rt: &R,
    turns: Turns,
    first: TurnSeat,
    second: TurnSeat,
) -> [i64; 4]
    requires seats { IsFresh turns first × IsFresh turns second × (seats_of turns ≡ 2) }
    requires words { size_of turns ≡ 4 }
{
    let mut seats = [first, second];
    work_all(rt, &turns, &mut seats);
    let [mine, other] = seats;
    let mut all = mine;
    turns.join(&mut all, other);
    let mut into = [0, 0, 0, 0];
    turns.close(all, &mut into);
    into
}

fn updated_by_two<R: Threads + Wait + Sync>(
    rt: &R,
    alloc: Global,
    by: Reduce,
) -> Result<[i64; 4], AllocError>
    requires by { by ≢ Put }
{
    let (turns, mut seats) = Turns::new(alloc, by, &[1, 2, 3, 4], 2, 2)?;
    let (Some(second), Some(first)) = (seats.pop(), seats.pop()) else {
        unreachable!()
    };
    Ok(updated(rt, turns, first, second))
}

#[test]
fn two_threads_update_by_turns(rt: HostRuntime) -> Result<(), Fail> {
    let alloc = rt.alloc();
    assert_eq!(rt; updated_by_two(&rt, alloc, Reduce::Add)?, [61, 62, 63, 64]);
    let powers = [3486784401, 6973568802, 10460353203, 13947137604];
    assert_eq!(rt; updated_by_two(&rt, alloc, Reduce::Mul)?, powers);
    assert_eq!(rt; updated_by_two(&rt, alloc, Reduce::Min)?, [1, 2, 3, 3]);
    assert_eq!(rt; updated_by_two(&rt, alloc, Reduce::Xor)?, [1, 2, 3, 4]);
    Ok(())
}
