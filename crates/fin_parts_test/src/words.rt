//! What no clause says: that words are made in ample memory, and that two threads may reduce them.
ghost use Rattle.std.specs.Prelude.{◌≡◌, ◌≢◌, ◌<◌, length, All};
ghost use Rattle.fin_base.specs.declared.reduce.Reduce.TheVariants.{Mul, Put};
ghost use Rattle.fin_atomic.specs.Seats.{IsFresh, IsOwn, count_of, seats_of};

use fin_atomic::{WordSeat, Words};
use fin_base::Reduce;
use std::alloc::{AllocError, Global};
use std::test::Fail;
use std::thread;
use std::thread::Threads;

// What one thread has: its seat, and how often it reduces.
#[derive(Drop)]
struct Part {
    seat: WordSeat,
    turns: u64,
}

// The two words in turn, by the numbers from -40 on.
fn work(words: &Words, part: &mut Part)
    requires part { IsOwn words.now part.old.seat }
    requires words { 1 < count_of words.now }
    ensures part { IsOwn words.now part.new.seat }
{
    for i in 0..part.turns {
        words.reduce(&mut part.seat, i % 2, i.cast_signed().wrapping_sub(40));
    }
}

// Both parts, each in a thread of its own.
fn work_all<R: Threads + Sync>(rt: &R, words: &Words, parts: &mut [Part])
    requires parts { All (λ p. IsOwn words.now p.seat) parts.old }
    requires words { 1 < count_of words.now }
    ensures parts { (length parts.new ≡ length parts.old) × All (λ p. IsOwn words.now p.seat) parts.new }
{
    let step = |_: usize, part: &mut Part|
        requires { IsOwn words.now part.now.seat × (1 < count_of words.now) }
        ensures { IsOwn words.entry.now part.exit.now.seat }
    { work(words, part) };
    thread::for_each_mut(rt, parts, 2, &step);
}

fn reduced<R: Threads + Sync>(rt: &R, words: Words, first: WordSeat, second: WordSeat) -> [i64; 2]
    requires seats { IsFresh words first × IsFresh words second × (seats_of words ≡ 2) }
    requires words { count_of words ≡ 2 }
{
    let mut parts = [
        Part {
            seat: first,
            turns: 100,
        },
        Part {
            seat: second,
            turns: 100,
        },
    ];
    work_all(rt, &words, &mut parts);
    let [mine, other] = parts;
    let Part {
        seat: mut all,
        turns: _,
    } = mine;
    let Part {
        seat: theirs,
        turns: _,
    } = other;
    words.join(&mut all, theirs);
    let mut into = [0, 0];
    words.close(all, &mut into);
    into
}

fn reduced_by_two<R: Threads + Sync>(
    rt: &R,
    alloc: Global,
    by: Reduce,
) -> Result<[i64; 2], AllocError>
    requires by { (by ≢ Mul) × (by ≢ Put) }
{
    let (words, mut seats) = Words::new(alloc, by, &[10, -5], 2)?;
    let (Some(second), Some(first)) = (seats.pop(), seats.pop()) else {
        unreachable!()
    };
    Ok(reduced(rt, words, first, second))
}

#[test]
fn two_threads_reduce_into_words(rt: HostRuntime) -> Result<(), Fail> {
    let alloc = rt.alloc();
    assert_eq!(rt; reduced_by_two(&rt, alloc, Reduce::Add)?, [910, 995]);
    assert_eq!(rt; reduced_by_two(&rt, alloc, Reduce::Min)?, [-40, -39]);
    assert_eq!(rt; reduced_by_two(&rt, alloc, Reduce::Max)?, [58, 59]);
    assert_eq!(rt; reduced_by_two(&rt, alloc, Reduce::And)?, [0, 1]);
    assert_eq!(rt; reduced_by_two(&rt, alloc, Reduce::Or)?, [-2, -1]);
    assert_eq!(rt; reduced_by_two(&rt, alloc, Reduce::Xor)?, [10, -5]);
    Ok(())
}
