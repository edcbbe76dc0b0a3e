//! The top call over ports in memory that don't fail.
ghost use Rattle.std.specs.Prelude.{◌≡◌, ◌⊎◌, ◌++◌, false, length, map, string_bytes};
ghost use Rattle.fin_ports.specs.Memory.{HasRoom, IsReliable, left_of};
ghost use Rattle.fin_words.specs.Reading.{asks_workers, reading};
ghost use Rattle.fin_cli.specs.Due.{Due, IsDue};

use crate::finch_one;
use fin_ports::{MemSink, MemSource};
use std::alloc::Global;

/// `finch_one` over a source and sinks that no call was told to fail, with just the room for what is due: it ends as it is
/// due, with the status and both texts, or by want of memory.
pub fn finch_in_memory(
    alloc: Global,
    words: &[String],
    source: &mut MemSource,
    out: &mut MemSink,
    err: &mut MemSink,
) -> u8
    requires one { asks_workers (map string_bytes words.now) ≡ false }
    requires source { IsReliable source.old }
    requires out { (due : Due) → IsDue (reading (map string_bytes words.now)) (left_of source.old) due
        → HasRoom out.old (length due.out) }
    requires err { (due : Due) → IsDue (reading (map string_bytes words.now)) (left_of source.old) due
        → HasRoom err.old (length due.err) }
    ensures due { (due : Due) → IsDue (reading (map string_bytes words.now)) (left_of source.old) due
        → (result ≡ 5) ⊎ ((result ≡ due.status) × (out.new.taken.items ≡ out.old.taken.items ++ due.out)
        × (err.new.taken.items ≡ err.old.taken.items ++ due.err)) }
{
    finch_one(alloc, words, source, out, err)
}
