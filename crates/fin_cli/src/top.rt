//! The top call: it does all that the program does, over the ports that it is given.
ghost use Rattle.std.specs.Prelude.{◌≡◌, ◌≢◌, ◌≤◌, ◌^◌, ℕ, List, true, false, IsOk, length, map, string_bytes};
ghost use Rattle.fin_ports.specs.Bytes.{most};
ghost use Rattle.fin_words.specs.Reading.{asks_workers, reading};
ghost use Rattle.fin_cli.specs.Due.{IsDueMode, IsDueRead, IsDueThen, reads_job};
ghost use Rattle.fin_cli.specs.Ends.{Across, Ends, FailsWithin, Reads, Serves, over};
ghost use Rattle.fin_cli.specs.Promises.{AnswersWhole, Completes, HasCauses, IsSilent, IsUnasked, Promises};
ghost use Rattle.fin_cli.specs.Promises.{TellsExactly, UsesExactly, WritesExactly};
ghost use Rattle.fin_cli.specs.Stops.{Comes};

use crate::line::{OUT_OF_MEMORY, READ_FAULT, USAGE, WRITE_FAULT, tell, try_to_tell};
use crate::modes::{refused, serve_job};
use crate::outcome::{Answer, Stop};
use fin_base::{Refusal, Rule};
use fin_ports::{JobRead, Sink, Source, read_job};
use fin_words::{Asked, Mode, asks_workers, reading};
use std::alloc::Global;
use std::sync::Wait;
use std::thread::Threads;

/// Does all that the program does, and answers its status.
pub fn finch<R: Threads + Wait + Sync, S: Source, O: Sink, E: Sink>(
    rt: &R,
    alloc: Global,
    words: &[String],
    source: &mut S,
    out: &mut O,
    err: &mut E,
) -> u8
    ensures headline { WritesExactly Mode.Run (reading (map string_bytes words.now))
        (over S.left S.faults source.old source.new) (over O.taken O.faults out.old out.new) result }
    ensures plain { WritesExactly Mode.Plain (reading (map string_bytes words.now))
        (over S.left S.faults source.old source.new) (over O.taken O.faults out.old out.new) result }
    ensures answers { AnswersWhole (reading (map string_bytes words.now))
        (over S.left S.faults source.old source.new) (over O.taken O.faults out.old out.new)
        (over E.taken E.faults err.old err.new) result }
    ensures completeness { Completes (reading (map string_bytes words.now))
        (over S.left S.faults source.old source.new) (over O.taken O.faults out.old out.new)
        (over E.taken E.faults err.old err.new) result }
    ensures usage { UsesExactly (reading (map string_bytes words.now))
        (over S.left S.faults source.old source.new) (over O.taken O.faults out.old out.new)
        (over E.taken E.faults err.old err.new) result }
    ensures causes { HasCauses
        (over S.left S.faults source.old source.new) (over O.taken O.faults out.old out.new)
        (over E.taken E.faults err.old err.new) result }
    ensures silent { IsSilent (over O.taken O.faults out.old out.new) result }
    ensures telling { TellsExactly (reading (map string_bytes words.now))
        (over S.left S.faults source.old source.new) (over E.taken E.faults err.old err.new) result }
    ensures serves { Serves (reading (map string_bytes words.now))
        (over S.left S.faults source.old source.new) (over O.taken O.faults out.old out.new)
        (over E.taken E.faults err.old err.new) (FailsWithin E.taken E.faults E.Later err.old err.new)
        result }
    ensures later_source { S.Later source.old source.new }
    ensures later_out { O.Later out.old out.new }
    ensures later_err { E.Later err.old err.new }
{
    let _ = rt;
    match asks_workers(alloc, words) {
        Ok(false) => finch_one(alloc, words, source, out, err),
        Ok(true) => top(alloc, words, source, out, err),
        Err(_) => {
            try_to_tell(err, OUT_OF_MEMORY);
            5
        }
    }
}

/// The same with one worker. It returns for every input.
pub fn finch_one<S: Source, O: Sink, E: Sink>(
    alloc: Global,
    words: &[String],
    source: &mut S,
    out: &mut O,
    err: &mut E,
) -> u8
    requires { asks_workers (map string_bytes words.now) ≡ false }
    ensures headline { WritesExactly Mode.Run (reading (map string_bytes words.now))
        (over S.left S.faults source.old source.new) (over O.taken O.faults out.old out.new) result }
    ensures plain { WritesExactly Mode.Plain (reading (map string_bytes words.now))
        (over S.left S.faults source.old source.new) (over O.taken O.faults out.old out.new) result }
    ensures answers { AnswersWhole (reading (map string_bytes words.now))
        (over S.left S.faults source.old source.new) (over O.taken O.faults out.old out.new)
        (over E.taken E.faults err.old err.new) result }
    ensures completeness { Completes (reading (map string_bytes words.now))
        (over S.left S.faults source.old source.new) (over O.taken O.faults out.old out.new)
        (over E.taken E.faults err.old err.new) result }
    ensures usage { UsesExactly (reading (map string_bytes words.now))
        (over S.left S.faults source.old source.new) (over O.taken O.faults out.old out.new)
        (over E.taken E.faults err.old err.new) result }
    ensures causes { HasCauses
        (over S.left S.faults source.old source.new) (over O.taken O.faults out.old out.new)
        (over E.taken E.faults err.old err.new) result }
    ensures silent { IsSilent (over O.taken O.faults out.old out.new) result }
    ensures telling { TellsExactly (reading (map string_bytes words.now))
        (over S.left S.faults source.old source.new) (over E.taken E.faults err.old err.new) result }
    ensures serves { Serves (reading (map string_bytes words.now))
        (over S.left S.faults source.old source.new) (over O.taken O.faults out.old out.new)
        (over E.taken E.faults err.old err.new) (FailsWithin E.taken E.faults E.Later err.old err.new)
        result }
    ensures later_source { S.Later source.old source.new }
    ensures later_out { O.Later out.old out.new }
    ensures later_err { E.Later err.old err.new }
{
    top(alloc, words, source, out, err)
}

// The same for all words.
fn top<S: Source, O: Sink, E: Sink>(
    alloc: Global,
    words: &[String],
    source: &mut S,
    out: &mut O,
    err: &mut E,
) -> u8
    ensures promises { Promises (reading (map string_bytes words.now))
        (over S.left S.faults source.old source.new) (over O.taken O.faults out.old out.new)
        (over E.taken E.faults err.old err.new) (FailsWithin E.taken E.faults E.Later err.old err.new)
        result }
    ensures later_source { S.Later source.old source.new }
    ensures later_out { O.Later out.old out.new }
    ensures later_err { E.Later err.old err.new }
{
    serve(alloc, words, source, out, err)
}

// The call, by what is due.
fn serve<S: Source, O: Sink, E: Sink>(
    alloc: Global,
    words: &[String],
    source: &mut S,
    out: &mut O,
    err: &mut E,
) -> u8
    ensures serves { Serves (reading (map string_bytes words.now))
        (over S.left S.faults source.old source.new) (over O.taken O.faults out.old out.new)
        (over E.taken E.faults err.old err.new) (FailsWithin E.taken E.faults E.Later err.old err.new)
        result }
    ensures unasked { IsUnasked (reading (map string_bytes words.now)) (over E.taken E.faults err.old err.new) result }
    ensures later_source { S.Later source.old source.new }
    ensures later_out { O.Later out.old out.new }
    ensures later_err { E.Later err.old err.new }
{
    match reading(alloc, words) {
        Ok(Some(asked)) => report(outcome(alloc, &asked, source, out), err),
        Ok(None) => tell(err, USAGE, 2),
        Err(_) => {
            try_to_tell(err, OUT_OF_MEMORY);
            5
        }
    }
}

// The status of an outcome, with its line on the error output.
fn report<E: Sink>(outcome: Result<Answer, Stop>, err: &mut E) -> u8
    ensures ends { (source out : Across) (asked : Asked) (mode : Mode) (job : List ℕ)
        → Comes source out (IsDueMode asked mode job) outcome
        → Ends source out (over E.taken E.faults err.old err.new)
        (FailsWithin E.taken E.faults E.Later err.old err.new) (IsDueMode asked mode job) result }
    ensures finished { (source out : Across) (asked : Asked) (mode : Mode) (job : List ℕ)
        → Comes source out (IsDueMode asked mode job) outcome → result ≤ 2 → IsOk outcome }
    ensures later { E.Later err.old err.new }
{
    match outcome {
        Ok(answer) => tell(err, answer.line.as_bytes(), answer.status),
        Err(stop) => report_stop(stop, err),
    }
}

// The same where there is no answer.
fn report_stop<E: Sink>(stop: Stop, err: &mut E) -> u8
    ensures ends { (source out : Across) (asked : Asked) (mode : Mode) (job : List ℕ)
        → Comes source out (IsDueMode asked mode job) (Err stop)
        → Ends source out (over E.taken E.faults err.old err.new)
        (FailsWithin E.taken E.faults E.Later err.old err.new) (IsDueMode asked mode job) result }
    ensures unfinished { 3 ≤ result }
    ensures later { E.Later err.old err.new }
{
    match stop {
        Stop::ReadFault => tell(err, READ_FAULT, 3),
        Stop::WriteFault => {
            try_to_tell(err, WRITE_FAULT);
            4
        }
        Stop::Memory => {
            try_to_tell(err, OUT_OF_MEMORY);
            5
        }
    }
}

// Does what is asked; all but the error output.
fn outcome<S: Source, O: Sink>(
    alloc: Global,
    asked: &Asked,
    source: &mut S,
    out: &mut O,
) -> Result<Answer, Stop>
    requires budget { asked.now.budget ≤ 2 ^ 40 }
    ensures comes { let from = over S.left S.faults source.old source.new in
        (job : List ℕ) × Reads from (reads_job asked.now.mode) job (IsOk result)
        × Comes from (over O.taken O.faults out.old out.new) (IsDueMode asked.now asked.now.mode job) result }
    ensures later_source { S.Later source.old source.new }
    ensures later_out { O.Later out.old out.new }
{
    match asked.mode {
        Mode::Gen => refused(
            alloc,
            Refusal {
                rule: Rule::S2,
                line: 0,
            },
        ),
        _ => read_and_serve(alloc, asked, source, out),
    }
}

// Reads the job, and does with it what the mode asks.
fn read_and_serve<S: Source, O: Sink>(
    alloc: Global,
    asked: &Asked,
    source: &mut S,
    out: &mut O,
) -> Result<Answer, Stop>
    requires mode { asked.now.mode ≢ Mode.Gen }
    requires budget { asked.now.budget ≤ 2 ^ 40 }
    ensures comes { let from = over S.left S.faults source.old source.new in
        (job : List ℕ) × Reads from true job (IsOk result)
        × Comes from (over O.taken O.faults out.old out.new)
        (IsDueRead job (IsDueThen asked.now asked.now.mode job)) result }
    ensures later_source { S.Later source.old source.new }
    ensures later_out { O.Later out.old out.new }
{
    match read_job(alloc, source) {
        Ok(job) => serve_job(alloc, asked, job, out),
        Err(JobRead::TooLong) => refused(
            alloc,
            Refusal {
                rule: Rule::J1,
                line: 0,
            },
        ),
        Err(JobRead::Fault) => Err(Stop::ReadFault),
        Err(JobRead::Memory(_)) => Err(Stop::Memory),
    }
}
