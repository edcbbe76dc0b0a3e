//! Lines for the error output.
ghost use Rattle.std.specs.Prelude.{◌≡◌, ◌⊎◌, ◌≤◌, ◌++◌, [], IfOk, string_bytes, take};
ghost use Rattle.fin_ports.specs.Causes.{Rose};
ghost use Rattle.fin_cli.specs.Due.{refusal_text, rule_text, usage, read_fault, work_text, write_fault, out_of_memory};
ghost use Rattle.fin_cli.specs.Ends.{FailsWithin, Tells, Tries, over};

use fin_base::{Refusal, Rule};
use fin_ports::{Failed, Sink, put_all};
use std::alloc::{AllocError, Global};

pub(crate) const USAGE: &[u8] =
    b"usage: finch run,check,plain,gen [--workers N] [--budget N] [--stats] [--seed N] [--size N]\n";

pub(crate) const READ_FAULT: &[u8] = b"read fault\n";

pub(crate) const WRITE_FAULT: &[u8] = b"write fault\n";

pub(crate) const OUT_OF_MEMORY: &[u8] = b"out of memory\n";

/// Puts the line, and answers the status; where that fails, says so.
pub(crate) fn tell<E: Sink>(err: &mut E, line: &[u8], status: u8) -> u8
    ensures tells { Tells (over E.taken E.faults err.old err.new)
        (FailsWithin E.taken E.faults E.Later err.old err.new) line.now status result }
    ensures later { E.Later err.old err.new }
{
    match put_all(err, line) {
        Ok(()) => status,
        Err(Failed) => {
            try_to_tell(err, WRITE_FAULT);
            4
        }
    }
}

/// Puts a line, as far as that goes.
pub(crate) fn try_to_tell<E: Sink>(err: &mut E, line: &[u8])
    ensures tries { Tries (over E.taken E.faults err.old err.new) line.now }
    ensures counted { E.faults err.old ≤ E.faults err.new }
    ensures later { E.Later err.old err.new }
{
    let _ = put_all(err, line);
}

/// The line of a refusal.
pub(crate) fn refusal_text(alloc: Global, refusal: Refusal) -> Result<String, AllocError>
    ensures { IfOk result (λ text. string_bytes text ≡ refusal_text refusal) }
{
    let rule = rule_text(refusal.rule);
    let line = refusal.line;
    format!(in alloc; "refused {rule} line {line}\n")
}

/// The line of a job's work, where it is asked for.
pub(crate) fn work_text(alloc: Global, stats: bool, work: u64) -> Result<String, AllocError>
    ensures { IfOk result (λ text. string_bytes text ≡ work_text stats work) }
{
    if stats {
        return format!(in alloc; "work {work}\n");
    }
    Ok(String::new(alloc))
}

fn rule_text(rule: Rule) -> &'static str
    ensures { result.now ≡ rule_text rule }
{
    match rule {
        Rule::J1 => "J1",
        Rule::J2 => "J2",
        Rule::S1 => "S1",
        Rule::S2 => "S2",
        Rule::S3 => "S3",
        Rule::N1 => "N1",
        Rule::N2 => "N2",
        Rule::N3 => "N3",
        Rule::F1 => "F1",
        Rule::F2 => "F2",
        Rule::X1 => "X1",
        Rule::X2 => "X2",
        Rule::X3 => "X3",
        Rule::X4 => "X4",
        Rule::X5 => "X5",
        Rule::X6 => "X6",
        Rule::L1 => "L1",
        Rule::L2 => "L2",
        Rule::L3 => "L3",
        Rule::L4 => "L4",
        Rule::L5 => "L5",
        Rule::L6 => "L6",
        Rule::L7 => "L7",
        Rule::M1 => "M1",
        Rule::M2 => "M2",
        Rule::M3 => "M3",
        Rule::M4 => "M4",
        Rule::M5 => "M5",
        Rule::B1 => "B1",
        Rule::B2 => "B2",
        Rule::B3 => "B3",
        Rule::U1 => "U1",
        Rule::U2 => "U2",
        Rule::C1 => "C1",
        Rule::C2 => "C2",
        Rule::C3 => "C3",
        Rule::C4 => "C4",
        Rule::C5 => "C5",
        Rule::W1 => "W1",
    }
}
