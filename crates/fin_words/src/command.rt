//! The command line, as `clap` reads it.
ghost use Rattle.std.specs.Prelude.{◌≡◌, IfOk, false};
ghost use Rattle.clap.specs.Words.{app_of, rule_of};
ghost use Rattle.fin_words.specs.Command.{finch, flag_rule, mode_rule, number_rule};

use clap::builder::ValueParser;
use clap::{Arg, ArgAction, Command};
use std::alloc::{AllocError, Global};

// The word that says what is to be done. `reading` holds it against the list of modes: clap's own parser of
// listed words borrows its list, and the command would then be no closed value that clauses can name.
fn mode<'a>(alloc: Global) -> Arg<'a>
    ensures rule { rule_of result ≡ mode_rule }
    ensures local { result.global ≡ false }
{
    Arg::new(alloc, "mode")
        .required(true)
        .action(ArgAction::Set)
}

// An option whose value is a number in a range.
fn number<'a>(alloc: Global, name: &'a str, low: u64, high: u64, default: &'a str) -> Arg<'a>
    ensures rule { rule_of result ≡ number_rule name.entry.now low high default.entry.now }
    ensures local { result.global ≡ false }
{
    Arg::new(alloc, name)
        .long(name)
        .action(ArgAction::Set)
        .value_parser(ValueParser::unsigned(low, high))
        .default_value(default)
}

// A flag.
fn flag<'a>(alloc: Global, name: &'a str) -> Arg<'a>
    ensures rule { rule_of result ≡ flag_rule name.entry.now }
    ensures local { result.global ≡ false }
{
    Arg::new(alloc, name).long(name).action(ArgAction::SetTrue)
}

/// The command: a mode, the options and the flag.
pub(crate) fn command<'a>(alloc: Global) -> Result<Command<'a>, AllocError>
    ensures { IfOk result (λ c. app_of c ≡ finch) }
{
    Command::new(alloc, "finch")
        .arg(mode(alloc))?
        .arg(number(alloc, "workers", 1, 64, "1"))?
        .arg(number(alloc, "budget", 1, 1 << 40, "4294967296"))?
        .arg(flag(alloc, "stats"))?
        .arg(number(alloc, "seed", 0, (1 << 63) - 1, "1"))?
        .arg(number(alloc, "size", 3, 16, "10"))
}
