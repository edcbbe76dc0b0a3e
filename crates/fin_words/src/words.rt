//! What the words ask for.
ghost use Rattle.std.specs.Prelude.{◌≡◌, ◌≤◌, ◌<◌, ◌^◌, ◌-◌, IfOk, IfSome, codes, map, option_and_then, string_bytes};
ghost use Rattle.clap.specs.Words.{first_of, found_of, rows_of};
ghost use Rattle.fin_words.specs.Reading.{HasRanges, IsInRange, Passes, asked_by, asks_workers, flag_in, mode_of, number_in, reading};

use crate::command::command;
use crate::{Asked, Mode};
use clap::ArgMatches;
use clap::error::ErrorKind;
use std::alloc::{AllocError, Global};

/// What the words ask for; none where they have no reading.
pub fn reading(alloc: Global, words: &[String]) -> Result<Option<Asked>, AllocError>
    ensures value { IfOk result (λ asked. asked ≡ reading (map string_bytes words.now)) }
    ensures ranges { IfOk result (λ asked. IfSome asked IsInRange) }
{
    let command = command(alloc)?;
    match command.try_get_matches_from(words) {
        Ok(matches) => Ok(asked(&matches)),
        Err(e) => match e.kind() {
            ErrorKind::OutOfMemory => Err(AllocError),
            _ => Ok(None),
        },
    }
}

/// Whether the words ask for a run by more than one worker.
pub fn asks_workers(alloc: Global, words: &[String]) -> Result<bool, AllocError>
    ensures { IfOk result (λ asks. asks ≡ asks_workers (map string_bytes words.now)) }
{
    match reading(alloc, words)? {
        Some(asked) => Ok(asked.mode == Mode::Run && asked.workers > 1),
        None => Ok(false),
    }
}

fn asked(matches: &ArgMatches) -> Option<Asked>
    requires { HasRanges (found_of matches.now) }
    ensures value { result ≡ asked_by (rows_of (found_of matches.now)) }
    ensures ranges { IfSome result IsInRange }
{
    let mode = mode_in(matches)?;
    Some(Asked {
        mode,
        workers: number(matches, "workers", 1, 64, 1),
        budget: number(matches, "budget", 1, 1 << 40, 4_294_967_296),
        stats: flag(matches, "stats"),
        seed: number(matches, "seed", 0, (1 << 63) - 1, 1),
        size: number(matches, "size", 3, 16, 10),
    })
}

fn mode_in(matches: &ArgMatches) -> Option<Mode>
    ensures { result ≡ option_and_then mode_of (first_of (codes "mode") (rows_of (found_of matches.now))) }
{
    match matches.get_str("mode") {
        Some(word) => mode_of(word),
        None => None,
    }
}

fn mode_of(word: &str) -> Option<Mode>
    ensures { result ≡ mode_of word.now }
{
    match word {
        "run" => Some(Mode::Run),
        "check" => Some(Mode::Check),
        "plain" => Some(Mode::Plain),
        "gen" => Some(Mode::Gen),
        _ => None,
    }
}

// The number of an option, where each that was given lies in the range.
fn number(matches: &ArgMatches, name: &str, low: u64, high: u64, default: u64) -> u64
    requires passed { Passes (found_of matches.now) name.now low high }
    requires default { (low ≤ default) × (default ≤ high) }
    ensures value { result ≡ number_in (rows_of (found_of matches.now)) name.now default }
    ensures range { (low ≤ result) × (result ≤ high) }
{
    let _ = (low, high);
    matches.get_one::<u64>(name).unwrap_or(default)
}

// A flag was given.
fn flag(matches: &ArgMatches, name: &str) -> bool
    ensures { result ≡ flag_in (rows_of (found_of matches.now)) name.now }
{
    matches.get_one::<bool>(name).unwrap_or(false)
}
