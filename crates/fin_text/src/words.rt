//! Numbers behind the first word of a line, each with a space before it.
ghost use Rattle.std.specs.Prelude.{◌≡◌, ℕ, List, IfOk};
ghost use Rattle.std.specs.Fmt.{decimal};
ghost use Rattle.fin_base.specs.Words.{IsWord};
ghost use Rattle.fin_text.specs.Tensors.{level_word};
ghost use Rattle.fin_text.specs.Numbers.{IsSize, IsSpelling, ReadsWord, ReadsWords, IsFirstWord, spelled};

use crate::numbers::{read_size, read_value};
use fin_tensor::{Level, Levels, Nums, Seq, Vals};
use std::alloc::{AllocError, Global};

// A number with one spelling.
trait Spelled: Sized {
    /// The word that spells it.
    ghost word: { Self → List ℕ };

    /// Which numbers are spelled.
    ghost Fits: { Self → Type 0 };

    /// The number that a word spells.
    fn read(text: &[u8]) -> Option<Self>
        ensures { ReadsWord word Fits text.now result };
}

impl Spelled for u64 {
    ghost word = { decimal };

    ghost Fits = { IsSize };

    fn read(text: &[u8]) -> Option<u64> {
        read_size(text)
    }
}

impl Spelled for i64 {
    ghost word = { spelled };

    ghost Fits = { IsWord };

    fn read(text: &[u8]) -> Option<i64> {
        read_value(text)
    }
}

impl Spelled for Level {
    ghost word = { level_word };

    ghost Fits = { λ _. Unit {0} };

    fn read(text: &[u8]) -> Option<Level> {
        match text {
            b"dense" => Some(Level::Dense),
            b"list" => Some(Level::List),
            b"runs" => Some(Level::Runs),
            b"band" => Some(Level::Band),
            b"dict" => Some(Level::Dict),
            _ => None,
        }
    }
}

/// The levels there.
pub(crate) fn read_levels(alloc: Global, rest: &[u8]) -> Result<Option<Levels>, AllocError>
    ensures { IfOk result (ReadsWords level_word (λ _. Unit {0}) rest.now) }
{
    read_words(alloc, rest)
}

/// The values that stand on a line behind its first word, where it is spelled so.
pub fn read_values(alloc: Global, rest: &[u8]) -> Result<Option<Vals>, AllocError>
    ensures { IfOk result (ReadsWords spelled IsWord rest.now) }
{
    read_words(alloc, rest)
}

/// The other numbers there, each at most 2^40.
pub fn read_sizes(alloc: Global, rest: &[u8]) -> Result<Option<Nums>, AllocError>
    ensures { IfOk result (ReadsWords decimal IsSize rest.now) }
{
    read_words(alloc, rest)
}

fn read_words<T: Spelled + Drop>(alloc: Global, line: &[u8]) -> Result<Option<Seq<T>>, AllocError>
    requires { IsSpelling T.word T.Fits }
    ensures { IfOk result (ReadsWords T.word T.Fits line.now) }
{
    let mut read = Seq::new(alloc);
    let mut left = line;
    while let Some((first, behind)) = left.split_first() {
        if *first != b' ' {
            return Ok(None);
        }
        let (word, after) = split_word(behind);
        let Some(number) = T::read(word) else {
            return Ok(None);
        };
        read.push(number)?;
        left = after;
    }
    Ok(Some(read))
}

// The first word, up to a space or the end, and what follows it.
pub(crate) fn split_word(line: &[u8]) -> (&[u8], &[u8])
    ensures { IsFirstWord line.now result.0.now result.1.now }
{
    let end = line
        .iter()
        .position(|byte| *byte == b' ')
        .unwrap_or(line.len());
    line.split_at(end)
}
