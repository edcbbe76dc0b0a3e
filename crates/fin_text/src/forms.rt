//! The form of what follows a line's first word.
ghost use Rattle.std.specs.Prelude.{◌≡◌, ◌≢◌, ◌↔◌, ◌<◌, ◌∷◌, ◌++◌, ◌^◌, [], ℕ, List, All, MatchOption, IfOk, IsTrue, length};
ghost use Rattle.std.specs.Fmt.{decimal};
ghost use Rattle.std.specs.Str.Parse.{AllDigits};
ghost use Rattle.fin_tensor.specs.declared.format.Level.{Level as TheLevel};
ghost use Rattle.fin_tensor.specs.declared.format.Level.TheVariants as level;
ghost use Rattle.fin_text.specs.DueLines.{HasNoEmptyWord, HasOneWord, TellsOther, TellsPart};
ghost use Rattle.fin_text.specs.Numbers.{EndsWord, LeadsWell};

use crate::numbers::{digit, leads_well};
use crate::words::{read_sizes, split_word};
use fin_tensor::Nums;
use itoa::Buffer;
use std::alloc::{AllocError, Global};

/// Whether behind each space stands a word.
pub(crate) fn has_no_empty_word(after: &[u8]) -> bool
    ensures { IsTrue result ↔ HasNoEmptyWord after.now }
{
    for k in 0..after.len() {
        if after[k] == b' ' && (k + 1 >= after.len() || after[k + 1] == b' ') {
            return false;
        }
    }
    true
}

/// The only word.
pub(crate) fn one_word(after: &[u8]) -> Option<&[u8]>
    ensures { MatchOption result
        (¬ (HasOneWord after.now))
        (λ w. (after.now ≡ 32 ∷ w.now) × All (λ b. b ≢ 32) w.now × (0 < length w.now)) }
{
    match second_word(after) {
        None => None,
        Some((word, rest)) => {
            if has_bytes(rest) {
                return None;
            }
            if has_bytes(word) { Some(word) } else { None }
        }
    }
}

pub(crate) fn has_bytes(text: &[u8]) -> bool
    ensures { IsTrue result ↔ (0 < length text.now) }
{
    !text.is_empty()
}

/// Whether the first number there is spelled and isn't that of the level.
pub(crate) fn tells_other(number: u64, after: &[u8]) -> bool
    ensures { IsTrue result ↔ TellsOther number after.now }
{
    match second_word(after) {
        None => false,
        Some((word, _)) => is_other(word, number),
    }
}

fn is_other(word: &[u8], number: u64) -> bool
    ensures { IsTrue result ↔ (AllDigits 10 word.now × LeadsWell word.now × (word.now ≢ decimal number)) }
{
    is_numeral(word) && !is_spelled_by(word, number)
}

/// The numbers of a level behind the level's own.
pub(crate) fn read_part(
    alloc: Global,
    number: u64,
    after: &[u8],
) -> Result<Option<Nums>, AllocError>
    ensures { IfOk result (λ read. MatchOption read
        ((ns : List ℕ) → ¬ (TellsPart number after.now ns))
        (λ ns. TellsPart number after.now ns)) }
{
    match second_word(after) {
        None => Ok(None),
        Some((word, rest)) => {
            if is_spelled_by(word, number) {
                read_sizes(alloc, rest)
            } else {
                Ok(None)
            }
        }
    }
}

// The word behind the first space, and what follows it.
fn second_word(after: &[u8]) -> Option<(&[u8], &[u8])>
    ensures { MatchOption result
        ((bytes : List ℕ) → after.now ≢ 32 ∷ bytes)
        (λ parts. (after.now ≡ 32 ∷ (parts.0.now ++ parts.1.now)) × All (λ b. b ≢ 32) parts.0.now × EndsWord parts.1.now) }
{
    let (first, behind) = after.split_first()?;
    if *first != b' ' {
        return None;
    }
    Some(split_word(behind))
}

fn is_spelled_by(word: &[u8], number: u64) -> bool
    ensures { IsTrue result ↔ (word.now ≡ decimal number) }
{
    let mut digits = Buffer::new();
    word == digits.format(number).as_bytes()
}

fn is_numeral(word: &[u8]) -> bool
    ensures { IsTrue result ↔ (AllDigits 10 word.now × LeadsWell word.now) }
{
    leads_well(word) && all_digits(word)
}

fn all_digits(word: &[u8]) -> bool
    ensures { IsTrue result ↔ AllDigits 10 word.now }
{
    for byte in word {
        if digit(*byte).is_none() {
            return false;
        }
    }
    true
}
