//! The placement of the words of a format.
ghost use Rattle.std.specs.Prelude.{◌≡◌};
ghost use Rattle.std.specs.List.{list_all, list_any, count_by};
ghost use Rattle.fin_parse.specs.FormatWords as spec;

use crate::headers::levels_of;
use crate::reserved::{ATOMIC, BAND, DICT, ELEMENT, LIST, MUTEX, RUNS, SHARD};
use fin_lex::{Token, TokenKind};

/// Whether the words of a format, which end with `element`, are well placed in the header of an input or of another
/// tensor.
pub(crate) fn is_placed(input: bool, words: &[Token]) -> bool
    ensures value { result ≡ spec.is_placed input words.now }
{
    levels_of(words) <= 8
        && decorations_of(words) <= 1
        && !(input && has_decoration(words))
        && stands_last(RUNS, words)
        && stands_last(ATOMIC, words)
        && (!has_atomic(words) || all_dense(words))
        && (!has_mutex(words) || all_dense(words))
        && (!has_shard(words) || (begins_with(SHARD, words) && all_dense_or_dict(words)))
}

fn decorations_of(words: &[Token]) -> usize
    ensures value { result ≡ count_by spec.is_decoration words.now }
{
    words.iter().filter(|word| is_decoration(**word)).count()
}

fn has_decoration(words: &[Token]) -> bool
    ensures value { result ≡ list_any spec.is_decoration words.now }
{
    words.iter().any(|word| is_decoration(*word))
}

pub(crate) fn has_atomic(words: &[Token]) -> bool
    ensures value { result ≡ list_any spec.is_atomic words.now }
{
    words.iter().any(|word| is_word(ATOMIC, *word))
}

pub(crate) fn has_mutex(words: &[Token]) -> bool
    ensures value { result ≡ list_any spec.is_mutex words.now }
{
    words.iter().any(|word| is_word(MUTEX, *word))
}

pub(crate) fn has_shard(words: &[Token]) -> bool
    ensures value { result ≡ list_any spec.is_shard words.now }
{
    words.iter().any(|word| is_word(SHARD, *word))
}

fn all_dense(words: &[Token]) -> bool
    ensures value { result ≡ list_all spec.is_dense words.now }
{
    words.iter().all(|word| is_dense(*word))
}

fn all_dense_or_dict(words: &[Token]) -> bool
    ensures value { result ≡ list_all spec.is_dense_or_dict words.now }
{
    words.iter().all(|word| is_dense_or_dict(*word))
}

/// Whether each such word stands directly before `element`.
fn stands_last(place: u8, mut words: &[Token]) -> bool
    ensures value { result ≡ spec.stands_last place words.entry.now }
{
    while let [word, rest @ ..] = words {
        if is_word(place, *word) && !begins_with(ELEMENT, rest) {
            return false;
        }
        words = rest;
    }
    true
}

pub(crate) fn begins_with(place: u8, words: &[Token]) -> bool
    ensures value { result ≡ spec.begins_with place words.now }
{
    match words {
        [] => false,
        [word, ..] => is_word(place, *word),
    }
}

fn is_decoration(word: Token) -> bool
    ensures value { result ≡ spec.is_decoration word }
{
    is_word(ATOMIC, word) || is_word(MUTEX, word) || is_word(SHARD, word)
}

fn is_dense(word: Token) -> bool
    ensures value { result ≡ spec.is_dense word }
{
    !(is_word(LIST, word) || is_word(RUNS, word) || is_word(BAND, word) || is_word(DICT, word))
}

fn is_dense_or_dict(word: Token) -> bool
    ensures value { result ≡ spec.is_dense_or_dict word }
{
    !(is_word(LIST, word) || is_word(RUNS, word) || is_word(BAND, word))
}

pub(crate) fn is_word(place: u8, word: Token) -> bool
    ensures value { result ≡ spec.is_word place word }
{
    match word.kind {
        TokenKind::Reserved(k) => k == place,
        TokenKind::Name => false,
        TokenKind::Number(_) => false,
        TokenKind::Symbol(_) => false,
    }
}
