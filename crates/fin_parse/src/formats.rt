//! The levels and the decoration that the words of a format name.
ghost use Rattle.std.specs.Prelude.{◌≡◌, ◌≤◌, IfOk, length};
ghost use Rattle.std.specs.List.{prefix_len};
ghost use Rattle.fin_parse.specs.HeaderNames.{levels_of as count_of};
ghost use Rattle.fin_parse.specs.HeaderTrees as spec;

use crate::format_words::{has_atomic, has_mutex, has_shard, is_word};
use crate::headers::levels_of;
use crate::reserved::{BAND, DENSE, DICT, LIST, MUTEX, RUNS};
use fin_lex::{Token, TokenKind};
use fin_tensor::{Level, Levels, Seq, Wrap};
use std::alloc::{AllocError, Global};

/// The levels, in order.
pub(crate) fn levels_in(alloc: Global, mut words: &[Token]) -> Result<Levels, AllocError>
    ensures value { IfOk result (λ levels. levels ≡ spec.levels_in words.entry.now) }
{
    let mut levels = Seq::new(alloc);
    while let [word, rest @ ..] = words {
        if let Some(level) = level_of(word.kind) {
            levels.push(level)?;
        }
        words = rest;
    }
    Ok(levels)
}

fn level_of(kind: TokenKind) -> Option<Level>
    ensures value { result ≡ spec.level_of kind }
{
    match kind {
        TokenKind::Reserved(place) => level_at(place),
        TokenKind::Name => None,
        TokenKind::Number(_) => None,
        TokenKind::Symbol(_) => None,
    }
}

/// The level that a reserved word names, by its place in the table.
fn level_at(place: u8) -> Option<Level>
    ensures value { result ≡ spec.level_at place }
{
    match place {
        DENSE => Some(Level::Dense),
        LIST => Some(Level::List),
        RUNS => Some(Level::Runs),
        BAND => Some(Level::Band),
        DICT => Some(Level::Dict),
        _ => None,
    }
}

/// The decoration. A format has few levels.
pub(crate) fn wrap_of(words: &[Token]) -> Wrap
    requires few { count_of words.now ≤ 8 }
    ensures value { result ≡ spec.wrap_of words.now }
{
    if has_atomic(words) {
        Wrap::Atomic
    } else if has_mutex(words) {
        Wrap::Mutex(levels_before(words))
    } else if has_shard(words) {
        Wrap::Shard
    } else {
        Wrap::Bare
    }
}

fn levels_before(words: &[Token]) -> u8
    requires few { count_of words.now ≤ 8 }
    ensures value { result ≡ spec.levels_before words.now }
{
    levels_of(&words[..mutex_place(words)]) as u8
}

/// How many words stand before the mutex.
fn mutex_place(words: &[Token]) -> usize
    ensures value { result ≡ prefix_len spec.is_no_mutex words.now }
    ensures within { result ≤ length words.now }
{
    let mut place = 0;
    while place < words.len() && !is_word(MUTEX, words[place]) {
        place += 1;
    }
    place
}
