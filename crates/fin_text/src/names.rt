//! The names of tensors and variables.
ghost use Rattle.std.specs.Prelude.{◌≡◌, ◌↔◌, IsTrue, IfOk, Contains, map};
ghost use Rattle.std.specs.List.{AllPass};
ghost use Rattle.fin_text.specs.Names.{IsName, begins_name, continues_name, reserved_words};

use fin_tensor::Name;
use std::alloc::{AllocError, Global};

const MOST_BYTES: usize = 32;

// The words that are no names.
const RESERVED: [&[u8]; 28] = [
    b"in", b"out", b"tmp", b"fill", b"shape", b"for", b"par", b"if", b"let", b"freeze", b"thaw",
    b"walk", b"gallop", b"follow", b"min", b"max", b"and", b"or", b"xor", b"dense", b"list",
    b"runs", b"band", b"dict", b"element", b"atomic", b"mutex", b"shard",
];

/// Tells whether a word is a name: a letter or `_`, then letters, digits or `_`, at most 32 bytes and not
/// reserved.
pub fn is_name(word: &[u8]) -> bool
    ensures { IsTrue result ↔ IsName word.now }
{
    !word.is_empty()
        && word.len() <= MOST_BYTES
        && begins_name(word[0])
        && all_continue(word)
        && !is_reserved(word)
}

/// The name of these bytes.
pub fn name_from(alloc: Global, bytes: &[u8]) -> Result<Name, AllocError>
    ensures { IfOk result (λ name. name ≡ bytes.now) }
{
    let mut name = Name::new(alloc);
    for byte in bytes {
        name.push(*byte)?;
    }
    Ok(name)
}

fn begins_name(byte: u8) -> bool
    ensures { result ≡ begins_name byte }
{
    byte.is_ascii_alphabetic() || byte == b'_'
}

/// Tells whether a byte can stand in a name.
fn continues_name(byte: u8) -> bool
    ensures { result ≡ continues_name byte }
{
    byte.is_ascii_alphanumeric() || byte == b'_'
}

fn all_continue(bytes: &[u8]) -> bool
    ensures { IsTrue result ↔ AllPass continues_name bytes.now }
{
    bytes.iter().all(|byte| continues_name(*byte))
}

fn is_reserved(word: &[u8]) -> bool
    ensures { IsTrue result ↔ Contains reserved_words word.now }
{
    is_listed(word, &RESERVED)
}

pub(crate) fn is_listed(word: &[u8], words: &[&[u8]]) -> bool
    ensures { IsTrue result ↔ Contains (map (λ w. w.now) words.now) word.now }
{
    words.contains(&word)
}
