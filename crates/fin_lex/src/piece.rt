//! What stands at the front of a text, by longest match.
ghost use Rattle.std.specs.Prelude.{◌≡◌, ◌<◌, ◌≤◌, ◌+◌, length, drop, take, map, slice_index, IfSome, true};
ghost use Rattle.std.specs.List.{prefix_len};
ghost use Rattle.fin_lex.specs.Piece as spec;

use crate::tables::{RESERVED, SYMBOLS, WORD_SYMBOLS};
use crate::token::TokenKind;

/// What stands at the front of a text, and in how many bytes.
#[derive(Clone, Copy, Debug, PartialEq, Eq)]
pub enum Piece {
    /// Nothing: the text has ended.
    End,
    /// A blank or a comment.
    Blank(usize),
    /// A token.
    Token(TokenKind, usize),
    /// Bytes that begin no token.
    Bad,
}

/// A kind of bytes.
#[derive(Clone, Copy, Debug)]
pub enum Class {
    /// The digits.
    Digit,
    /// What stands in a word.
    Word,
    /// What stands in a line.
    Line,
}

fn is_in(class: Class, b: u8) -> bool
    ensures { result ≡ spec.is_in class b }
{
    match class {
        Class::Digit => b.is_ascii_digit(),
        Class::Word => b.is_ascii_alphanumeric() || b == b'_',
        Class::Line => b != b'\n',
    }
}

/// How many bytes at the front are of the class.
fn run(class: Class, z: &[u8]) -> usize
    ensures value { result ≡ prefix_len (spec.is_in class) z.now }
    ensures within { result ≤ length z.now }
    ensures moves { spec.is_in class (slice_index z.now 0) ≡ true → 0 < length z.now → 0 < result }
{
    let mut end = 0;
    while end < z.len() && is_in(class, z[end]) {
        end += 1;
    }
    end
}

/// The place of a word in a table, the first being at.
fn place(mut table: &[&[u8]], word: &[u8]) -> Option<u8>
    requires { length table.now ≤ 200 }
    ensures value { result ≡ spec.place 0 (map (λ w. w.now) table.entry.now) word.now }
    ensures within { IfSome result (λ k. k < length table.entry.now) }
{
    let mut at = 0;
    while let [entry, rest @ ..] = table {
        if *entry == word {
            return Some(at);
        }
        at += 1;
        table = rest;
    }
    None
}

/// The number that digits stand for, if it is at most 2^63.
fn decimal(digits: &[u8]) -> Option<u64>
    ensures { result ≡ spec.small (spec.value_of digits.now) }
{
    let mut value: u64 = 0;
    for digit in digits {
        if value > 922_337_203_685_477_580 {
            return None;
        }
        value = 10 * value + digit.saturating_sub(b'0') as u64;
    }
    if value > 1 << 63 { None } else { Some(value) }
}

pub fn newlines(z: &[u8]) -> usize
    ensures count { result ≡ spec.newlines z.now }
    ensures within { result ≤ length z.now }
{
    z.iter().filter(|b| **b == b'\n').count()
}

/// The front of a text that begins with a letter or `_`.
#[tactic(auto, unfolding(crate::specs::Piece::word))]
fn word(z: &[u8]) -> Piece
    requires { spec.is_in Class.Word (slice_index z.now 0) ≡ true }
    ensures value { result ≡ spec.word z.now }
    ensures within { spec.Within z.now result }
{
    let end = run(Class::Word, z);
    if end > 32 {
        return Piece::Bad;
    }
    if let Some(symbol) = place(&WORD_SYMBOLS, &z[..end])
        && end < z.len()
        && z[end] == b'='
    {
        return Piece::Token(TokenKind::Symbol(22 + symbol), end + 1);
    }
    match place(&RESERVED, &z[..end]) {
        Some(k) => Piece::Token(TokenKind::Reserved(k), end),
        None => Piece::Token(TokenKind::Name, end),
    }
}

/// The front of a text that begins with a digit.
#[tactic(auto, unfolding(crate::specs::Piece::number))]
fn number(z: &[u8]) -> Piece
    requires { spec.is_in Class.Digit (slice_index z.now 0) ≡ true }
    ensures value { result ≡ spec.number z.now }
    ensures within { spec.Within z.now result }
{
    let end = run(Class::Digit, z);
    if end < z.len() && z[end].is_ascii_alphabetic() {
        return Piece::Bad;
    }
    if z[0] == b'0' && end > 1 {
        return Piece::Bad;
    }
    match decimal(&z[..end]) {
        Some(value) => Piece::Token(TokenKind::Number(value), end),
        None => Piece::Bad,
    }
}

/// The front of a text that begins with no blank, letter or digit.
#[tactic(auto, unfolding(crate::specs::Piece::symbol))]
fn symbol(z: &[u8]) -> Piece
    requires { 0 < length z.now }
    ensures value { result ≡ spec.symbol z.now }
    ensures within { spec.Within z.now result }
{
    if z.len() >= 2
        && let Some(k) = place(&SYMBOLS, &z[..2])
    {
        return Piece::Token(TokenKind::Symbol(k), 2);
    }
    match place(&SYMBOLS, &z[..1]) {
        Some(k) => Piece::Token(TokenKind::Symbol(k), 1),
        None => Piece::Bad,
    }
}

#[tactic(auto, unfolding(crate::specs::Piece::cut))]
pub fn cut(z: &[u8]) -> Piece
    ensures value { result ≡ spec.cut z.now }
    ensures within { spec.Within z.now result }
{
    if z.is_empty() {
        return Piece::End;
    }
    let first = z[0];
    if first == b' ' || first == b'\t' || first == b'\n' {
        Piece::Blank(1)
    } else if first == b'#' {
        Piece::Blank(1 + run(Class::Line, &z[1..]))
    } else if is_in(Class::Digit, first) {
        number(z)
    } else if is_in(Class::Word, first) {
        word(z)
    } else {
        symbol(z)
    }
}
