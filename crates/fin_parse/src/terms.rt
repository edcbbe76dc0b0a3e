//! What the symbols and reserved words of the grammar's terms stand for.
ghost use Rattle.std.specs.Prelude.{◌≡◌, ◌-◌, slice_index_or};
ghost use Rattle.fin_parse.specs.Terms as spec;

use fin_base::{Op, Proto, Reduce};
use fin_lex::{Token, TokenKind};

/// The operators of calls, in the order of their reserved words.
pub const CALLS: [Op; 5] = [Op::Min, Op::Max, Op::And, Op::Or, Op::Xor];

/// The comparisons, in the order of their symbols.
pub const COMPARISONS: [Op; 6] = [Op::Lt, Op::Le, Op::Gt, Op::Ge, Op::Eq, Op::Ne];

/// The protocols, in the order of their reserved words.
pub const PROTOCOLS: [Proto; 3] = [Proto::Walk, Proto::Gallop, Proto::Follow];

/// The reductions whose symbols begin with a word, in the order of these symbols.
pub const WORD_REDUCTIONS: [Reduce; 5] = [
    Reduce::Min,
    Reduce::Max,
    Reduce::And,
    Reduce::Or,
    Reduce::Xor,
];

/// The places of reserved words and of symbols in their tables.
const PAR: u8 = 6;

const FREEZE: u8 = 9;

const WALK: u8 = 11;

const MIN: u8 = 14;

const LESS: u8 = 11;

const ADDS: u8 = 18;

const MULTIPLIES: u8 = 19;

const MINIMIZES: u8 = 22;

/// The operator of a call or of a comparison.
pub(crate) fn op_of(token: Option<Token>) -> Op
    ensures value { result ≡ spec.op_of token }
{
    match token {
        None => Op::Ne,
        Some(token) => match token.kind {
            TokenKind::Reserved(place) => call_of(place),
            TokenKind::Symbol(place) => comparison_of(place),
            TokenKind::Name => Op::Ne,
            TokenKind::Number(_) => Op::Ne,
        },
    }
}

fn call_of(place: u8) -> Op
    ensures value { result ≡ slice_index_or CALLS (place - 14) Op.Xor }
{
    let k = place.saturating_sub(MIN) as usize;
    if k < CALLS.len() { CALLS[k] } else { Op::Xor }
}

fn comparison_of(place: u8) -> Op
    ensures value { result ≡ slice_index_or COMPARISONS (place - 11) Op.Ne }
{
    let k = place.saturating_sub(LESS) as usize;
    if k < COMPARISONS.len() {
        COMPARISONS[k]
    } else {
        Op::Ne
    }
}

/// The protocol that a token names.
pub(crate) fn proto_of(token: Option<Token>) -> Proto
    ensures value { result ≡ spec.proto_of token }
{
    match token {
        None => Proto::Walk,
        Some(token) => match token.kind {
            TokenKind::Reserved(place) => protocol_of(place),
            TokenKind::Symbol(_) => Proto::Walk,
            TokenKind::Name => Proto::Walk,
            TokenKind::Number(_) => Proto::Walk,
        },
    }
}

fn protocol_of(place: u8) -> Proto
    ensures value { result ≡ slice_index_or PROTOCOLS (place - 11) Proto.Walk }
{
    let k = place.saturating_sub(WALK) as usize;
    if k < PROTOCOLS.len() {
        PROTOCOLS[k]
    } else {
        Proto::Walk
    }
}

/// The reduction of the symbol of an update.
pub(crate) fn reduce_of(token: Option<Token>) -> Reduce
    ensures value { result ≡ spec.reduce_of token }
{
    match token {
        None => Reduce::Put,
        Some(token) => match token.kind {
            TokenKind::Symbol(place) => reduction_of(place),
            TokenKind::Reserved(_) => Reduce::Put,
            TokenKind::Name => Reduce::Put,
            TokenKind::Number(_) => Reduce::Put,
        },
    }
}

fn reduction_of(place: u8) -> Reduce
    ensures value { result ≡ spec.reduce_of_place place }
{
    if place == ADDS {
        Reduce::Add
    } else if place == MULTIPLIES {
        Reduce::Mul
    } else if place < MINIMIZES {
        Reduce::Put
    } else {
        word_reduction_of(place)
    }
}

fn word_reduction_of(place: u8) -> Reduce
    ensures value { result ≡ slice_index_or WORD_REDUCTIONS (place - 22) Reduce.Put }
{
    let k = place.saturating_sub(MINIMIZES) as usize;
    if k < WORD_REDUCTIONS.len() {
        WORD_REDUCTIONS[k]
    } else {
        Reduce::Put
    }
}

/// Whether a loop is parallel, by the token that leads it.
pub(crate) fn is_par(token: Option<Token>) -> bool
    ensures value { result ≡ spec.is_par token }
{
    is_word_at(PAR, token)
}

/// Whether a tensor is frozen, and not thawed, by the token that leads the statement.
pub(crate) fn is_freeze(token: Option<Token>) -> bool
    ensures value { result ≡ spec.is_freeze token }
{
    is_word_at(FREEZE, token)
}

fn is_word_at(place: u8, token: Option<Token>) -> bool
    ensures value { result ≡ spec.is_word_at place token }
{
    match token {
        None => false,
        Some(token) => match token.kind {
            TokenKind::Reserved(k) => k == place,
            TokenKind::Symbol(_) => false,
            TokenKind::Name => false,
            TokenKind::Number(_) => false,
        },
    }
}
