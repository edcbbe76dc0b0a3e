//! The first declaration with another value than the fill.
ghost use Rattle.std.specs.Prelude.{◌≡◌, IfOk, map};
ghost use Rattle.fin_parse.specs.Fills as spec;
ghost use Rattle.fin_parse.specs.Leaves.{leaves_of, fills_of, own_fills, leaves_at};
ghost use Rattle.fin_parse.specs.Names.{first_of};

use crate::heads::tokens_at;
use crate::names::{breach, is_same};
use crate::roles::{Role, role_of};
use crate::scope::{Fill, Literal};
use crate::tree::Tree;
use fin_base::{Refusal, Rule};
use fin_lex::{Token, TokenKind};
use std::alloc::{AllocError, Global};

/// The first breach in a tree.
#[cycle(fills)]
fn check_fill(
    alloc: Global,
    text: &[u8],
    known: &[Fill],
    tree: &Tree,
) -> Result<Option<Refusal>, AllocError>
    ensures first { IfOk result (λ r. r ≡ first_of ((leaves_of tree.now).fills text.now known.now)) }
{
    match tree {
        Tree::Leaf(_) => Ok(None),
        Tree::Group(parts) => check_fills(alloc, text, known, parts.as_slice()),
        Tree::Node(form, parts) => {
            let own = own_fill(alloc, text, known, role_of(*form), parts.as_slice())?;
            if own.is_some() {
                return Ok(own);
            }
            check_fills(alloc, text, known, parts.as_slice())
        }
    }
}

/// The first breach in some trees.
#[cycle(fills)]
pub(crate) fn check_fills(
    alloc: Global,
    text: &[u8],
    known: &[Fill],
    parts: &[Tree],
) -> Result<Option<Refusal>, AllocError>
    ensures first { IfOk result (λ r. r ≡ first_of (fills_of (map leaves_of parts.now) text.now known.now)) }
{
    for part in parts {
        let found = check_fill(alloc, text, known, part)?;
        if found.is_some() {
            return Ok(found);
        }
    }
    Ok(None)
}

fn own_fill(
    alloc: Global,
    text: &[u8],
    known: &[Fill],
    role: Role,
    parts: &[Tree],
) -> Result<Option<Refusal>, AllocError>
    ensures first { IfOk result (λ r. r ≡ first_of (own_fills role (leaves_at (map leaves_of parts.now) 0).all (leaves_at (map leaves_of parts.now) 1).all text.now known.now)) }
{
    match role {
        Role::Changed => {
            let name = tokens_at(alloc, parts, 0)?;
            let change = tokens_at(alloc, parts, 1)?;
            Ok(fill_breach(text, known, head_token(name.as_slice()), change.as_slice()))
        }
        Role::LoopName => Ok(None),
        Role::LetName => Ok(None),
        Role::Turned => Ok(None),
        Role::Operand => Ok(None),
        Role::IndexName => Ok(None),
        Role::LooseName => Ok(None),
        Role::AddedName => Ok(None),
        Role::Other => Ok(None),
    }
}

fn fill_breach(
    text: &[u8],
    known: &[Fill],
    name: Option<Token>,
    change: &[Token],
) -> Option<Refusal>
    ensures value { result ≡ first_of (spec.fill_breach text.now known.now name change.now) }
{
    match name {
        None => None,
        Some(name) => match change {
            [] => None,
            [sign, value @ ..] => {
                if is_declares(sign.kind) {
                    unlike(fill_named(text, known, name), name, literal_of(value))
                } else {
                    None
                }
            }
        },
    }
}

fn unlike(fill: Option<Fill>, name: Token, value: Literal) -> Option<Refusal>
    ensures value { result ≡ first_of (spec.unlike fill name value) }
{
    match fill {
        None => None,
        Some(fill) => {
            if same_literal(fill.value, value) {
                None
            } else {
                breach(Rule::F2, name)
            }
        }
    }
}

fn fill_named(text: &[u8], known: &[Fill], name: Token) -> Option<Fill>
    ensures value { result ≡ spec.fill_named text.now known.now name }
{
    for fill in known {
        if is_same(text, fill.name, name) {
            return Some(*fill);
        }
    }
    None
}

fn same_literal(a: Literal, b: Literal) -> bool
    ensures value { result ≡ spec.same_literal a b }
{
    same_bool(a.negative, b.negative) && a.magnitude == b.magnitude
}

fn same_bool(a: bool, b: bool) -> bool
    ensures value { result ≡ spec.same_bool a b }
{
    if a { b } else { !b }
}

/// The value of a number, or of a minus and a number; 0 where there is none.
pub(crate) fn literal_of(tokens: &[Token]) -> Literal
    ensures value { result ≡ spec.literal_of tokens.now }
{
    match tokens {
        [] => Literal {
            negative: false,
            magnitude: 0,
        },
        [number] => Literal {
            negative: false,
            magnitude: number_of(number.kind),
        },
        [_, number, ..] => negated(number_of(number.kind)),
    }
}

fn negated(magnitude: u64) -> Literal
    ensures value { result ≡ spec.negated magnitude }
{
    Literal {
        negative: magnitude != 0,
        magnitude,
    }
}

/// The value of a number, 0 for another token.
pub(crate) fn number_of(kind: TokenKind) -> u64
    ensures value { result ≡ spec.number_of kind }
{
    match kind {
        TokenKind::Number(value) => value,
        TokenKind::Name => 0,
        TokenKind::Reserved(_) => 0,
        TokenKind::Symbol(_) => 0,
    }
}

fn is_declares(kind: TokenKind) -> bool
    ensures value { result ≡ spec.is_declares kind }
{
    match kind {
        TokenKind::Symbol(place) => place == 20,
        TokenKind::Name => false,
        TokenKind::Number(_) => false,
        TokenKind::Reserved(_) => false,
    }
}

pub(crate) fn head_token(tokens: &[Token]) -> Option<Token>
    ensures value { result ≡ spec.head_token tokens.now }
{
    match tokens {
        [] => None,
        [token, ..] => Some(*token),
    }
}
