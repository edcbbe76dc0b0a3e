//! The first breach of the rules on names in headers, and the tensors that they name.
ghost use Rattle.std.specs.Prelude.{◌≡◌, IfOk, OnOk, None, map};
ghost use Rattle.fin_parse.specs.HeaderNames as spec;
ghost use Rattle.fin_parse.specs.Leaves.{head_parts, header_of};
ghost use Rattle.fin_parse.specs.Names.{first_of};

use crate::fills::head_token;
use crate::heads::{Head, head_of};
use crate::names::{binding, breach, tensor_named};
use crate::reserved::{DENSE, DICT};
use crate::scope::Tensor;
use crate::tree::Tree;
use fin_base::{Refusal, Rule};
use fin_lex::{Token, TokenKind};
use std::alloc::{AllocError, Global};

/// Looks at the headers in order, and adds their tensors to those before.
pub(crate) fn check_headers(
    alloc: Global,
    text: &[u8],
    headers: &[Tree],
    tensors: &mut Vec<Tensor>,
) -> Result<Option<Refusal>, AllocError>
    ensures first { IfOk result (λ r. r ≡ first_of (spec.header_breaches text.now tensors.old.items (map header_of headers.now))) }
    ensures tensors { IfOk result (λ r. r ≡ None → tensors.new.items ≡ spec.tensors_of tensors.old.items (map header_of headers.now)) }
{
    for header in headers {
        let head = head_of(alloc, header)?;
        let found = head_breach(text, tensors.as_slice(), &head);
        if found.is_some() {
            return Ok(found);
        }
        add_tensor(tensors, &head)?;
    }
    Ok(None)
}

fn add_tensor(tensors: &mut Vec<Tensor>, head: &Head) -> Result<(), AllocError>
    ensures ok { OnOk result (tensors.new.items ≡ spec.with_tensor tensors.old.items (head_parts head.now)) }
{
    match head_token(head.name.as_slice()) {
        Some(name) => {
            let levels = levels_of(head.format.as_slice());
            tensors.push(Tensor { name, levels })?;
            Ok(())
        }
        None => Ok(()),
    }
}

fn head_breach(text: &[u8], earlier: &[Tensor], head: &Head) -> Option<Refusal>
    ensures value { result ≡ first_of (spec.head_breaches text.now earlier.now (head_parts head.now)) }
{
    let levels = levels_of(head.format.as_slice());
    let count = shape_count(head.shape.as_slice());
    let found = shape_breach(head_token(head.kind.as_slice()), count, levels);
    if found.is_some() {
        return found;
    }
    name_breach(text, earlier, head_token(head.name.as_slice()))
}

fn shape_breach(first: Option<Token>, count: Option<u64>, levels: u64) -> Option<Refusal>
    ensures value { result ≡ first_of (spec.shape_breach first count levels) }
{
    match first {
        None => None,
        Some(first) => match count {
            None => None,
            Some(count) => {
                if count == levels {
                    None
                } else {
                    breach(Rule::N3, first)
                }
            }
        },
    }
}

fn name_breach(text: &[u8], earlier: &[Tensor], name: Option<Token>) -> Option<Refusal>
    ensures value { result ≡ first_of (spec.name_breach text.now earlier.now name) }
{
    match name {
        None => None,
        Some(name) => binding(name, tensor_named(text, earlier, name).is_some()),
    }
}

fn shape_count(tokens: &[Token]) -> Option<u64>
    ensures value { result ≡ spec.shape_count tokens.now }
{
    match tokens {
        [] => None,
        [_, numbers @ ..] => Some(numbers.len() as u64),
    }
}

pub(crate) fn levels_of(words: &[Token]) -> u64
    ensures value { result ≡ spec.levels_of words.now }
{
    words.iter().filter(|word| is_level(word.kind)).count() as u64
}

fn is_level(kind: TokenKind) -> bool
    ensures value { result ≡ spec.is_level kind }
{
    match kind {
        TokenKind::Reserved(place) => DENSE <= place && place <= DICT,
        TokenKind::Name => false,
        TokenKind::Number(_) => false,
        TokenKind::Symbol(_) => false,
    }
}
