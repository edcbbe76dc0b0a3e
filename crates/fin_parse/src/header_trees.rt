//! The headers that trees stand for.
ghost use Rattle.std.specs.Prelude.{◌≡◌, ◌≤◌, IfOk, length, map, nat_eq};
ghost use Rattle.std.specs.Cmp.Lexicographic.{pointwise};
ghost use Rattle.std.specs.List.{IsDistinct};
ghost use Rattle.fin_base.specs.Words.{IsWord};
ghost use Rattle.fin_ast.specs.Headers.{names_of};
ghost use Rattle.fin_parse.specs.HeaderTrees as spec;
ghost use Rattle.fin_parse.specs.Leaves.{head_parts, header_of};

use crate::fills::number_of;
use crate::format_words::begins_with;
use crate::formats::{levels_in, wrap_of};
use crate::heads::{Head, head_of};
use crate::names::text_at;
use crate::reserved::{IN, OUT};
use crate::scope::Literal;
use crate::text_forms::given_fill;
use crate::trees::Text;
use fin_ast::{Header, Kind};
use fin_lex::Token;
use fin_tensor::{Format, Name, Nums, Seq};
use std::alloc::{AllocError, Global};

/// The headers of a text that keeps the rules, in order: at most 64, with different names.
pub(crate) fn headers(alloc: Global, text: &[u8], trees: &Text) -> Result<Seq<Header>, AllocError>
    requires accepted { spec.IsAcceptedText text.now trees.now }
    ensures headers { IfOk result (λ hs. spec.AreHeadersOf text.now (map header_of trees.now.headers) hs) }
    ensures distinct { IfOk result (λ hs. IsDistinct (pointwise nat_eq) (names_of hs)) }
    ensures few { IfOk result (λ hs. length hs ≤ 64) }
{
    let mut headers = Seq::new(alloc);
    for tree in trees.headers.as_slice() {
        let head = head_of(alloc, tree)?;
        let header = header(alloc, text, &head)?;
        headers.push(header)?;
    }
    Ok(headers)
}

fn header(alloc: Global, text: &[u8], head: &Head) -> Result<Header, AllocError>
    requires sound { spec.IsSound (head_parts head.now) }
    ensures value { IfOk result (λ h. spec.IsHeader text.now (head_parts head.now) h) }
{
    let name = name_of(alloc, text, head.name.as_slice())?;
    let levels = levels_in(alloc, head.format.as_slice())?;
    let shape = shape_of(alloc, head.shape.as_slice())?;
    Ok(Header {
        kind: kind_of(head.kind.as_slice()),
        name,
        format: Format {
            levels,
            wrap: wrap_of(head.format.as_slice()),
            fill: integer_of(given_fill(head.fill.as_slice())),
        },
        shape,
        line: line_of(head.kind.as_slice()),
    })
}

fn kind_of(words: &[Token]) -> Kind
    ensures value { result ≡ spec.kind_of words.now }
{
    if begins_with(IN, words) {
        Kind::Input
    } else if begins_with(OUT, words) {
        Kind::Output
    } else {
        Kind::Local
    }
}

fn name_of(alloc: Global, text: &[u8], tokens: &[Token]) -> Result<Name, AllocError>
    ensures value { IfOk result (λ name. name ≡ spec.name_of text.now tokens.now) }
{
    match tokens {
        [] => Ok(Seq::new(alloc)),
        [token, ..] => bytes_in(alloc, text_at(text, *token)),
    }
}

fn bytes_in(alloc: Global, mut bytes: &[u8]) -> Result<Name, AllocError>
    ensures value { IfOk result (λ name. name ≡ bytes.entry.now) }
{
    let mut name = Seq::new(alloc);
    while let [byte, rest @ ..] = bytes {
        name.push(*byte)?;
        bytes = rest;
    }
    Ok(name)
}

fn integer_of(value: Literal) -> i64
    requires word { IsWord (spec.integer_of value) }
    ensures value { result ≡ spec.integer_of value }
{
    if value.negative {
        -1 - value.magnitude.saturating_sub(1) as i64
    } else {
        value.magnitude as i64
    }
}

fn shape_of(alloc: Global, tokens: &[Token]) -> Result<Option<Nums>, AllocError>
    ensures value { IfOk result (λ shape. shape ≡ spec.shape_of tokens.now) }
{
    match tokens {
        [] => Ok(None),
        [_, numbers @ ..] => {
            let numbers = numbers_in(alloc, numbers)?;
            Ok(Some(numbers))
        }
    }
}

fn numbers_in(alloc: Global, mut tokens: &[Token]) -> Result<Nums, AllocError>
    ensures value { IfOk result (λ numbers. numbers ≡ spec.numbers_in tokens.entry.now) }
{
    let mut numbers = Seq::new(alloc);
    while let [token, rest @ ..] = tokens {
        numbers.push(number_of(token.kind))?;
        tokens = rest;
    }
    Ok(numbers)
}

fn line_of(tokens: &[Token]) -> u32
    ensures value { result ≡ spec.line_of tokens.now }
{
    match tokens {
        [] => 0,
        [token, ..] => token.line,
    }
}
