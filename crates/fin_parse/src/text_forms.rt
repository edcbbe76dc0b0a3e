//! The rules on formats and fills in a whole text.
ghost use Rattle.std.specs.Prelude.{◌≡◌, IfOk, OnOk, None, map};
ghost use Rattle.fin_parse.specs.TextForms as spec;
ghost use Rattle.fin_parse.specs.TextNames.{FirstBreach};
ghost use Rattle.fin_parse.specs.Leaves.{head_parts, header_of};
ghost use Rattle.fin_parse.specs.Names.{first_of};

use crate::fills::{check_fills, head_token, literal_of};
use crate::format_words::{begins_with, is_placed};
use crate::heads::{Head, head_of};
use crate::names::breach;
use crate::reserved::IN;
use crate::scope::{Fill, Literal};
use crate::tree::Tree;
use crate::trees::Text;
use fin_base::{Fail, Refusal, Rule};
use fin_lex::Token;
use std::alloc::{AllocError, Global};

/// Looks at the formats and fills of a text.
///
/// # Errors
/// The first breach in the order of the text: `F1` at a header whose format is misplaced, `F2` at a declaration with
/// another value than the tensor's fill.
pub fn check_forms(alloc: Global, text: &[u8], trees: &Text) -> Result<(), Fail>
    ensures forms { FirstBreach (spec.form_breaches text.now trees.now) result }
{
    let mut known = Vec::new(alloc);
    let found = check_formats(alloc, trees.headers.as_slice(), &mut known)?;
    if let Some(refusal) = found {
        return Err(Fail::Refused(refusal));
    }
    let found = check_fills(alloc, text, known.as_slice(), trees.body.as_slice())?;
    match found {
        Some(refusal) => Err(Fail::Refused(refusal)),
        None => Ok(()),
    }
}

/// Looks at the formats of headers in order, and adds their fills to those before.
fn check_formats(
    alloc: Global,
    headers: &[Tree],
    known: &mut Vec<Fill>,
) -> Result<Option<Refusal>, AllocError>
    ensures first { IfOk result (λ r. r ≡ first_of (spec.format_breaches (map header_of headers.now))) }
    ensures fills { IfOk result (λ r. r ≡ None → known.new.items ≡ spec.known_fills known.old.items (map header_of headers.now)) }
{
    for header in headers {
        let head = head_of(alloc, header)?;
        let found = head_format(&head);
        if found.is_some() {
            return Ok(found);
        }
        add_fill(known, &head)?;
    }
    Ok(None)
}

fn add_fill(known: &mut Vec<Fill>, head: &Head) -> Result<(), AllocError>
    ensures ok { OnOk result (known.new.items ≡ spec.with_fill known.old.items (head_parts head.now)) }
{
    match head_token(head.name.as_slice()) {
        Some(name) => {
            let value = given_fill(head.fill.as_slice());
            known.push(Fill { name, value })?;
            Ok(())
        }
        None => Ok(()),
    }
}

fn head_format(head: &Head) -> Option<Refusal>
    ensures value { result ≡ first_of (spec.head_format (head_parts head.now)) }
{
    let input = begins_with(IN, head.kind.as_slice());
    format_breach(
        head_token(head.kind.as_slice()),
        is_placed(input, head.format.as_slice()),
    )
}

fn format_breach(first: Option<Token>, placed: bool) -> Option<Refusal>
    ensures value { result ≡ first_of (spec.format_breach first placed) }
{
    match first {
        None => None,
        Some(first) => {
            if placed {
                None
            } else {
                breach(Rule::F1, first)
            }
        }
    }
}

pub(crate) fn given_fill(tokens: &[Token]) -> Literal
    ensures value { result ≡ spec.given_fill tokens.now }
{
    match tokens {
        [] => Literal {
            negative: false,
            magnitude: 0,
        },
        [_, value @ ..] => literal_of(value),
    }
}
