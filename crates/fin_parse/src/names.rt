//! What a name stands for, and the breach where it stands for nothing that may stand there.
ghost use Rattle.std.specs.Prelude.{◌≡◌};
ghost use Rattle.fin_parse.specs.Names as spec;

use crate::scope::{Bound, Tensor};
use fin_base::{Refusal, Rule};
use fin_lex::Token;

pub(crate) fn text_at(text: &[u8], token: Token) -> &[u8]
    ensures value { result.now ≡ spec.text_at text.now token }
{
    let to = text.len().min(token.to as usize);
    let from = to.min(token.from as usize);
    &text[from..to]
}

pub(crate) fn is_same(text: &[u8], a: Token, b: Token) -> bool
    ensures value { result ≡ spec.is_same text.now a b }
{
    text_at(text, a) == text_at(text, b)
}

pub(crate) fn tensor_named(text: &[u8], tensors: &[Tensor], name: Token) -> Option<Tensor>
    ensures value { result ≡ spec.tensor_named text.now tensors.now name }
{
    for tensor in tensors {
        if is_same(text, tensor.name, name) {
            return Some(*tensor);
        }
    }
    None
}

pub(crate) fn bound_named(text: &[u8], bound: &[Bound], name: Token) -> Option<Bound>
    ensures value { result ≡ spec.bound_named text.now bound.now name }
{
    for variable in bound {
        if is_same(text, variable.name, name) {
            return Some(*variable);
        }
    }
    None
}

pub(crate) fn breach(rule: Rule, name: Token) -> Option<Refusal>
    ensures value { result ≡ spec.first_of (spec.breach rule name) }
{
    Some(Refusal {
        rule,
        line: name.line,
    })
}

pub(crate) fn tensor_use(name: Token, count: Option<u64>, tensor: Option<Tensor>) -> Option<Refusal>
    ensures value { result ≡ spec.first_of (spec.tensor_use name count tensor) }
{
    match tensor {
        None => breach(Rule::N1, name),
        Some(tensor) => match count {
            None => None,
            Some(count) => {
                if count == tensor.levels {
                    None
                } else {
                    breach(Rule::N3, name)
                }
            }
        },
    }
}

pub(crate) fn variable_use(name: Token, variable: Option<Bound>) -> Option<Refusal>
    ensures value { result ≡ spec.first_of (spec.variable_use name variable) }
{
    match variable {
        None => breach(Rule::N1, name),
        Some(_) => None,
    }
}

pub(crate) fn loop_use(name: Token, variable: Option<Bound>) -> Option<Refusal>
    ensures value { result ≡ spec.first_of (spec.loop_use name variable) }
{
    match variable {
        None => breach(Rule::N1, name),
        Some(variable) => {
            if variable.is_loop {
                None
            } else {
                breach(Rule::N1, name)
            }
        }
    }
}

pub(crate) fn binding(name: Token, taken: bool) -> Option<Refusal>
    ensures value { result ≡ spec.first_of (spec.binding name taken) }
{
    if taken { breach(Rule::N2, name) } else { None }
}
