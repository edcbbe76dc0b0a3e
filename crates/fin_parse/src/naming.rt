//! What names stand for at a place: tensors by the numbers of their headers, and variables in order of binding.
ghost use Rattle.std.specs.Prelude.{◌≡◌, ◌≤◌, IfOk, List, length};
ghost use Rattle.std.specs.List.{find};
ghost use Rattle.fin_parse.specs.Elaboration as spec;
ghost use Rattle.fin_parse.specs.Names as names;

use crate::names::is_same;
use crate::scope::Tensor;
use fin_lex::Token;
use std::alloc::{AllocError, Global};

/// A variable that is bound: its name, and its number in order of binding.
#[derive(Clone, Copy, Debug, PartialEq, Eq)]
pub struct Variable {
    pub name: Token,
    pub number: u32,
}

/// What names stand for at a place of a text: the tensors of its headers, and the variables that are bound, outermost
/// first.
#[derive(Clone, Copy)]
pub(crate) struct Naming<'a> {
    pub text: &'a [u8],
    pub tensors: &'a [Tensor],
    pub bound: &'a [Variable],
}

impl<'a> Naming<'a> {
    /// The number of the first tensor with a name.
    pub(crate) fn tensor(&self, name: Option<Token>) -> Option<u8>
        requires few { length self.now.tensors.now ≤ 64 }
        ensures value { result ≡ spec.tensor_number self.now.text.now (spec.naming_of self.now.tensors.now self.now.bound.now) name }
    {
        match name {
            Some(name) => tensor_numbered(self.text, self.tensors, name),
            None => None,
        }
    }

    /// The number of the outermost variable with a name.
    pub(crate) fn variable(&self, name: Option<Token>) -> Option<u32>
        ensures value { result ≡ spec.variable_number self.now.text.now (spec.naming_of self.now.tensors.now self.now.bound.now) name }
    {
        match name {
            Some(name) => match variable_named(self.text, self.bound, name) {
                Some(variable) => Some(variable.number),
                None => None,
            },
            None => None,
        }
    }

    /// The variables with one more, where it has a name.
    pub(crate) fn with_variable(
        &self,
        alloc: Global,
        name: Option<Token>,
        number: u32,
    ) -> Result<Vec<Variable>, AllocError>
        ensures value { IfOk result (λ b. spec.naming_of self.now.tensors.now b.items ≡ spec.with_variable (spec.naming_of self.now.tensors.now self.now.bound.now) name number) }
    {
        let mut bound = Vec::from_slice(alloc, self.bound)?;
        match name {
            Some(name) => {
                bound.push(Variable { name, number })?;
                Ok(bound)
            }
            None => Ok(bound),
        }
    }
}

fn tensor_numbered(text: &[u8], tensors: &[Tensor], name: Token) -> Option<u8>
    requires few { length tensors.now ≤ 64 }
    ensures value { result ≡ spec.tensor_from 0 text.now tensors.now name }
{
    let mut number: u8 = 0;
    for tensor in tensors {
        if is_same(text, tensor.name, name) {
            return Some(number);
        }
        number += 1;
    }
    None
}

fn variable_named(text: &[u8], bound: &[Variable], name: Token) -> Option<Variable>
    ensures value { result ≡ find (λ (v : Variable). names.is_same text.now v.name name) bound.now }
{
    for variable in bound {
        if is_same(text, variable.name, name) {
            return Some(*variable);
        }
    }
    None
}
