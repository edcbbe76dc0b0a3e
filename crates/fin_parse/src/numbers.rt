//! The first tokens of trees, and the numbers that they stand for.
ghost use Rattle.std.specs.Prelude.{◌≡◌, map};
ghost use Rattle.fin_parse.specs.Elaboration as spec;

use crate::fills::number_of;
use crate::grammar::Form;
use crate::naming::Naming;
use crate::tree::Tree;
use fin_lex::Token;

impl<'a> Naming<'a> {
    /// The first token of a tree.
    #[cycle(firsts)]
    pub(crate) fn first(&self, tree: &Tree) -> Option<Token>
        ensures value { result ≡ (spec.elaboration_of self.now.text.now tree.now).first }
    {
        match tree {
            Tree::Leaf(token) => Some(*token),
            Tree::Group(parts) => self.first_at(parts.as_slice(), 0),
            Tree::Node(_, parts) => self.first_at(parts.as_slice(), 0),
        }
    }

    /// The first token of a part.
    #[cycle(firsts)]
    pub(crate) fn first_at(&self, parts: &[Tree], place: usize) -> Option<Token>
        ensures value { result ≡ (spec.part (map (spec.elaboration_of self.now.text.now) parts.now) place).first }
    {
        match parts.get(place) {
            Some(part) => self.first(part),
            None => None,
        }
    }

    /// The closing brace of a part, where it is a body.
    pub(crate) fn closing_at(&self, parts: &[Tree], place: usize) -> Option<Token>
        ensures value { result ≡ (spec.part (map (spec.elaboration_of self.now.text.now) parts.now) place).closing }
    {
        match parts.get(place) {
            Some(part) => self.closing(part),
            None => None,
        }
    }

    fn closing(&self, tree: &Tree) -> Option<Token>
        ensures value { result ≡ (spec.elaboration_of self.now.text.now tree.now).closing }
    {
        match tree {
            Tree::Leaf(_) => None,
            Tree::Group(_) => None,
            Tree::Node(form, parts) => self.form_closing(*form, parts.as_slice()),
        }
    }

    fn form_closing(&self, form: Form, parts: &[Tree]) -> Option<Token>
        ensures value { result ≡ spec.closing_at self.now.text.now form (map (spec.elaboration_of self.now.text.now) parts.now) }
    {
        match form {
            Form::Body => self.first_at(parts, 2),
            _ => None,
        }
    }

    /// The value of the first token of a part, where that is a number.
    #[cycle(sizes)]
    pub(crate) fn size_at(&self, parts: &[Tree], place: usize) -> u64
        ensures value { result ≡ (spec.part (map (spec.elaboration_of self.now.text.now) parts.now) place).size }
    {
        match parts.get(place) {
            Some(part) => self.size(part),
            None => 0,
        }
    }

    #[cycle(sizes)]
    fn size(&self, tree: &Tree) -> u64
        ensures value { result ≡ (spec.elaboration_of self.now.text.now tree.now).size }
    {
        match tree {
            Tree::Leaf(token) => number_of(token.kind),
            Tree::Group(parts) => self.size_at(parts.as_slice(), 0),
            Tree::Node(_, parts) => self.size_at(parts.as_slice(), 0),
        }
    }

    /// The word of a part that is a number with its sign.
    #[cycle(numbers)]
    pub(crate) fn number_at(&self, parts: &[Tree], place: usize) -> i64
        ensures value { result ≡ (spec.part (map (spec.elaboration_of self.now.text.now) parts.now) place).number }
    {
        match parts.get(place) {
            Some(part) => self.number(part),
            None => 0,
        }
    }

    #[cycle(numbers)]
    fn number(&self, tree: &Tree) -> i64
        ensures value { result ≡ (spec.elaboration_of self.now.text.now tree.now).number }
    {
        match tree {
            Tree::Leaf(_) => 0,
            Tree::Group(parts) => self.number_at(parts.as_slice(), 0),
            Tree::Node(form, parts) => self.form_number(*form, parts.as_slice()),
        }
    }

    fn form_number(&self, form: Form, parts: &[Tree]) -> i64
        ensures value { result ≡ spec.number_at form (map (spec.elaboration_of self.now.text.now) parts.now) }
    {
        match form {
            Form::PlusInt => plus_word(self.size_at(parts, 0)),
            Form::MinusInt => minus_word(self.size_at(parts, 1)),
            Form::PlusOffset => plus_word(self.size_at(parts, 1)),
            Form::MinusOffset => minus_word(self.size_at(parts, 1)),
            _ => 0,
        }
    }

    /// The range of a part.
    #[cycle(ranges)]
    pub(crate) fn range_at(&self, parts: &[Tree], place: usize) -> Option<(u64, u64)>
        ensures value { result ≡ (spec.part (map (spec.elaboration_of self.now.text.now) parts.now) place).range }
    {
        match parts.get(place) {
            Some(part) => self.range(part),
            None => None,
        }
    }

    #[cycle(ranges)]
    fn range(&self, tree: &Tree) -> Option<(u64, u64)>
        ensures value { result ≡ (spec.elaboration_of self.now.text.now tree.now).range }
    {
        match tree {
            Tree::Leaf(_) => None,
            Tree::Group(parts) => self.range_at(parts.as_slice(), 0),
            Tree::Node(form, parts) => self.form_range(*form, parts.as_slice()),
        }
    }

    fn form_range(&self, form: Form, parts: &[Tree]) -> Option<(u64, u64)>
        ensures value { result ≡ spec.range_at form (map (spec.elaboration_of self.now.text.now) parts.now) }
    {
        match form {
            Form::Range => Some((self.size_at(parts, 1), self.size_at(parts, 3))),
            _ => None,
        }
    }
}

/// The line of a token, 0 where there is none.
pub(crate) fn line_of(token: Option<Token>) -> u32
    ensures value { result ≡ spec.line_of token }
{
    match token {
        Some(token) => token.line,
        None => 0,
    }
}

/// The word of a number; one of 2^63 or more wraps.
pub(crate) fn plus_word(n: u64) -> i64
    ensures value { result ≡ spec.plus_word n }
{
    n.cast_signed()
}

/// The word of a number behind a minus; that of 2^63 is the least word.
pub(crate) fn minus_word(n: u64) -> i64
    ensures value { result ≡ spec.minus_word n }
{
    n.cast_signed().wrapping_neg()
}
