//! How many indices a tree has, and the token that it is.
ghost use Rattle.std.specs.Prelude.{◌≡◌, map};
ghost use Rattle.fin_parse.specs.Names as spec;

use crate::roles::{Counting, counting_of};
use crate::scope::Tensor;
use crate::tree::Tree;
use fin_lex::Token;

/// The text and the tensors that its headers name.
#[derive(Clone, Copy)]
pub struct Names<'a> {
    pub text: &'a [u8],
    pub tensors: &'a [Tensor],
}

impl<'a> Names<'a> {
    /// How many indices a tree has, where it may have any.
    #[cycle(counts)]
    pub(crate) fn count_of(&self, tree: &Tree) -> Option<u64>
        ensures value { result ≡ (spec.facts_of self.now.text.now tree.now).count }
    {
        match tree {
            Tree::Leaf(_) => None,
            Tree::Group(parts) => self.group_count(parts.as_slice()),
            Tree::Node(form, parts) => self.form_count(counting_of(*form), parts.as_slice()),
        }
    }

    #[cycle(counts)]
    fn group_count(&self, parts: &[Tree]) -> Option<u64>
        ensures value { result ≡ spec.group_count (map (spec.facts_of self.now.text.now) parts.now) }
    {
        if parts.is_empty() {
            None
        } else {
            Some(self.sum(parts))
        }
    }

    #[cycle(counts)]
    fn form_count(&self, counting: Counting, parts: &[Tree]) -> Option<u64>
        ensures value { result ≡ spec.form_count counting (map (spec.facts_of self.now.text.now) parts.now) }
    {
        match counting {
            Counting::Never => None,
            Counting::Second => self.count_at(parts, 1),
            Counting::Single => Some(1),
            Counting::Sum => Some(self.sum(parts)),
        }
    }

    /// The count of a part.
    #[cycle(counts)]
    pub(crate) fn count_at(&self, parts: &[Tree], place: usize) -> Option<u64>
        ensures value { result ≡ (spec.part_at (map (spec.facts_of self.now.text.now) parts.now) place).count }
    {
        match parts.get(place) {
            Some(part) => self.count_of(part),
            None => None,
        }
    }

    #[cycle(counts)]
    fn sum(&self, parts: &[Tree]) -> u64
        ensures value { result ≡ spec.counted (map (spec.facts_of self.now.text.now) parts.now) }
    {
        let mut total: u64 = 0;
        for part in parts {
            let count = self.count_of(part);
            total = total.saturating_add(count.unwrap_or(0));
        }
        total
    }

    /// The token of a part, where it is one.
    pub(crate) fn token_at(&self, parts: &[Tree], place: usize) -> Option<Token>
        ensures value { result ≡ (spec.part_at (map (spec.facts_of self.now.text.now) parts.now) place).token }
    {
        match parts.get(place) {
            Some(part) => self.token_of(part),
            None => None,
        }
    }

    fn token_of(&self, tree: &Tree) -> Option<Token>
        ensures value { result ≡ (spec.facts_of self.now.text.now tree.now).token }
    {
        match tree {
            Tree::Leaf(token) => Some(*token),
            Tree::Group(_) => None,
            Tree::Node(_, _) => None,
        }
    }
}
