//! The indices that trees stand for.
ghost use Rattle.std.specs.Prelude.{◌≡◌, ◌++◌, OnOk, map};
ghost use Rattle.fin_parse.specs.Elaboration as spec;

use crate::grammar::Form;
use crate::naming::Naming;
use crate::numbers::{minus_word, plus_word};
use crate::roles::{Counting, counting_of};
use crate::terms::proto_of;
use crate::tree::Tree;
use fin_ast::Index;
use fin_base::Proto;
use fin_lex::Token;
use fin_tensor::Seq;
use std::alloc::AllocError;

impl<'a> Naming<'a> {
    /// Appends the indices of a part.
    #[cycle(lists)]
    pub(crate) fn indices_at(
        &self,
        parts: &[Tree],
        place: usize,
        into: &mut Seq<Index>,
    ) -> Result<(), AllocError>
        ensures ok { OnOk result (into.new ≡ into.old ++ (spec.part (map (spec.elaboration_of self.now.text.now) parts.now) place).indices (spec.naming_of self.now.tensors.now self.now.bound.now)) }
    {
        match parts.get(place) {
            Some(part) => self.indices(part, into),
            None => Ok(()),
        }
    }

    #[cycle(lists)]
    fn indices(&self, tree: &Tree, into: &mut Seq<Index>) -> Result<(), AllocError>
        ensures ok { OnOk result (into.new ≡ into.old ++ (spec.elaboration_of self.now.text.now tree.now).indices (spec.naming_of self.now.tensors.now self.now.bound.now)) }
    {
        match tree {
            Tree::Leaf(_) => Ok(()),
            Tree::Group(parts) => self.indices_in(parts.as_slice(), into),
            Tree::Node(form, parts) => {
                self.form_indices(*form, counting_of(*form), parts.as_slice(), into)
            }
        }
    }

    #[cycle(lists)]
    fn indices_in(&self, parts: &[Tree], into: &mut Seq<Index>) -> Result<(), AllocError>
        ensures ok { OnOk result (into.new ≡ into.old ++ spec.indices_in self.now.text.now (map (spec.elaboration_of self.now.text.now) parts.now) (spec.naming_of self.now.tensors.now self.now.bound.now)) }
    {
        for part in parts {
            self.indices(part, into)?;
        }
        Ok(())
    }

    #[cycle(lists)]
    fn form_indices(
        &self,
        form: Form,
        counting: Counting,
        parts: &[Tree],
        into: &mut Seq<Index>,
    ) -> Result<(), AllocError>
        ensures ok { OnOk result (into.new ≡ into.old ++ spec.indices_at self.now.text.now form counting (map (spec.elaboration_of self.now.text.now) parts.now) (spec.naming_of self.now.tensors.now self.now.bound.now)) }
    {
        match counting {
            Counting::Never => Ok(()),
            Counting::Second => self.indices_at(parts, 1, into),
            Counting::Single => {
                into.push(self.form_index(form, parts))?;
                Ok(())
            }
            Counting::Sum => self.indices_in(parts, into),
        }
    }

    /// Whether a part has indices, which may be none.
    #[cycle(accesses)]
    pub(crate) fn indexed_at(&self, parts: &[Tree], place: usize) -> bool
        ensures value { result ≡ (spec.part (map (spec.elaboration_of self.now.text.now) parts.now) place).indexed }
    {
        match parts.get(place) {
            Some(part) => self.indexed(part),
            None => false,
        }
    }

    #[cycle(accesses)]
    fn indexed(&self, tree: &Tree) -> bool
        ensures value { result ≡ (spec.elaboration_of self.now.text.now tree.now).indexed }
    {
        match tree {
            Tree::Leaf(_) => false,
            Tree::Group(parts) => !parts.as_slice().is_empty(),
            Tree::Node(form, parts) => self.form_indexed(counting_of(*form), parts.as_slice()),
        }
    }

    #[cycle(accesses)]
    fn form_indexed(&self, counting: Counting, parts: &[Tree]) -> bool
        ensures value { result ≡ spec.indexed_at self.now.text.now counting (map (spec.elaboration_of self.now.text.now) parts.now) }
    {
        match counting {
            Counting::Never => false,
            Counting::Second => self.indexed_at(parts, 1),
            Counting::Single => true,
            Counting::Sum => true,
        }
    }

    #[cycle(indices)]
    fn index_at(&self, parts: &[Tree], place: usize) -> Index
        ensures value { result ≡ (spec.part (map (spec.elaboration_of self.now.text.now) parts.now) place).index (spec.naming_of self.now.tensors.now self.now.bound.now) }
    {
        match parts.get(place) {
            Some(part) => self.index(part),
            None => plain(None, 0),
        }
    }

    #[cycle(indices)]
    fn index(&self, tree: &Tree) -> Index
        ensures value { result ≡ (spec.elaboration_of self.now.text.now tree.now).index (spec.naming_of self.now.tensors.now self.now.bound.now) }
    {
        match tree {
            Tree::Leaf(_) => plain(None, 0),
            Tree::Group(_) => plain(None, 0),
            Tree::Node(form, parts) => self.form_index(*form, parts.as_slice()),
        }
    }

    #[cycle(indices)]
    fn form_index(&self, form: Form, parts: &[Tree]) -> Index
        ensures value { result ≡ spec.index_at self.now.text.now form (map (spec.elaboration_of self.now.text.now) parts.now) (spec.naming_of self.now.tensors.now self.now.bound.now) }
    {
        match form {
            Form::Constant => self.constant(parts),
            Form::Shifted => self.shifted(parts),
            Form::PlainCore => self.index_at(parts, 0),
            Form::LooseCore => self.index_at(parts, 2),
            Form::LooseConstant => self.loose_constant(parts),
            Form::LooseNamed => self.behind_at(parts, 1, self.variable(self.first_at(parts, 0))),
            Form::BareIndex => self.index_at(parts, 0),
            Form::ProtocolIndex => with_protocol(self.first_at(parts, 0), self.index_at(parts, 2)),
            _ => plain(None, 0),
        }
    }

    fn constant(&self, parts: &[Tree]) -> Index
        ensures value { result ≡ spec.index_at self.now.text.now Form.Constant (map (spec.elaboration_of self.now.text.now) parts.now) (spec.naming_of self.now.tensors.now self.now.bound.now) }
    {
        plain(None, plus_word(self.size_at(parts, 0)))
    }

    fn shifted(&self, parts: &[Tree]) -> Index
        ensures value { result ≡ spec.index_at self.now.text.now Form.Shifted (map (spec.elaboration_of self.now.text.now) parts.now) (spec.naming_of self.now.tensors.now self.now.bound.now) }
    {
        plain(
            self.variable(self.first_at(parts, 0)),
            self.number_at(parts, 1),
        )
    }

    fn loose_constant(&self, parts: &[Tree]) -> Index
        ensures value { result ≡ spec.index_at self.now.text.now Form.LooseConstant (map (spec.elaboration_of self.now.text.now) parts.now) (spec.naming_of self.now.tensors.now self.now.bound.now) }
    {
        loose(None, None, plus_word(self.size_at(parts, 0)))
    }

    /// The `~` index of what stands behind its first variable.
    #[cycle(rests)]
    fn behind_at(&self, parts: &[Tree], place: usize, first: Option<u32>) -> Index
        ensures value { result ≡ (spec.part (map (spec.elaboration_of self.now.text.now) parts.now) place).behind (spec.naming_of self.now.tensors.now self.now.bound.now) first }
    {
        match parts.get(place) {
            Some(part) => self.behind(part, first),
            None => loose(first, None, 0),
        }
    }

    #[cycle(rests)]
    fn behind(&self, tree: &Tree, first: Option<u32>) -> Index
        ensures value { result ≡ (spec.elaboration_of self.now.text.now tree.now).behind (spec.naming_of self.now.tensors.now self.now.bound.now) first }
    {
        match tree {
            Tree::Leaf(_) => loose(first, None, 0),
            Tree::Group(parts) => self.behind_at(parts.as_slice(), 0, first),
            Tree::Node(form, parts) => self.form_behind(*form, parts.as_slice(), first),
        }
    }

    #[cycle(rests)]
    fn form_behind(&self, form: Form, parts: &[Tree], first: Option<u32>) -> Index
        ensures value { result ≡ spec.behind_at self.now.text.now form (map (spec.elaboration_of self.now.text.now) parts.now) (spec.naming_of self.now.tensors.now self.now.bound.now) first }
    {
        match form {
            Form::PlusRest => self.behind_at(parts, 1, first),
            Form::MinusRest => loose(first, None, minus_word(self.size_at(parts, 1))),
            Form::AddedNumber => loose(first, None, plus_word(self.size_at(parts, 0))),
            Form::AddedName => loose(
                first,
                self.variable(self.first_at(parts, 0)),
                self.number_at(parts, 1),
            ),
            _ => loose(first, None, 0),
        }
    }
}

#[tactic(auto, unfolding(crate::specs::Elaboration::plain))]
fn plain(first: Option<u32>, offset: i64) -> Index
    ensures value { result ≡ spec.plain first offset }
{
    Index {
        proto: Proto::Walk,
        loose: false,
        first,
        second: None,
        offset,
    }
}

#[tactic(auto, unfolding(crate::specs::Elaboration::loose))]
fn loose(first: Option<u32>, second: Option<u32>, offset: i64) -> Index
    ensures value { result ≡ spec.loose first second offset }
{
    Index {
        proto: Proto::Walk,
        loose: true,
        first,
        second,
        offset,
    }
}

#[tactic(auto, unfolding(crate::specs::Elaboration::with_protocol))]
fn with_protocol(token: Option<Token>, index: Index) -> Index
    ensures value { result ≡ spec.with_protocol token index }
{
    Index {
        proto: proto_of(token),
        loose: index.loose,
        first: index.first,
        second: index.second,
        offset: index.offset,
    }
}
