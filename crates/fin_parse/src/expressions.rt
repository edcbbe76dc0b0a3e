//! The expressions that trees stand for.
ghost use Rattle.std.specs.Prelude.{◌≡◌, ◌≤◌, IfOk, length, map};
ghost use Rattle.fin_parse.specs.Elaboration as spec;

use crate::grammar::Form;
use crate::naming::Naming;
use crate::numbers::{line_of, minus_word, plus_word};
use crate::terms::op_of;
use crate::tree::Tree;
use fin_ast::Expr;
use fin_base::Op;
use fin_tensor::Seq;
use sqlite_items::Boxed;
use std::alloc::{AllocError, Global};

impl<'a> Naming<'a> {
    /// The expression of a part.
    #[cycle(values)]
    pub(crate) fn value_at(
        &self,
        alloc: Global,
        parts: &[Tree],
        place: usize,
    ) -> Result<Expr, AllocError>
        requires few { length self.now.tensors.now ≤ 64 }
        ensures value { IfOk result (λ e. e ≡ (spec.part (map (spec.elaboration_of self.now.text.now) parts.now) place).value (spec.naming_of self.now.tensors.now self.now.bound.now)) }
    {
        match parts.get(place) {
            Some(part) => self.value(alloc, part),
            None => Ok(Expr::Num(0)),
        }
    }

    #[cycle(values)]
    fn value(&self, alloc: Global, tree: &Tree) -> Result<Expr, AllocError>
        requires few { length self.now.tensors.now ≤ 64 }
        ensures value { IfOk result (λ e. e ≡ (spec.elaboration_of self.now.text.now tree.now).value (spec.naming_of self.now.tensors.now self.now.bound.now)) }
    {
        match tree {
            Tree::Leaf(_) => Ok(Expr::Num(0)),
            Tree::Group(_) => Ok(Expr::Num(0)),
            Tree::Node(form, parts) => self.form_value(alloc, *form, parts.as_slice()),
        }
    }

    #[cycle(values)]
    fn form_value(&self, alloc: Global, form: Form, parts: &[Tree]) -> Result<Expr, AllocError>
        requires few { length self.now.tensors.now ≤ 64 }
        ensures value { IfOk result (λ e. e ≡ spec.value_at self.now.text.now form (map (spec.elaboration_of self.now.text.now) parts.now) (spec.naming_of self.now.tensors.now self.now.bound.now)) }
    {
        match form {
            Form::Expr => self.continued(alloc, parts),
            Form::Sum => self.continued(alloc, parts),
            Form::Term => self.continued(alloc, parts),
            Form::NumberUnary => Ok(self.constant_value(parts)),
            Form::OtherUnary => self.value_at(alloc, parts, 0),
            Form::Negation => self.value_at(alloc, parts, 1),
            Form::NegatedNumber => Ok(self.negated_constant(parts)),
            Form::NegatedWidest => Ok(self.negated_constant(parts)),
            Form::NegatedOperand => self.negated(alloc, parts),
            Form::NamedOperand => self.named(alloc, parts),
            Form::Parentheses => self.value_at(alloc, parts, 1),
            Form::Call => self.joined_at(alloc, parts, 2, op_of(self.first_at(parts, 0))),
            _ => Ok(Expr::Num(0)),
        }
    }

    /// The expression of the first part, with what follows in the second one.
    #[cycle(values)]
    fn continued(&self, alloc: Global, parts: &[Tree]) -> Result<Expr, AllocError>
        requires few { length self.now.tensors.now ≤ 64 }
        ensures value { IfOk result (λ e. e ≡ spec.value_at self.now.text.now Form.Sum (map (spec.elaboration_of self.now.text.now) parts.now) (spec.naming_of self.now.tensors.now self.now.bound.now)) }
    {
        let left = self.value_at(alloc, parts, 0)?;
        self.onto_at(alloc, parts, 1, left)
    }

    #[cycle(values)]
    fn negated(&self, alloc: Global, parts: &[Tree]) -> Result<Expr, AllocError>
        requires few { length self.now.tensors.now ≤ 64 }
        ensures value { IfOk result (λ e. e ≡ spec.value_at self.now.text.now Form.NegatedOperand (map (spec.elaboration_of self.now.text.now) parts.now) (spec.naming_of self.now.tensors.now self.now.bound.now)) }
    {
        let inner = self.value_at(alloc, parts, 0)?;
        let inner = Boxed::new(alloc, inner)?;
        Ok(Expr::Neg(inner))
    }

    /// The expression of a part that follows another expression.
    #[cycle(values)]
    fn onto_at(
        &self,
        alloc: Global,
        parts: &[Tree],
        place: usize,
        left: Expr,
    ) -> Result<Expr, AllocError>
        requires few { length self.now.tensors.now ≤ 64 }
        ensures value { IfOk result (λ e. e ≡ (spec.part (map (spec.elaboration_of self.now.text.now) parts.now) place).onto (spec.naming_of self.now.tensors.now self.now.bound.now) left) }
    {
        match parts.get(place) {
            Some(part) => self.onto(alloc, part, left),
            None => Ok(left),
        }
    }

    #[cycle(values)]
    fn onto(&self, alloc: Global, tree: &Tree, left: Expr) -> Result<Expr, AllocError>
        requires few { length self.now.tensors.now ≤ 64 }
        ensures value { IfOk result (λ e. e ≡ (spec.elaboration_of self.now.text.now tree.now).onto (spec.naming_of self.now.tensors.now self.now.bound.now) left) }
    {
        match tree {
            Tree::Leaf(_) => Ok(left),
            Tree::Group(parts) => self.onto_all(alloc, parts.as_slice(), left),
            Tree::Node(form, parts) => self.form_onto(alloc, *form, parts.as_slice(), left),
        }
    }

    // A sum may have millions of terms: a loop and no recursion.
    #[cycle(values)]
    fn onto_all(&self, alloc: Global, parts: &[Tree], left: Expr) -> Result<Expr, AllocError>
        requires few { length self.now.tensors.now ≤ 64 }
        ensures value { IfOk result (λ e. e ≡ spec.onto_all self.now.text.now (map (spec.elaboration_of self.now.text.now) parts.now) (spec.naming_of self.now.tensors.now self.now.bound.now) left) }
    {
        let mut whole = left;
        for part in parts {
            whole = self.onto(alloc, part, whole)?;
        }
        Ok(whole)
    }

    #[cycle(values)]
    fn form_onto(
        &self,
        alloc: Global,
        form: Form,
        parts: &[Tree],
        left: Expr,
    ) -> Result<Expr, AllocError>
        requires few { length self.now.tensors.now ≤ 64 }
        ensures value { IfOk result (λ e. e ≡ spec.onto_at self.now.text.now form (map (spec.elaboration_of self.now.text.now) parts.now) (spec.naming_of self.now.tensors.now self.now.bound.now) left) }
    {
        match form {
            Form::Compared => self.with_right(
                alloc,
                op_of(self.first_at(parts, 0)),
                parts,
                1,
                left,
            ),
            Form::PlusTerm => self.with_right(alloc, Op::Add, parts, 1, left),
            Form::MinusTerm => self.with_right(alloc, Op::Sub, parts, 1, left),
            Form::NextUnary => self.with_right(alloc, Op::Mul, parts, 1, left),
            _ => Ok(left),
        }
    }

    /// An operator between an expression and a part.
    #[cycle(values)]
    fn with_right(
        &self,
        alloc: Global,
        op: Op,
        parts: &[Tree],
        place: usize,
        left: Expr,
    ) -> Result<Expr, AllocError>
        requires few { length self.now.tensors.now ≤ 64 }
        ensures value { IfOk result (λ e. e ≡ Expr.Two op left ((spec.part (map (spec.elaboration_of self.now.text.now) parts.now) place).value (spec.naming_of self.now.tensors.now self.now.bound.now))) }
    {
        let right = self.value_at(alloc, parts, place)?;
        two(alloc, op, left, right)
    }

    /// An operator between the two expressions of a pair.
    #[cycle(values)]
    fn joined_at(
        &self,
        alloc: Global,
        parts: &[Tree],
        place: usize,
        op: Op,
    ) -> Result<Expr, AllocError>
        requires few { length self.now.tensors.now ≤ 64 }
        ensures value { IfOk result (λ e. e ≡ (spec.part (map (spec.elaboration_of self.now.text.now) parts.now) place).joined (spec.naming_of self.now.tensors.now self.now.bound.now) op) }
    {
        match parts.get(place) {
            Some(part) => self.joined(alloc, part, op),
            None => Ok(Expr::Num(0)),
        }
    }

    #[cycle(values)]
    fn joined(&self, alloc: Global, tree: &Tree, op: Op) -> Result<Expr, AllocError>
        requires few { length self.now.tensors.now ≤ 64 }
        ensures value { IfOk result (λ e. e ≡ (spec.elaboration_of self.now.text.now tree.now).joined (spec.naming_of self.now.tensors.now self.now.bound.now) op) }
    {
        match tree {
            Tree::Leaf(_) => Ok(Expr::Num(0)),
            Tree::Group(_) => Ok(Expr::Num(0)),
            Tree::Node(form, parts) => self.form_joined(alloc, *form, parts.as_slice(), op),
        }
    }

    #[cycle(values)]
    fn form_joined(
        &self,
        alloc: Global,
        form: Form,
        parts: &[Tree],
        op: Op,
    ) -> Result<Expr, AllocError>
        requires few { length self.now.tensors.now ≤ 64 }
        ensures value { IfOk result (λ e. e ≡ spec.joined_at self.now.text.now form (map (spec.elaboration_of self.now.text.now) parts.now) (spec.naming_of self.now.tensors.now self.now.bound.now) op) }
    {
        match form {
            Form::Pair => {
                let left = self.value_at(alloc, parts, 0)?;
                self.with_right(alloc, op, parts, 2, left)
            }
            _ => Ok(Expr::Num(0)),
        }
    }

    /// A variable, or a tensor where there are indices in brackets.
    fn named(&self, alloc: Global, parts: &[Tree]) -> Result<Expr, AllocError>
        requires few { length self.now.tensors.now ≤ 64 }
        ensures value { IfOk result (λ e. e ≡ spec.value_at self.now.text.now Form.NamedOperand (map (spec.elaboration_of self.now.text.now) parts.now) (spec.naming_of self.now.tensors.now self.now.bound.now)) }
    {
        let name = self.first_at(parts, 0);
        if self.indexed_at(parts, 1) {
            let mut at = Seq::new(alloc);
            self.indices_at(parts, 1, &mut at)?;
            Ok(Expr::Read {
                tensor: self.tensor(name).unwrap_or(0),
                at,
                line: line_of(name),
            })
        } else {
            Ok(Expr::Var {
                var: self.variable(name).unwrap_or(0),
                line: line_of(name),
            })
        }
    }

    fn constant_value(&self, parts: &[Tree]) -> Expr
        ensures value { result ≡ spec.value_at self.now.text.now Form.NumberUnary (map (spec.elaboration_of self.now.text.now) parts.now) (spec.naming_of self.now.tensors.now self.now.bound.now) }
    {
        Expr::Num(plus_word(self.size_at(parts, 0)))
    }

    fn negated_constant(&self, parts: &[Tree]) -> Expr
        ensures value { result ≡ spec.value_at self.now.text.now Form.NegatedNumber (map (spec.elaboration_of self.now.text.now) parts.now) (spec.naming_of self.now.tensors.now self.now.bound.now) }
    {
        Expr::Num(minus_word(self.size_at(parts, 0)))
    }
}

fn two(alloc: Global, op: Op, left: Expr, right: Expr) -> Result<Expr, AllocError>
    ensures value { IfOk result (λ e. e ≡ Expr.Two op left right) }
{
    let left = Boxed::new(alloc, left)?;
    let right = Boxed::new(alloc, right)?;
    Ok(Expr::Two { op, left, right })
}
