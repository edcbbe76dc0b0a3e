//! The statements that trees stand for.
ghost use Rattle.std.specs.Prelude.{◌≡◌, ◌+◌, ◌≤◌, ◌++◌, IfOk, OnOk, None, length, map};
ghost use Rattle.fin_parse.specs.Elaboration as spec;

use crate::counts::Names;
use crate::grammar::Form;
use crate::naming::Naming;
use crate::numbers::line_of;
use crate::terms::{is_freeze, is_par, reduce_of};
use crate::tree::Tree;
use fin_ast::Stmt;
use fin_lex::Token;
use fin_tensor::Seq;
use sqlite_items::Items;
use std::alloc::{AllocError, Global};

/// The statements of a whole text, whose headers name the tensors.
pub(crate) fn statements_of(
    alloc: Global,
    names: &Names,
    body: &[Tree],
) -> Result<Items<Stmt>, AllocError>
    requires few { length names.now.tensors.now ≤ 64 }
    requires room { spec.binders_in names.now.text.now (map (spec.elaboration_of names.now.text.now) body.now) ≤ 4294967295 }
    ensures value { IfOk result (λ b. b ≡ spec.statements_of names.now.text.now names.now.tensors.now body.now) }
{
    let naming = Naming {
        text: names.text,
        tensors: names.tensors,
        bound: &[],
    };
    let mut statements = Items::new(alloc);
    naming.statements_in(alloc, body, 0, &mut statements)?;
    Ok(statements)
}

/// Each of these appends statements, and gives the number behind that of their last variable.
impl<'a> Naming<'a> {
    #[cycle(statements)]
    fn statements_in(
        &self,
        alloc: Global,
        parts: &[Tree],
        next: u32,
        into: &mut Items<Stmt>,
    ) -> Result<u32, AllocError>
        requires few { length self.now.tensors.now ≤ 64 }
        requires room { next + spec.binders_in self.now.text.now (map (spec.elaboration_of self.now.text.now) parts.now) ≤ 4294967295 }
        ensures behind { IfOk result (λ n. n ≡ next + spec.binders_in self.now.text.now (map (spec.elaboration_of self.now.text.now) parts.now)) }
        ensures statements { OnOk result (into.new ≡ into.old ++ spec.stmts_in self.now.text.now (map (spec.elaboration_of self.now.text.now) parts.now) (spec.naming_of self.now.tensors.now self.now.bound.now) next) }
    {
        let mut number = next;
        for part in parts {
            number = self.statements(alloc, part, None, number, into)?;
        }
        Ok(number)
    }

    #[cycle(statements)]
    fn statements_at(
        &self,
        alloc: Global,
        parts: &[Tree],
        place: usize,
        lead: Option<Token>,
        next: u32,
        into: &mut Items<Stmt>,
    ) -> Result<u32, AllocError>
        requires few { length self.now.tensors.now ≤ 64 }
        requires room { next + (spec.part (map (spec.elaboration_of self.now.text.now) parts.now) place).binders ≤ 4294967295 }
        ensures behind { IfOk result (λ n. n ≡ next + (spec.part (map (spec.elaboration_of self.now.text.now) parts.now) place).binders) }
        ensures statements { OnOk result (into.new ≡ into.old ++ (spec.part (map (spec.elaboration_of self.now.text.now) parts.now) place).stmts lead (spec.naming_of self.now.tensors.now self.now.bound.now) next) }
    {
        match parts.get(place) {
            Some(part) => self.statements(alloc, part, lead, next, into),
            None => Ok(next),
        }
    }

    #[cycle(statements)]
    fn statements(
        &self,
        alloc: Global,
        tree: &Tree,
        lead: Option<Token>,
        next: u32,
        into: &mut Items<Stmt>,
    ) -> Result<u32, AllocError>
        requires few { length self.now.tensors.now ≤ 64 }
        requires room { next + (spec.elaboration_of self.now.text.now tree.now).binders ≤ 4294967295 }
        ensures behind { IfOk result (λ n. n ≡ next + (spec.elaboration_of self.now.text.now tree.now).binders) }
        ensures statements { OnOk result (into.new ≡ into.old ++ (spec.elaboration_of self.now.text.now tree.now).stmts lead (spec.naming_of self.now.tensors.now self.now.bound.now) next) }
    {
        match tree {
            Tree::Leaf(_) => Ok(next),
            Tree::Group(parts) => self.statements_in(alloc, parts.as_slice(), next, into),
            Tree::Node(form, parts) => {
                self.form_statements(alloc, *form, parts.as_slice(), lead, next, into)
            }
        }
    }

    #[cycle(statements)]
    fn form_statements(
        &self,
        alloc: Global,
        form: Form,
        parts: &[Tree],
        lead: Option<Token>,
        next: u32,
        into: &mut Items<Stmt>,
    ) -> Result<u32, AllocError>
        requires few { length self.now.tensors.now ≤ 64 }
        requires room { next + spec.binders_at self.now.text.now form (map (spec.elaboration_of self.now.text.now) parts.now) ≤ 4294967295 }
        ensures behind { IfOk result (λ n. n ≡ next + spec.binders_at self.now.text.now form (map (spec.elaboration_of self.now.text.now) parts.now)) }
        ensures statements { OnOk result (into.new ≡ into.old ++ spec.stmts_at self.now.text.now form (map (spec.elaboration_of self.now.text.now) parts.now) lead (spec.naming_of self.now.tensors.now self.now.bound.now) next) }
    {
        match form {
            Form::Loop => {
                self.statements_at(alloc, parts, 1, self.first_at(parts, 0), next, into)
            }
            Form::Turns => self.looped(alloc, parts, lead, next, into),
            Form::If => self.conditional(alloc, parts, next, into),
            Form::Let => self.bound_to(alloc, parts, next, into),
            Form::Block => self.block(alloc, parts, next, into),
            Form::Turn => self.turned(parts, next, into),
            Form::Named => {
                self.statements_at(alloc, parts, 1, self.first_at(parts, 0), next, into)
            }
            Form::Declaration => self.declared(parts, lead, next, into),
            Form::Update => self.updated(alloc, parts, lead, next, into),
            Form::Body => self.statements_at(alloc, parts, 1, None, next, into),
            Form::Stmts => self.statements_at(alloc, parts, 0, None, next, into),
            _ => Ok(next),
        }
    }

    #[cycle(statements)]
    fn looped(
        &self,
        alloc: Global,
        parts: &[Tree],
        lead: Option<Token>,
        next: u32,
        into: &mut Items<Stmt>,
    ) -> Result<u32, AllocError>
        requires few { length self.now.tensors.now ≤ 64 }
        requires room { next + spec.binders_at self.now.text.now Form.Turns (map (spec.elaboration_of self.now.text.now) parts.now) ≤ 4294967295 }
        ensures behind { IfOk result (λ n. n ≡ next + spec.binders_at self.now.text.now Form.Turns (map (spec.elaboration_of self.now.text.now) parts.now)) }
        ensures statements { OnOk result (into.new ≡ into.old ++ spec.stmts_at self.now.text.now Form.Turns (map (spec.elaboration_of self.now.text.now) parts.now) lead (spec.naming_of self.now.tensors.now self.now.bound.now) next) }
    {
        let bound = self.with_variable(alloc, self.first_at(parts, 0), next)?;
        let inner = Naming {
            text: self.text,
            tensors: self.tensors,
            bound: bound.as_slice(),
        };
        let mut body = Items::new(alloc);
        let behind = inner.statements_at(alloc, parts, 2, None, next + 1, &mut body)?;
        into.push(Stmt::Loop {
            var: next,
            range: self.range_at(parts, 1),
            par: is_par(lead),
            body,
            line: line_of(lead),
            last: line_of(self.closing_at(parts, 2)),
        })?;
        Ok(behind)
    }

    #[cycle(statements)]
    fn conditional(
        &self,
        alloc: Global,
        parts: &[Tree],
        next: u32,
        into: &mut Items<Stmt>,
    ) -> Result<u32, AllocError>
        requires few { length self.now.tensors.now ≤ 64 }
        requires room { next + spec.binders_at self.now.text.now Form.If (map (spec.elaboration_of self.now.text.now) parts.now) ≤ 4294967295 }
        ensures behind { IfOk result (λ n. n ≡ next + spec.binders_at self.now.text.now Form.If (map (spec.elaboration_of self.now.text.now) parts.now)) }
        ensures statements { OnOk result (into.new ≡ into.old ++ spec.stmts_at self.now.text.now Form.If (map (spec.elaboration_of self.now.text.now) parts.now) None (spec.naming_of self.now.tensors.now self.now.bound.now) next) }
    {
        let test = self.value_at(alloc, parts, 1)?;
        let mut body = Items::new(alloc);
        let behind = self.statements_at(alloc, parts, 2, None, next, &mut body)?;
        into.push(Stmt::Cond {
            test,
            body,
            line: line_of(self.first_at(parts, 0)),
            last: line_of(self.closing_at(parts, 2)),
        })?;
        Ok(behind)
    }

    #[cycle(statements)]
    fn bound_to(
        &self,
        alloc: Global,
        parts: &[Tree],
        next: u32,
        into: &mut Items<Stmt>,
    ) -> Result<u32, AllocError>
        requires few { length self.now.tensors.now ≤ 64 }
        requires room { next + spec.binders_at self.now.text.now Form.Let (map (spec.elaboration_of self.now.text.now) parts.now) ≤ 4294967295 }
        ensures behind { IfOk result (λ n. n ≡ next + spec.binders_at self.now.text.now Form.Let (map (spec.elaboration_of self.now.text.now) parts.now)) }
        ensures statements { OnOk result (into.new ≡ into.old ++ spec.stmts_at self.now.text.now Form.Let (map (spec.elaboration_of self.now.text.now) parts.now) None (spec.naming_of self.now.tensors.now self.now.bound.now) next) }
    {
        let value = self.value_at(alloc, parts, 3)?;
        let bound = self.with_variable(alloc, self.first_at(parts, 1), next)?;
        let inner = Naming {
            text: self.text,
            tensors: self.tensors,
            bound: bound.as_slice(),
        };
        let mut body = Items::new(alloc);
        let behind = inner.statements_at(alloc, parts, 4, None, next + 1, &mut body)?;
        into.push(Stmt::Bind {
            var: next,
            value,
            body,
            line: line_of(self.first_at(parts, 0)),
            last: line_of(self.closing_at(parts, 4)),
        })?;
        Ok(behind)
    }

    #[cycle(statements)]
    fn block(
        &self,
        alloc: Global,
        parts: &[Tree],
        next: u32,
        into: &mut Items<Stmt>,
    ) -> Result<u32, AllocError>
        requires few { length self.now.tensors.now ≤ 64 }
        requires room { next + spec.binders_at self.now.text.now Form.Block (map (spec.elaboration_of self.now.text.now) parts.now) ≤ 4294967295 }
        ensures behind { IfOk result (λ n. n ≡ next + spec.binders_at self.now.text.now Form.Block (map (spec.elaboration_of self.now.text.now) parts.now)) }
        ensures statements { OnOk result (into.new ≡ into.old ++ spec.stmts_at self.now.text.now Form.Block (map (spec.elaboration_of self.now.text.now) parts.now) None (spec.naming_of self.now.tensors.now self.now.bound.now) next) }
    {
        let mut body = Items::new(alloc);
        let behind = self.statements_at(alloc, parts, 0, None, next, &mut body)?;
        into.push(Stmt::Block {
            body,
            line: line_of(self.first_at(parts, 0)),
            last: line_of(self.closing_at(parts, 0)),
        })?;
        Ok(behind)
    }

    fn turned(&self, parts: &[Tree], next: u32, into: &mut Items<Stmt>) -> Result<u32, AllocError>
        requires few { length self.now.tensors.now ≤ 64 }
        requires room { next + spec.binders_at self.now.text.now Form.Turn (map (spec.elaboration_of self.now.text.now) parts.now) ≤ 4294967295 }
        ensures behind { IfOk result (λ n. n ≡ next + spec.binders_at self.now.text.now Form.Turn (map (spec.elaboration_of self.now.text.now) parts.now)) }
        ensures statements { OnOk result (into.new ≡ into.old ++ spec.stmts_at self.now.text.now Form.Turn (map (spec.elaboration_of self.now.text.now) parts.now) None (spec.naming_of self.now.tensors.now self.now.bound.now) next) }
    {
        let lead = self.first_at(parts, 0);
        let Some(tensor) = self.tensor(self.first_at(parts, 1)) else {
            return Ok(next);
        };
        let line = line_of(lead);
        if is_freeze(lead) {
            into.push(Stmt::Freeze { tensor, line })?;
        } else {
            into.push(Stmt::Thaw { tensor, line })?;
        }
        Ok(next)
    }

    fn declared(
        &self,
        parts: &[Tree],
        lead: Option<Token>,
        next: u32,
        into: &mut Items<Stmt>,
    ) -> Result<u32, AllocError>
        requires few { length self.now.tensors.now ≤ 64 }
        requires room { next + spec.binders_at self.now.text.now Form.Declaration (map (spec.elaboration_of self.now.text.now) parts.now) ≤ 4294967295 }
        ensures behind { IfOk result (λ n. n ≡ next + spec.binders_at self.now.text.now Form.Declaration (map (spec.elaboration_of self.now.text.now) parts.now)) }
        ensures statements { OnOk result (into.new ≡ into.old ++ spec.stmts_at self.now.text.now Form.Declaration (map (spec.elaboration_of self.now.text.now) parts.now) lead (spec.naming_of self.now.tensors.now self.now.bound.now) next) }
    {
        let Some(tensor) = self.tensor(lead) else {
            return Ok(next);
        };
        into.push(Stmt::Declare {
            tensor,
            value: self.number_at(parts, 1),
            line: line_of(lead),
        })?;
        Ok(next)
    }

    fn updated(
        &self,
        alloc: Global,
        parts: &[Tree],
        lead: Option<Token>,
        next: u32,
        into: &mut Items<Stmt>,
    ) -> Result<u32, AllocError>
        requires few { length self.now.tensors.now ≤ 64 }
        requires room { next + spec.binders_at self.now.text.now Form.Update (map (spec.elaboration_of self.now.text.now) parts.now) ≤ 4294967295 }
        ensures behind { IfOk result (λ n. n ≡ next + spec.binders_at self.now.text.now Form.Update (map (spec.elaboration_of self.now.text.now) parts.now)) }
        ensures statements { OnOk result (into.new ≡ into.old ++ spec.stmts_at self.now.text.now Form.Update (map (spec.elaboration_of self.now.text.now) parts.now) lead (spec.naming_of self.now.tensors.now self.now.bound.now) next) }
    {
        let Some(tensor) = self.tensor(lead) else {
            return Ok(next);
        };
        let mut at = Seq::new(alloc);
        self.indices_at(parts, 1, &mut at)?;
        let value = self.value_at(alloc, parts, 4)?;
        into.push(Stmt::Update {
            tensor,
            at,
            by: reduce_of(self.first_at(parts, 3)),
            value,
            line: line_of(lead),
        })?;
        Ok(next)
    }
}
