//! What a statement does with each tensor.
ghost use Rattle.std.specs.Prelude.{◌≡◌, OnOk, List};
ghost use Rattle.fin_ast.specs.declared.header.Header.{Header};
ghost use Rattle.fin_ast.specs.Spine.{expr_of};
ghost use Rattle.fin_life.specs.Completing.{noted_in, completing_of, completings_of};
ghost use Rattle.fin_life.specs.Mentions.{mention_in, note_of_expr, noted, only_reads_of, only_updates_of};
ghost use Rattle.fin_life.specs.Mentions as mentions;

use fin_ast::{Expr, Head, Stmt};
use std::alloc::{AllocError, Global};

/// What is done with a tensor.
#[derive(Clone, Copy, Debug)]
pub enum Mention {
    Nothing,
    /// Reads alone.
    Reads,
    /// Updates alone.
    Updates,
    /// Reads and updates, or a declaration, freeze or thaw.
    Other,
}

/// What is done with each tensor.
#[derive(Clone, Copy, Debug)]
pub struct Mentions {
    of: [Mention; 256],
}

impl Mentions {
    /// Nothing is done with any tensor.
    pub fn nothing() -> Mentions
        ensures { mention_in result ≡ (λ t. Mention.Nothing) }
    {
        Mentions {
            of: [Mention::Nothing; 256],
        }
    }

    /// What is done with a tensor.
    pub fn at(&self, tensor: u8) -> Mention
        ensures { result ≡ mention_in self.now tensor }
    {
        self.of[usize::from(tensor)]
    }

    fn note(&mut self, tensor: u8, mention: Mention)
        ensures { mention_in self.new ≡ noted (mention_in self.old) tensor mention }
    {
        self.of[usize::from(tensor)] = joined(mention, self.of[usize::from(tensor)]);
    }

    /// What a statement does, too.
    #[cycle(noted)]
    pub fn note_statement(&mut self, alloc: Global, statement: &Stmt) -> Result<(), AllocError>
        ensures { OnOk result ((headers : List Header)
            → mention_in self.new ≡ (completing_of headers statement.now).note (mention_in self.old)) }
    {
        match statement {
            Stmt::Block {
                body,
                line: _,
                last: _,
            } => self.note_all(alloc, body.as_slice()),
            Stmt::Loop {
                var: _,
                range: _,
                par: _,
                body,
                line: _,
                last: _,
            } => self.note_all(alloc, body.as_slice()),
            Stmt::Cond {
                test,
                body,
                line: _,
                last: _,
            } => {
                self.note_expr(alloc, test)?;
                self.note_all(alloc, body.as_slice())
            }
            Stmt::Bind {
                var: _,
                value,
                body,
                line: _,
                last: _,
            } => {
                self.note_expr(alloc, value)?;
                self.note_all(alloc, body.as_slice())
            }
            Stmt::Declare {
                tensor,
                value: _,
                line: _,
            } => self.note_change(*tensor),
            Stmt::Freeze { tensor, line: _ } => self.note_change(*tensor),
            Stmt::Thaw { tensor, line: _ } => self.note_change(*tensor),
            Stmt::Update {
                tensor,
                at: _,
                by: _,
                value,
                line: _,
            } => {
                self.note(*tensor, Mention::Updates);
                self.note_expr(alloc, value)
            }
        }
    }

    // A declaration, freeze or thaw.
    fn note_change(&mut self, tensor: u8) -> Result<(), AllocError>
        ensures { OnOk result (mention_in self.new ≡ noted (mention_in self.old) tensor Mention.Other) }
    {
        self.note(tensor, Mention::Other);
        Ok(())
    }

    #[cycle(noted)]
    fn note_all(&mut self, alloc: Global, body: &[Stmt]) -> Result<(), AllocError>
        ensures { OnOk result ((headers : List Header)
            → mention_in self.new ≡ noted_in (completings_of headers body.now) (mention_in self.old)) }
    {
        for statement in body {
            self.note_statement(alloc, statement)?;
        }
        Ok(())
    }

    // A sum may have millions of terms, and groups to the left: a loop and no recursion there.
    #[cycle(along)]
    fn note_expr(&mut self, alloc: Global, expr: &Expr) -> Result<(), AllocError>
        ensures { OnOk result (mention_in self.new ≡ note_of_expr expr.now (mention_in self.old)) }
    {
        let spine = expr.spine(alloc)?;
        self.note_head(alloc, spine.head)?;
        let mut sides = spine.sides;
        while let Some((_op, right)) = sides.pop() {
            self.note_expr(alloc, right)?;
        }
        Ok(())
    }

    #[cycle(along)]
    fn note_head(&mut self, alloc: Global, head: Head<'_>) -> Result<(), AllocError>
        ensures { OnOk result (mention_in self.new ≡ note_of_expr (expr_of head.entry) (mention_in self.old)) }
    {
        match head {
            Head::Num(_) | Head::Var { var: _, line: _ } => Ok(()),
            Head::Read {
                tensor,
                at: _,
                line: _,
            } => {
                self.note(tensor, Mention::Reads);
                Ok(())
            }
            Head::Neg(inner) => self.note_expr(alloc, inner),
        }
    }
}

fn joined(mention: Mention, before: Mention) -> Mention
    ensures { result ≡ mentions.joined mention before }
{
    match (mention, before) {
        (mention, Mention::Nothing) => mention,
        (Mention::Reads, Mention::Reads) => Mention::Reads,
        (Mention::Updates, Mention::Updates) => Mention::Updates,
        (Mention::Nothing, before) => before,
        _ => Mention::Other,
    }
}

pub fn only_reads(mention: Mention) -> bool
    ensures { result ≡ only_reads_of mention }
{
    match mention {
        Mention::Reads => true,
        Mention::Nothing | Mention::Updates | Mention::Other => false,
    }
}

pub fn only_updates(mention: Mention) -> bool
    ensures { result ≡ only_updates_of mention }
{
    match mention {
        Mention::Updates => true,
        Mention::Nothing | Mention::Reads | Mention::Other => false,
    }
}
