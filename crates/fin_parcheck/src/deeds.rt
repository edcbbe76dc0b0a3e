//! What a parallel loop does that the rules look at.
ghost use Rattle.std.specs.Prelude.{◌≡◌, OnOk, slice_get};
ghost use Rattle.fin_parcheck.specs.Deeds.{done_to};
ghost use Rattle.fin_parcheck.specs.Walk.{declared_in, deeds_along, walk_of, walks_of};

use crate::declared::Declared;
use fin_ast::{Index, Stmt};
use fin_base::Reduce;
use fin_tensor::Seq;
use std::alloc::AllocError;

/// What a parallel loop does to a tensor that is declared at its beginning, or a parallel loop in it.
#[derive(Clone, Copy, Debug)]
pub enum Deed {
    /// An update, with its first index.
    Update {
        tensor: u8,
        first: Option<Index>,
        by: Reduce,
        line: u32,
    },
    /// A freeze or a thaw.
    Turn {
        line: u32,
    },
    /// A parallel loop.
    Nested {
        line: u32,
    },
}

/// A parallel loop that stands in no other one: its variable, and what it does in the order of its text.
#[derive(Debug, Drop)]
pub struct ParallelLoop {
    pub var: u32,
    pub deeds: Seq<Deed>,
}

/// Gathers what statements do.
#[cycle(done)]
pub fn gather_all(body: &[Stmt], outer: &Declared, into: &mut Seq<Deed>) -> Result<(), AllocError>
    ensures { OnOk result (into.new ≡ deeds_along (walks_of body.now) (declared_in outer.now) into.old) }
{
    for statement in body {
        gather(statement, outer, into)?;
    }
    Ok(())
}

#[cycle(done)]
fn gather(statement: &Stmt, outer: &Declared, into: &mut Seq<Deed>) -> Result<(), AllocError>
    ensures { OnOk result (into.new ≡ (walk_of statement.now).deeds (declared_in outer.now) into.old) }
{
    match statement {
        Stmt::Block {
            body,
            line: _,
            last: _,
        } => gather_all(body.as_slice(), outer, into),
        Stmt::Loop {
            var: _,
            range: _,
            par,
            body,
            line,
            last: _,
        } => {
            note(*par, Deed::Nested { line: *line }, into)?;
            gather_all(body.as_slice(), outer, into)
        }
        Stmt::Cond {
            test: _,
            body,
            line: _,
            last: _,
        } => gather_all(body.as_slice(), outer, into),
        Stmt::Bind {
            var: _,
            value: _,
            body,
            line: _,
            last: _,
        } => gather_all(body.as_slice(), outer, into),
        Stmt::Declare {
            tensor: _,
            value: _,
            line: _,
        } => Ok(()),
        Stmt::Freeze { tensor, line } => note(outer.has(*tensor), Deed::Turn { line: *line }, into),
        Stmt::Thaw { tensor, line } => note(outer.has(*tensor), Deed::Turn { line: *line }, into),
        Stmt::Update {
            tensor,
            at,
            by,
            value: _,
            line,
        } => {
            let deed = Deed::Update {
                tensor: *tensor,
                first: first_of(at.as_slice()),
                by: *by,
                line: *line,
            };
            note(outer.has(*tensor), deed, into)
        }
    }
}

/// Takes a deed up, where it is done.
fn note(is_done: bool, deed: Deed, into: &mut Seq<Deed>) -> Result<(), AllocError>
    ensures { OnOk result (into.new ≡ done_to is_done deed into.old) }
{
    if is_done {
        into.push(deed)?;
    }
    Ok(())
}

fn first_of(at: &[Index]) -> Option<Index>
    ensures { result ≡ slice_get at.now 0 }
{
    match at.get(0) {
        Some(index) => Some(*index),
        None => None,
    }
}
