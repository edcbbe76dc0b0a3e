//! The parallel loops of a program.
ghost use Rattle.std.specs.Prelude.{◌≡◌, OnOk, IfOk};
ghost use Rattle.fin_parcheck.specs.Loops as text;
ghost use Rattle.fin_parcheck.specs.Walk.{declared_in, loops_along, walk_of, walks_of};

use crate::declared::Declared;
use crate::deeds::{ParallelLoop, gather_all};
use fin_ast::{Program, Stmt};
use fin_tensor::Seq;
use std::alloc::{AllocError, Global};

/// The parallel loops of a program that stand in no other one, in the order of its text.
#[tactic(auto, using(crate::proofs::Agreement::found_is))]
pub fn parallel_loops(alloc: Global, program: &Program) -> Result<Vec<ParallelLoop>, AllocError>
    ensures { IfOk result (λ loops. loops.items ≡ text.parallel_loops program.now) }
{
    let mut loops = Vec::new(alloc);
    let declared = Declared::nothing();
    find_all(alloc, program.body.as_slice(), &declared, &mut loops)?;
    Ok(loops)
}

/// Finds the parallel loops of a body, at whose beginning these tensors are declared.
#[cycle(found)]
fn find_all(
    alloc: Global,
    body: &[Stmt],
    declared: &Declared,
    into: &mut Vec<ParallelLoop>,
) -> Result<(), AllocError>
    ensures { let before = declared_in declared.now in
        OnOk result (into.new.items ≡ loops_along (walks_of body.now) before into.old.items) }
{
    let mut now = *declared;
    for statement in body {
        find(alloc, statement, &now, into)?;
        pass(statement, &mut now);
    }
    Ok(())
}

#[cycle(found)]
fn find(
    alloc: Global,
    statement: &Stmt,
    declared: &Declared,
    into: &mut Vec<ParallelLoop>,
) -> Result<(), AllocError>
    ensures { let before = declared_in declared.now in
        OnOk result (into.new.items ≡ (walk_of statement.now).loops before into.old.items) }
{
    match statement {
        Stmt::Block {
            body,
            line: _,
            last: _,
        } => find_all(alloc, body.as_slice(), declared, into),
        Stmt::Loop {
            var,
            range: _,
            par,
            body,
            line: _,
            last: _,
        } => {
            if *par {
                let mut deeds = Seq::new(alloc);
                gather_all(body.as_slice(), declared, &mut deeds)?;
                into.push(ParallelLoop { var: *var, deeds })?;
                Ok(())
            } else {
                find_all(alloc, body.as_slice(), declared, into)
            }
        }
        Stmt::Cond {
            test: _,
            body,
            line: _,
            last: _,
        } => find_all(alloc, body.as_slice(), declared, into),
        Stmt::Bind {
            var: _,
            value: _,
            body,
            line: _,
            last: _,
        } => find_all(alloc, body.as_slice(), declared, into),
        _ => Ok(()),
    }
}

/// What is declared behind a statement: what its own body declares isn't.
fn pass(statement: &Stmt, now: &mut Declared)
    ensures { declared_in now.new ≡ (walk_of statement.now).after (declared_in now.old) }
{
    match statement {
        Stmt::Declare {
            tensor,
            value: _,
            line: _,
        } => now.declare(*tensor),
        _ => (),
    }
}
