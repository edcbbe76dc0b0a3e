//! The verdict on a job.
ghost use Rattle.std.specs.Prelude.{◌≡◌, ◌≤◌, length, IfOk, IsTrue};
ghost use Rattle.fin_ast.specs.Accepted.{FitProgram, IsAccepted};
ghost use Rattle.fin_parcheck.specs.Safety.{IsSafe};
ghost use Rattle.fin_engine.specs.Verdict.{Checks, ChecksProgram, ChecksWhole};
ghost use Rattle.fin_engine.specs.Worded.{are_told_in_words};

use crate::cut::cut;
use crate::inputs::{inputs_of, shapes_of, unmatched};
use crate::job::Job;
use crate::numbers::told;
use fin_ast::{Checked, Dims, Program, Ways};
use fin_base::{Fail, Refusal, Rule};
use fin_dims::infer;
use fin_lex::lex;
use fin_life::{check_life, check_order, complete};
use fin_parcheck::ways;
use fin_parse::parse;
use fin_tensor::{Name, Nums};
use fin_text::{Given, read_tensors};
use indexmap::IndexMap;
use std::alloc::Global;

/// The job of a text that breaks no rule.
///
/// # Errors
/// The first rule that the text breaks, with its line, in the order of the rules (`docs/LANGUAGE.md`); and want of
/// memory.
///
/// The program of a job is an accepted one, its parallel loops are safe in their ways, and its inputs fit that.
pub fn check(alloc: Global, text: &[u8]) -> Result<Job, Fail>
    requires short { length text.now ≤ 16777216 }
    ensures verdict { Checks text.now result }
    ensures accepted { IfOk result (λ job. IsAccepted job.checked) }
    ensures safe { IfOk result (λ job. IsSafe job.checked) }
    ensures inputs { IfOk result (λ job. FitProgram job.checked job.inputs) }
{
    check_text(alloc, text)
}

fn check_text(alloc: Global, text: &[u8]) -> Result<Job, Fail>
    requires short { length text.now ≤ 16777216 }
    ensures verdict { Checks text.now result }
{
    let Some(parts) = cut(text) else {
        return Err(Fail::Refused(Refusal {
            rule: Rule::J2,
            line: 0,
        }));
    };
    let tokens = lex(alloc, parts.program, 1)?;
    let program = parse(alloc, parts.program, tokens.as_slice(), parts.last)?;
    let given = read_tensors(alloc, parts.tensors, parts.last + 1)?;
    let verdict = check_program(alloc, program, &given);
    told(tokens.as_slice(), verdict)
}

/// The job of a program with its tensors, which are told in words.
fn check_program(
    alloc: Global,
    program: Program,
    given: &IndexMap<Name, Given>,
) -> Result<Job, Fail>
    requires words { IsTrue (are_told_in_words given.now.entries) }
    ensures verdict { ChecksProgram program given.now.entries result }
{
    if let Some(refusal) = unmatched(program.headers.as_slice(), given) {
        return Err(Fail::Refused(refusal));
    }
    let inputs = inputs_of(alloc, program.headers.as_slice(), given)?;
    let shapes = shapes_of(alloc, program.headers.as_slice(), given)?;
    let whole = complete(alloc, program)?;
    let found = check_whole(alloc, &whole, shapes.as_slice())?;
    Ok(Job {
        checked: Checked {
            program: whole,
            dims: found.0,
            ways: found.1,
        },
        inputs,
    })
}

/// The extents and ways of a program after insertion, which breaks no rule on the life of tensors, on extents, on the
/// order of updates, and on parallel loops.
fn check_whole(
    alloc: Global,
    whole: &Program,
    shapes: &[Option<Nums>],
) -> Result<(Dims, Ways), Fail>
    requires shapes { length shapes.now ≡ length whole.now.headers }
    ensures verdict { ChecksWhole whole.now shapes.now result }
{
    if let Err(refusal) = check_life(whole) {
        return Err(Fail::Refused(refusal));
    }
    let dims = infer(alloc, whole, shapes)?;
    if let Err(refusal) = check_order(whole) {
        return Err(Fail::Refused(refusal));
    }
    match ways(alloc, whole) {
        Ok(ways) => Ok((dims, ways)),
        Err(fail) => Err(fail),
    }
}
