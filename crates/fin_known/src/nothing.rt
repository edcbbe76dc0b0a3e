//! Whether nothing is left of a loop's body along a nest.
ghost use Rattle.std.specs.Prelude.{◌≡◌, IfOk};
ghost use Rattle.fin_simp.specs.Numbered.{here_at};
ghost use Rattle.fin_simp.specs.Remaining.{are_nothing};
ghost use Rattle.fin_known.specs.Telling.{marks_told};

use crate::telling::{with_gaps, with_tests};
use fin_ast::Stmt;
use fin_simp::{Facts, are_nothing};
use fin_style_point::Nest;
use std::alloc::{AllocError, Global};

/// The body of a loop, with the numbers of its first read and test.
#[derive(Clone, Copy)]
pub struct Body<'a> {
    pub stmts: &'a [Stmt],
    pub read: u32,
    pub test: u32,
}

/// Whether by what is known around, and what the looplets of a nest of the loop tell by their heads, nothing is left of
/// the body. `drives` says which of the nest's reads the loop drives.
pub fn is_nothing_along(
    alloc: Global,
    nest: &Nest,
    body: &Body<'_>,
    drives: &[bool],
    around: &Facts<'_>,
) -> Result<bool, AllocError>
    ensures { IfOk result (λ yes. yes ≡ are_nothing body.now.stmts.now (here_at body.now.read body.now.test)
        (marks_told around.now drives.now nest.now)) }
{
    let gaps = with_gaps(alloc, around.gaps, drives, nest.reads.as_slice())?;
    let known = with_tests(alloc, around.known, nest.masks.as_slice())?;
    let told = Facts {
        gaps: gaps.as_slice(),
        known: known.as_slice(),
        bound: around.bound,
    };
    let seen = are_nothing(alloc, body.stmts, &told, body.read, body.test)?;
    Ok(seen.nothing)
}
