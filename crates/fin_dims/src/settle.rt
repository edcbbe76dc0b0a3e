//! Classes along all ties of a program.
ghost use Rattle.std.specs.Prelude.{◌≡◌, ◌<◌, ◌≤◌, ◌*◌, ℕ, All, IfOk, IfErr, length};
ghost use Rattle.fin_base.specs.declared.refusal.Rule.TheVariants.{M1};
ghost use Rattle.fin_ast.specs.Ties.{AreExtents, IsUneven, IsFirstUneven, ties_of};
ghost use Rattle.fin_dims.specs.Classes.{IsReady};
ghost use Rattle.fin_dims.specs.Settled.{Settles, extent_of, IfRefused};

use crate::classes::Classes;
use crate::start::start;
use crate::ties::{open_loops, ties_by_line};
use fin_ast::{Place, Tie};
use fin_base::{Fail, Refusal, Rule};
use fin_tensor::Nums;
use std::alloc::Global;

/// The classes of the dimensions and loops with their numbers. Refused where two unequal known numbers are joined, at
/// the least line up to which the ties join such.
pub fn classes_of(alloc: Global, shapes: &[Option<Nums>], places: &[Place]) -> Result<Classes, Fail>
    ensures even { IfOk result (λ c. ¬ IsUneven shapes.now (ties_of places.now)) }
    ensures extents { IfOk result (λ c. AreExtents shapes.now (ties_of places.now) (extent_of c)) }
    ensures refused { let ties = ties_of places.now in
        IfErr result (λ e. IfRefused e (λ r. (r.rule ≡ M1) × IsFirstUneven shapes.now ties r.line)) }
{
    let flags = open_loops(alloc, places)?;
    let ties = ties_by_line(alloc, places, flags.as_slice())?;
    let most = most_dimension(ties.as_slice(), 8 * shapes.len());
    let mut classes = start(alloc, shapes, most, flags.len())?;
    match settle(&mut classes, ties.as_slice()) {
        None => Ok(classes),
        Some(line) => Err(Fail::Refused(Refusal {
            rule: Rule::M1,
            line,
        })),
    }
}

/// Joins along the ties. The line of the first that joins unequal numbers, where there is one.
fn settle(classes: &mut Classes, ties: &[Tie]) -> Option<u32>
    requires ready { IsReady classes.old }
    requires dimensions { All (λ t. t.dimension < length classes.old.labels.items) ties.now }
    requires variables { All (λ t. t.var < length classes.old.anchors.items) ties.now }
    ensures { Settles ties.now classes.old classes.new result }
{
    for k in 0..ties.len() {
        if !classes.join(&ties[k]) {
            return Some(ties[k].line);
        }
    }
    None
}

fn most_dimension(ties: &[Tie], least: usize) -> usize
    ensures least { least ≤ result }
    ensures all { All (λ t. t.dimension ≤ result) ties.now }
{
    let mut most = least;
    for tie in ties {
        most = most.max(tie.dimension);
    }
    most
}
