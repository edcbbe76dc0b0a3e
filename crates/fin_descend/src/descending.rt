//! The recursion from nests to code, by weight, for bodies that call back into no descent.
ghost use Rattle.std.specs.Prelude.{◌≤◌, IfOk};
ghost use Rattle.std.specs.List.{All};
ghost use Rattle.fin_descend.specs.declared.lowered.Known.TheVariants.{Open};
ghost use Rattle.fin_descend.specs.Promises.{MeansIn, Tells, MeanEach, Joins};

use crate::bodies::Bodies;
use crate::lowered::{Known, Lowered, filled, greater, nothing};
use crate::stepping::{Split, step};
use crate::weights::weighs_nothing;
use fin_ir::Code;
use fin_style_point::Nest;
use sqlite_items::Items;
use std::alloc::{AllocError, Global};

/// Codes of some nests, and how many locals they need.
#[derive(Debug, Drop)]
struct Each {
    codes: Items<Code>,
    room: u32,
}

/// The code of a nest means it, whatever of the caller's family stands behind it.
#[cycle(descend)]
pub fn descend<B: Bodies>(alloc: Global, nest: &Nest, bodies: &B) -> Result<Lowered, AllocError>
    requires { B.comes bodies.now nest.now }
    ensures { IfOk result (λ lowered. MeansIn (B.stands bodies.now) lowered nest.now) }
{
    match bodies.ask(alloc, nest)? {
        Known::Nothing => Ok(nothing()),
        Known::AtOnce(lowered) => Ok(lowered),
        Known::Open => descend_open(alloc, nest, bodies),
    }
}

// A nest that may be stepped.
#[cycle(descend)]
fn descend_open<B: Bodies>(alloc: Global, nest: &Nest, bodies: &B) -> Result<Lowered, AllocError>
    requires comes { B.comes bodies.now nest.now }
    requires may_step { Tells (B.stands bodies.now) nest.now Open }
    ensures { IfOk result (λ lowered. MeansIn (B.stands bodies.now) lowered nest.now) }
{
    if weighs_nothing(nest) {
        return bodies.at_point(alloc, nest);
    }
    let split = step(alloc, nest)?;
    descend_split(alloc, split, bodies)
}

#[cycle(descend)]
fn descend_split<B: Bodies>(alloc: Global, split: Split, bodies: &B) -> Result<Lowered, AllocError>
    requires { All (B.comes bodies.now) split.nests }
    ensures joins { IfOk result (λ lowered. Joins (B.stands bodies.now) split lowered) }
    ensures room { IfOk result (λ lowered. split.room ≤ lowered.room) }
{
    descend_parts(alloc, &split, bodies)
}

// The code of a nest that is divided so.
#[cycle(descend)]
fn descend_parts<B: Bodies>(alloc: Global, split: &Split, bodies: &B) -> Result<Lowered, AllocError>
    requires { All (B.comes bodies.now) split.now.nests }
    ensures joins { IfOk result (λ lowered. Joins (B.stands bodies.now) split.now lowered) }
    ensures room { IfOk result (λ lowered. split.now.room ≤ lowered.room) }
{
    let each = descend_each(alloc, split.nests.as_slice(), bodies)?;
    let room = greater(split.room, each.room);
    filled(alloc, &split.frame, each.codes, room)
}

#[cycle(descend)]
fn descend_each<B: Bodies>(alloc: Global, nests: &[Nest], bodies: &B) -> Result<Each, AllocError>
    requires { All (B.comes bodies.now) nests.now }
    ensures { IfOk result (λ each. MeanEach (B.stands bodies.now) nests.now each.codes each.room) }
{
    let mut codes = Items::new(alloc);
    let mut room = 0;
    for nest in nests {
        let lowered = descend(alloc, nest, bodies)?;
        room = greater(room, lowered.room);
        codes.push(lowered.code)?;
    }
    Ok(Each { codes, room })
}
