//! A descent that leaves the codes of leaves to be made behind it: where bodies hold loops, their codes are made by a
//! recursion of their own, and no measure need be found for both.
ghost use Rattle.std.specs.Prelude.{◌≡◌, ◌<◌, length, IfOk};
ghost use Rattle.std.specs.List.{All};
ghost use Rattle.fin_ir.specs.declared.layout.Layout.{Layout};
ghost use Rattle.fin_stage.specs.Staged.{Run};
ghost use Rattle.fin_nest.specs.Courses.{Behind};
ghost use Rattle.fin_nest.specs.Frames.{fill};
ghost use Rattle.fin_nest.specs.Related.{Start};
ghost use Rattle.fin_style_point.specs.declared.nest.Nest.{Nest};
ghost use Rattle.fin_descend.specs.Parts.{weight_in, parts_of};
ghost use Rattle.fin_descend.specs.declared.flattening.Told.TheVariants as told;
ghost use Rattle.fin_descend.specs.declared.flattening.Leaf.TheVariants as leaf;
ghost use Rattle.fin_descend.specs.Holes.{holes};
ghost use Rattle.fin_descend.specs.Flat.{Tells_of, one_leaf, Flattens, FlattenEach, FlattensSplit};

use crate::lowered::greater;
use crate::stepping::{Split, copy, step};
use crate::weights::weighs_nothing;
use fin_ir::Code;
use fin_nest::fill;
use fin_style_point::Nest;
use fin_style_step::is_void;
use sqlite_items::Items;
use std::alloc::{AllocError, Global};

/// What is told of a nest before it is stepped.
#[derive(Debug, Drop)]
pub enum Told {
    /// The body is nothing at each coordinate.
    Nothing,
    /// The body is a fixed update along the nest, whose code is made as that of one.
    Fixed,
    /// Neither; the nest may be stepped.
    Open,
}

/// What needs no code to be answered of the nests of one loop.
pub trait Asks {
    /// Which nests may come: the loop's own, and the parts of each that may.
    ghost comes: { Self → Nest → Type 0 };

    /// What may stand behind them, by what a run begins with and the layout of the code.
    ghost stands: { Self → Start → Layout → Behind Run → Type 0 };

    /// What is known of a nest along which the body is a fixed update.
    ghost fixed: { Self → Nest → Type 0 };

    /// Whether the body is nothing along the nest, or a fixed update, or neither.
    fn ask(&self, alloc: Global, nest: &Nest) -> Result<Told, AllocError>
        requires { comes self.now nest.now }
        ensures { IfOk result (λ told. Tells_of (stands self.now) (fixed self.now) nest.now told) };

    /// What may come is kept by each step.
    ghost parts_come: { (self : Self) (n : Nest) → 0 < weight_in n → comes self n → All (comes self) (parts_of n) };
}

/// A leaf of a descent.
#[derive(Debug, Drop)]
pub enum Leaf {
    /// A nest that has come to a point.
    Point(Nest),
    /// One along which the body is a fixed update.
    Fixed(Nest),
    /// One whose body is nothing.
    Nothing,
}

/// A frame with a `Skip` for each leaf, the leaves in the order of those, and how many locals the frame takes.
#[derive(Debug, Drop)]
pub struct Flat {
    pub frame: Code,
    pub leaves: Items<Leaf>,
    pub room: u32,
}

/// The frames of some nests, and their leaves one after another.
#[derive(Debug, Drop)]
struct FlatEach {
    frames: Items<Code>,
    leaves: Items<Leaf>,
    room: u32,
}

/// Codes that mean the leaves of a nest, in its frame, mean the nest, whatever of the caller's family stands behind it.
/// Nothing is asked of one whose ends are known to be the wrong way round: it has no code.
#[cycle(flatten)]
pub fn flatten<A: Asks>(alloc: Global, nest: &Nest, asks: &A) -> Result<Flat, AllocError>
    requires { A.comes asks.now nest.now }
    ensures { IfOk result (λ flat. Flattens (A.stands asks.now) (A.comes asks.now) (A.fixed asks.now) flat nest.now) }
{
    if is_void(&nest.lo, &nest.hi) {
        return one_leaf(alloc, Leaf::Nothing);
    }
    match asks.ask(alloc, nest)? {
        Told::Nothing => one_leaf(alloc, Leaf::Nothing),
        Told::Fixed => fixed_leaf(alloc, nest),
        Told::Open => flatten_open(alloc, nest, asks),
    }
}

// A nest that may be stepped.
#[cycle(flatten)]
fn flatten_open<A: Asks>(alloc: Global, nest: &Nest, asks: &A) -> Result<Flat, AllocError>
    requires comes { A.comes asks.now nest.now }
    requires may_step { Tells_of (A.stands asks.now) (A.fixed asks.now) nest.now told.Open }
    ensures { IfOk result (λ flat. Flattens (A.stands asks.now) (A.comes asks.now) (A.fixed asks.now) flat nest.now) }
{
    if weighs_nothing(nest) {
        return point_leaf(alloc, nest);
    }
    let split = step(alloc, nest)?;
    flatten_split(alloc, split, asks)
}

#[cycle(flatten)]
fn flatten_split<A: Asks>(alloc: Global, split: Split, asks: &A) -> Result<Flat, AllocError>
    requires comes { All (A.comes asks.now) split.nests }
    requires fits { holes split.frame ≡ length split.nests }
    ensures { IfOk result (λ flat. FlattensSplit (A.stands asks.now) (A.comes asks.now) (A.fixed asks.now) split flat) }
{
    flatten_parts(alloc, &split, asks)
}

// The frame of a nest that is divided so.
#[cycle(flatten)]
fn flatten_parts<A: Asks>(alloc: Global, split: &Split, asks: &A) -> Result<Flat, AllocError>
    requires comes { All (A.comes asks.now) split.now.nests }
    requires fits { holes split.now.frame ≡ length split.now.nests }
    ensures { IfOk result (λ flat. FlattensSplit (A.stands asks.now) (A.comes asks.now) (A.fixed asks.now)
        split.now flat) }
{
    let each = flatten_each(alloc, split.nests.as_slice(), asks)?;
    let room = greater(split.room, each.room);
    framed(alloc, &split.frame, each, room)
}

#[cycle(flatten)]
fn flatten_each<A: Asks>(alloc: Global, nests: &[Nest], asks: &A) -> Result<FlatEach, AllocError>
    requires { All (A.comes asks.now) nests.now }
    ensures { IfOk result (λ each. FlattenEach (A.stands asks.now) (A.comes asks.now) (A.fixed asks.now)
        nests.now each.frames each.leaves each.room) }
{
    let mut frames = Items::new(alloc);
    let mut leaves = Items::new(alloc);
    let mut room = 0;
    for nest in nests {
        let flat = flatten(alloc, nest, asks)?;
        room = greater(room, flat.room);
        frames.push(flat.frame)?;
        leaves.append(flat.leaves)?;
    }
    Ok(FlatEach {
        frames,
        leaves,
        room,
    })
}

// The frames of the parts in that of the step.
fn framed(alloc: Global, frame: &Code, each: FlatEach, room: u32) -> Result<Flat, AllocError>
    ensures frame { IfOk result (λ flat. flat.frame ≡ fill frame.now each.frames) }
    ensures leaves { IfOk result (λ flat. flat.leaves ≡ each.leaves) }
    ensures room { IfOk result (λ flat. flat.room ≡ room) }
{
    let frame = fill(alloc, frame, each.frames)?;
    Ok(Flat {
        frame,
        leaves: each.leaves,
        room,
    })
}

fn point_leaf(alloc: Global, nest: &Nest) -> Result<Flat, AllocError>
    ensures { IfOk result (λ flat. flat ≡ one_leaf (leaf.Point nest.now)) }
{
    let nest = copy(alloc, nest)?;
    one_leaf(alloc, Leaf::Point(nest))
}

fn fixed_leaf(alloc: Global, nest: &Nest) -> Result<Flat, AllocError>
    ensures { IfOk result (λ flat. flat ≡ one_leaf (leaf.Fixed nest.now)) }
{
    let nest = copy(alloc, nest)?;
    one_leaf(alloc, Leaf::Fixed(nest))
}

fn one_leaf(alloc: Global, leaf: Leaf) -> Result<Flat, AllocError>
    ensures { IfOk result (λ flat. flat ≡ one_leaf leaf) }
{
    let mut leaves = Items::new(alloc);
    leaves.push(leaf)?;
    Ok(Flat {
        frame: Code::Skip,
        leaves,
        room: 0,
    })
}
