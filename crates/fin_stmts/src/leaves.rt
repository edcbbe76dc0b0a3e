//! The codes of leaves that need no codes of statements, and of nests from those of their leaves.
ghost use Rattle.std.specs.Prelude.{◌≡◌, ◌≤◌, IfOk};
ghost use Rattle.fin_nest.specs.Frames.{fill};
ghost use Rattle.fin_descend.specs.Flat.{with_codes};
ghost use Rattle.fin_loops.specs.Fixed.{fixed_code};
ghost use Rattle.fin_loops.specs.Points.{point_code};
ghost use Rattle.fin_descend.specs.declared.flattening.Leaf.TheVariants.{Fixed};
ghost use Rattle.fin_stmts.specs.Leaves.{LeafLowers};
ghost use Rattle.fin_stmts.specs.Sites.{Comes, IsFixed, IsSite, loop_of};
ghost use Rattle.fin_stmts.specs.Updates.{IsToldAt};

use crate::at_once::once_leaf;
use crate::nests::{NestAsks, heads_tell};
use crate::only::update_at_once;
use crate::place::{Codes, heads_of};
use fin_base::Op;
use fin_descend::{Flat, Lowered, greater};
use fin_ir::{Code, IExpr};
use fin_nest::{copy_ends, fill, two, when};
use fin_perform::{Site as Once, push_once};
use fin_read::push;
use fin_simp::Facts;
use fin_style_point::Nest;
use sqlite_items::{Boxed, Items};
use std::alloc::{AllocError, Global};

/// The codes of some leaves, one for each, and how many locals they need.
#[derive(Debug, Drop)]
pub struct LeafCodes {
    pub codes: Items<Code>,
    pub room: u32,
}

/// A charge of 1, the coordinate in the loop's variable, and the codes of the body there.
pub(crate) fn at_point(alloc: Global, nest: &Nest, body: Codes) -> Result<Lowered, AllocError>
    ensures code { IfOk result (λ m. m.code ≡ point_code nest.now body.codes) }
    ensures next { IfOk result (λ m. nest.now.next ≤ m.room) }
    ensures room { IfOk result (λ m. body.room ≤ m.room) }
{
    let mut codes = Items::new(alloc);
    codes.push(Code::Charge(IExpr::Num(1)))?;
    let coordinate = nest.lo.copy(alloc)?;
    push(&mut codes, nest.var, coordinate)?;
    codes.append(body.codes)?;
    Ok(Lowered {
        code: Code::Seq(codes),
        room: greater(nest.next, body.room),
    })
}

/// The one update that is left along a nest: at once where it names nothing of the loop, and else at each coordinate.
pub(crate) fn fixed_leaf(
    alloc: Global,
    asks: &NestAsks<'_>,
    nest: &Nest,
) -> Result<Lowered, AllocError>
    requires site { IsSite asks.now.site }
    requires comes { Comes asks.now.site asks.now.drives.now nest.now }
    requires fixed { IsFixed asks.now.site nest.now }
    ensures { IfOk result (LeafLowers (loop_of asks.now.site) (Fixed nest.now)) }
{
    let told = heads_tell(alloc, asks, nest)?;
    let site = Once {
        facts: Facts {
            gaps: told.gaps.as_slice(),
            known: told.known.as_slice(),
            bound: asks.site.around.bound,
        },
        read: asks.site.place.read,
        test: asks.site.place.test,
        next: nest.next,
    };
    let one = &asks.site.one;
    match update_at_once(alloc, one.var, one.body, &site)? {
        Some(update) => once_leaf(alloc, asks, nest, &update),
        None => loop_leaf(alloc, asks, nest, &site),
    }
}

// At each coordinate, behind a charge of 2 where there is one.
fn loop_leaf(
    alloc: Global,
    asks: &NestAsks<'_>,
    nest: &Nest,
    at: &Once<'_>,
) -> Result<Lowered, AllocError>
    requires site { IsSite asks.now.site }
    requires comes { Comes asks.now.site asks.now.drives.now nest.now }
    requires fixed { IsFixed asks.now.site nest.now }
    requires told { IsToldAt asks.now nest.now at.now }
    ensures { IfOk result (LeafLowers (loop_of asks.now.site) (Fixed nest.now)) }
{
    let heads = heads_of(asks.site.checked);
    let mut turn = Items::new(alloc);
    let room = push_once(alloc, &mut turn, &heads, asks.site.one.body, at)?;
    let code = paid_loop(alloc, nest, turn)?;
    Ok(Lowered { code, room })
}

// The loop over a nest's coordinates, behind the work of a turn and of an update where there is one.
fn paid_loop(alloc: Global, nest: &Nest, turn: Items<Code>) -> Result<Code, AllocError>
    ensures { IfOk result (λ c. c ≡ fixed_code nest.now turn) }
{
    let (lo, hi) = copy_ends(alloc, &nest.lo, &nest.hi)?;
    let some = two(alloc, Op::Lt, lo, hi)?;
    let mut codes = Items::new(alloc);
    codes.push(when(alloc, some, Code::Charge(IExpr::Num(2)))?)?;
    let (lo, hi) = copy_ends(alloc, &nest.lo, &nest.hi)?;
    codes.push(Code::ForLoop {
        var: nest.var,
        lo,
        hi,
        body: Boxed::new(alloc, Code::Seq(turn))?,
    })?;
    Ok(Code::Seq(codes))
}

/// A frame filled with the codes of its leaves.
pub(crate) fn filled_flat(
    alloc: Global,
    flat: &Flat,
    leaves: LeafCodes,
) -> Result<Lowered, AllocError>
    ensures code { IfOk result (λ m. m.code ≡ fill flat.now.frame leaves.codes) }
    ensures frame { IfOk result (λ m. flat.now.room ≤ m.room) }
    ensures room { IfOk result (λ m. leaves.room ≤ m.room) }
{
    let code = fill(alloc, &flat.frame, leaves.codes)?;
    Ok(Lowered {
        code,
        room: greater(flat.room, leaves.room),
    })
}
