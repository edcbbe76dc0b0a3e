//! The code of an update that is left along a nest and names nothing of its loop: done at once.
ghost use Rattle.std.specs.Prelude.{◌≡◌, IfOk};
ghost use Rattle.fin_descend.specs.declared.flattening.Leaf.TheVariants.{Fixed};
ghost use Rattle.fin_loops.specs.AtOnce.{change_of};
ghost use Rattle.fin_perform.specs.Codes.{end_of};
ghost use Rattle.fin_read.specs.Values.{value_code};
ghost use Rattle.fin_stmts.specs.Leaves.{LeafLowers};
ghost use Rattle.fin_stmts.specs.Sites.{Comes, IsFixed, IsSite, loop_of};
ghost use Rattle.fin_stmts.specs.Updates.{IsAtOnceAlong, written_of};

use crate::nests::NestAsks;
use crate::place::heads_of;
use fin_descend::Lowered;
use fin_perform::{Update, next_local};
use fin_read::{Heads, Value, index_codes, push_value, shape_of};
use fin_style_point::{Change, Nest, at_once};
use sqlite_items::Items;
use std::alloc::{AllocError, Global};

/// Such an update, at once for all coordinates of the nest.
pub(crate) fn once_leaf(
    alloc: Global,
    asks: &NestAsks<'_>,
    nest: &Nest,
    update: &Update<'_>,
) -> Result<Lowered, AllocError>
    requires site { IsSite asks.now.site }
    requires comes { Comes asks.now.site asks.now.drives.now nest.now }
    requires fixed { IsFixed asks.now.site nest.now }
    requires once { IsAtOnceAlong asks.now nest.now update.now }
    ensures { IfOk result (LeafLowers (loop_of asks.now.site) (Fixed nest.now)) }
{
    let heads = heads_of(asks.site.checked);
    let placed = change_of(alloc, &heads, update, nest.next)?;
    let shape = shape_of(&heads, update.tensor);
    let code = at_once(alloc, nest, shape, &placed.change)?;
    Ok(Lowered {
        code,
        room: placed.need,
    })
}

/// An update with the codes before it, and how many locals they need.
#[derive(Debug, Drop)]
pub struct PlacedChange {
    pub change: Change,
    pub need: u32,
}

fn change_of(
    alloc: Global,
    heads: &Heads<'_>,
    update: &Update<'_>,
    next: u32,
) -> Result<PlacedChange, AllocError>
    ensures change { IfOk result (λ p. p.change ≡ change_of heads.now next (written_of update.now)) }
    ensures need { IfOk result (λ p. p.need ≡ end_of (value_code heads.now update.now.value.now next)) }
{
    let mut before = Items::new(alloc);
    let Value {
        expr,
        depth: _,
        next: after,
    } = push_value(alloc, &mut before, heads, update.value, next)?;
    let need = next_local(after)?;
    let at = index_codes(alloc, update.at)?;
    let change = Change {
        before,
        tensor: update.tensor,
        at,
        by: update.by,
        value: expr,
    };
    Ok(PlacedChange { change, need })
}
