//! The codes of statements, one kind after another: one cycle, since a loop's leaves have the codes of its body.
ghost use Rattle.std.specs.Prelude.{◌≡◌, ◌≤◌, ◌&&◌, ◌∷◌, [], ℕ, ℤ, IfOk, true, false, ◌<◌, ◌++◌};
ghost use Rattle.std.specs.List.{All};
ghost use Rattle.fin_ast.specs.declared.tree.Stmt.TheVariants as stmt;
ghost use Rattle.fin_ast.specs.Literals.{are_worded, is_worded, is_worded_stmt};
ghost use Rattle.fin_simp.specs.Gathered.{as_rest};
ghost use Rattle.fin_descend.specs.declared.flattening.Leaf.TheVariants.{Point};
ghost use Rattle.fin_descend.specs.Flat.{Flattens};
ghost use Rattle.fin_loops.specs.Loops.{OfLoop, rest_entered};
ghost use Rattle.fin_loops.specs.Sourced.{entry_code_of};
ghost use Rattle.fin_loops.specs.Parallel.{range_in};
ghost use Rattle.fin_stmts.specs.Leaves.{IsLeaf, LeafLowers, LeavesLower, NestLowers};
ghost use Rattle.fin_stmts.specs.Lowering.{LowersAll, LowersOne, LowersSome};
ghost use Rattle.fin_stmts.specs.Places.{IsPlaced, context_of, here_of};
ghost use Rattle.fin_stmts.specs.Programs.{LowersBody};
ghost use Rattle.fin_stmts.specs.Sites.{Comes, IsEntered, IsFixed, IsSite, LowersLoop, loop_of};
ghost use Rattle.fin_perform.specs.Working.{nothing_in};

use crate::entered::{Entered, Loop, Site, empty_loop, enter_loop, loop_code, range_of};
use crate::leaves::{LeafCodes, at_point, filled_flat, fixed_leaf};
use crate::nests::{NestAsks, flat_of, heads_tell, is_nothing_here};
use crate::place::{
    Codes, Place, bound_inside, facts_in, heads_of, is_settled, known_inside, literal_there,
    rest_there, see,
};
use crate::unbodied::{lower_declare, lower_freeze, lower_thaw, lower_update, single};
use fin_ast::{Checked, Expr, Stmt};
use fin_descend::{Flat, Leaf, Lowered, greater, nothing};
use fin_ir::Code;
use fin_loops::programs_are_sources;
use fin_perform::{Let, Update, cond_code, let_code, literal_code};
use fin_simp::{Facts, Rest, masks_compare, next_number};
use fin_style_point::Nest;
use sqlite_items::Items;
use std::alloc::{AllocError, Global};

/// The codes of a program's statements, with a local for each variable before their own, and how many locals they need.
/// There is no memory for as many locals as a `u32` can't count.
pub fn lower_body(alloc: Global, checked: &Checked) -> Result<Codes, AllocError>
    ensures { IfOk result (LowersBody checked.now) }
{
    let variables = checked.dims.ranges.len();
    if variables > u32::MAX as usize {
        return Err(AllocError);
    }
    let place = Place {
        known: None,
        read: 0,
        test: 0,
        next: variables as u32,
    };
    programs_are_sources();
    lower_all(alloc, checked, checked.program.body.as_slice(), &place)
}

/// The codes of statements one after another.
#[cycle(lowered)]
fn lower_all(
    alloc: Global,
    checked: &Checked,
    body: &[Stmt],
    place: &Place<'_>,
) -> Result<Codes, AllocError>
    requires worded { are_worded body.now ≡ true }
    requires placed { IsPlaced checked.now place.now }
    ensures { IfOk result (λ m. LowersAll checked.now place.now m body.now) }
{
    let mut codes = Items::new(alloc);
    let mut room = place.next;
    let mut read = place.read;
    let mut test = place.test;
    for statement in body {
        let here = Place {
            known: place.known,
            read,
            test,
            next: place.next,
        };
        let seen = see(alloc, statement, &here)?;
        let one = lower_one(alloc, checked, statement, &here, seen.nothing)?;
        room = greater(room, one.room);
        codes.append(one.codes)?;
        read = seen.read;
        test = seen.test;
    }
    Ok(Codes { codes, room })
}

// A statement; where nothing is left of it, it has no codes.
#[cycle(lowered)]
fn lower_one(
    alloc: Global,
    checked: &Checked,
    statement: &Stmt,
    place: &Place<'_>,
    nothing: bool,
) -> Result<Codes, AllocError>
    requires worded { is_worded_stmt statement.now ≡ true }
    requires placed { IsPlaced checked.now place.now }
    requires seen { nothing ≡ nothing_in statement.now (here_of place.now) (context_of place.now) }
    ensures { IfOk result (λ m. LowersOne checked.now place.now m statement.now) }
{
    if nothing {
        return Ok(Codes {
            codes: Items::new(alloc),
            room: place.next,
        });
    }
    lower_some(alloc, checked, statement, place)
}

// A statement of which something is left.
#[cycle(lowered)]
fn lower_some(
    alloc: Global,
    checked: &Checked,
    statement: &Stmt,
    place: &Place<'_>,
) -> Result<Codes, AllocError>
    requires worded { is_worded_stmt statement.now ≡ true }
    requires placed { IsPlaced checked.now place.now }
    requires some { nothing_in statement.now (here_of place.now) (context_of place.now) ≡ false }
    ensures { IfOk result (λ m. LowersOne checked.now place.now m statement.now) }
{
    match statement {
        Stmt::Block {
            body,
            line: _,
            last: _,
        } => lower_all(alloc, checked, body.as_slice(), place),
        Stmt::Loop {
            var,
            range: _,
            par,
            body,
            line: _,
            last: _,
        } => {
            let one = Loop {
                var: *var,
                par: *par,
                body: body.as_slice(),
            };
            lower_loop(alloc, checked, &one, place)
        }
        Stmt::Cond {
            test,
            body,
            line: _,
            last: _,
        } => lower_cond(alloc, checked, test, body.as_slice(), place),
        Stmt::Bind {
            var,
            value,
            body,
            line: _,
            last: _,
        } => {
            let one = Let { var: *var, value };
            lower_let(alloc, checked, &one, body.as_slice(), place)
        }
        Stmt::Declare {
            tensor,
            value: _,
            line: _,
        } => lower_declare(alloc, checked, *tensor, place),
        Stmt::Freeze { tensor, line: _ } => lower_freeze(alloc, checked, *tensor, place),
        Stmt::Thaw { tensor, line: _ } => lower_thaw(alloc, checked, *tensor, place),
        Stmt::Update {
            tensor,
            at,
            by,
            value,
            line: _,
        } => {
            let update = Update {
                tensor: *tensor,
                at: at.as_slice(),
                by: *by,
                value,
            };
            lower_update(alloc, checked, &update, place)
        }
    }
}

// A test that is settled has the codes of its body alone.
#[cycle(lowered)]
fn lower_cond(
    alloc: Global,
    checked: &Checked,
    test: &Expr,
    body: &[Stmt],
    place: &Place<'_>,
) -> Result<Codes, AllocError>
    requires worded { are_worded body.now ≡ true }
    requires placed { IsPlaced checked.now place.now }
    ensures { IfOk result (λ m. (line last : ℕ)
        → LowersSome checked.now place.now m (stmt.Cond test.now body.now line last)) }
{
    let found = literal_there(alloc, test, place)?;
    let number = next_number(place.test)?;
    let inner = Place {
        known: place.known,
        read: found.next,
        test: number,
        next: place.next,
    };
    let body = lower_all(alloc, checked, body, &inner)?;
    if is_settled(&found, place) {
        return Ok(body);
    }
    let heads = heads_of(checked);
    let room = body.room;
    let placed = cond_code(alloc, &heads, test, place.next, body.codes)?;
    single(alloc, placed.code, greater(placed.need, room))
}

// A let of a literal is known inside.
#[cycle(lowered)]
fn lower_let(
    alloc: Global,
    checked: &Checked,
    one: &Let<'_>,
    body: &[Stmt],
    place: &Place<'_>,
) -> Result<Codes, AllocError>
    requires value { is_worded one.now.value.now ≡ true }
    requires worded { are_worded body.now ≡ true }
    requires placed { IsPlaced checked.now place.now }
    ensures { IfOk result (λ m. (line last : ℕ)
        → LowersSome checked.now place.now m (stmt.Bind one.now.var one.now.value.now body.now line last)) }
{
    let found = literal_there(alloc, one.value, place)?;
    let bound = bound_inside(alloc, &place.known, one.var, found.literal)?;
    let inner = Place {
        known: known_inside(&place.known, bound.as_slice()),
        read: found.next,
        test: place.test,
        next: place.next,
    };
    let body = lower_all(alloc, checked, body, &inner)?;
    let room = body.room;
    match found.literal {
        Some(n) => {
            let code = literal_code(alloc, one.var, n, body.codes)?;
            single(alloc, code, room)
        }
        None => {
            let heads = heads_of(checked);
            let placed = let_code(alloc, &heads, one, place.next, body.codes)?;
            single(alloc, placed.code, greater(placed.need, room))
        }
    }
}

#[cycle(lowered)]
fn lower_loop(
    alloc: Global,
    checked: &Checked,
    one: &Loop<'_>,
    place: &Place<'_>,
) -> Result<Codes, AllocError>
    requires worded { are_worded one.now.body.now ≡ true }
    requires placed { IsPlaced checked.now place.now }
    ensures { IfOk result (λ m. LowersLoop checked.now one.now place.now m) }
{
    let bound = bound_inside(alloc, &place.known, one.var, None)?;
    let inner = Place {
        known: known_inside(&place.known, bound.as_slice()),
        read: place.read,
        test: place.test,
        next: place.next,
    };
    let rest = rest_there(alloc, one.body, &inner)?;
    let site = Site {
        checked,
        one: *one,
        place: *place,
        around: facts_in(&inner.known),
    };
    lower_site(alloc, &site, &rest)
}

// A loop, where this is left of its body. One that has no coordinate has its entry alone.
#[cycle(lowered)]
fn lower_site(alloc: Global, site: &Site<'_>, rest: &Rest) -> Result<Codes, AllocError>
    requires site { IsSite site.now }
    requires rest { as_rest rest.now ≡ rest_entered (loop_of site.now) }
    ensures { IfOk result (λ m. LowersLoop site.now.checked.now site.now.one site.now.place m) }
{
    let (lo, hi) = range_of(site);
    if hi <= lo {
        return empty_loop(alloc, site, rest);
    }
    let mut codes = Items::new(alloc);
    let entered = enter_loop(alloc, &mut codes, site, rest)?;
    lower_entered(alloc, codes, site, entered)
}

// Takes what stands behind an entry, so that it is dropped in one place.
#[cycle(lowered)]
fn lower_entered(
    alloc: Global,
    codes: Items<Code>,
    site: &Site<'_>,
    entered: Entered,
) -> Result<Codes, AllocError>
    requires site { IsSite site.now }
    requires some { (range_in (loop_of site.now)).0 < (range_in (loop_of site.now)).1 }
    requires codes { codes ≡ entry_code_of (loop_of site.now) site.now.one.par site.now.place.next }
    requires entered { IsEntered site.now entered }
    ensures { IfOk result (λ m. LowersLoop site.now.checked.now site.now.one site.now.place m) }
{
    lower_behind(alloc, codes, site, &entered)
}

// The nest behind the codes of a loop's entry.
#[cycle(lowered)]
fn lower_behind(
    alloc: Global,
    codes: Items<Code>,
    site: &Site<'_>,
    entered: &Entered,
) -> Result<Codes, AllocError>
    requires site { IsSite site.now }
    requires some { (range_in (loop_of site.now)).0 < (range_in (loop_of site.now)).1 }
    requires codes { codes ≡ entry_code_of (loop_of site.now) site.now.one.par site.now.place.next }
    requires entered { IsEntered site.now entered.now }
    ensures { IfOk result (λ m. LowersLoop site.now.checked.now site.now.one site.now.place m) }
{
    masks_compare();
    let asks = NestAsks {
        site: *site,
        drives: entered.drives.as_slice(),
    };
    let lowered = lower_nest(alloc, &asks, &entered.nest)?;
    let room = entered.nest.next.max(lowered.room);
    let code = loop_code(alloc, site, entered.behind, lowered)?;
    one_behind(codes, code, room)
}

// Codes with one more behind them.
fn one_behind(codes: Items<Code>, code: Code, room: u32) -> Result<Codes, AllocError>
    ensures codes { IfOk result (λ m. m.codes ≡ codes ++ code ∷ []) }
    ensures room { IfOk result (λ m. m.room ≡ room) }
{
    let mut codes = codes;
    codes.push(code)?;
    Ok(Codes { codes, room })
}

// A nest: its frame, filled with the codes of its leaves.
#[cycle(lowered)]
fn lower_nest(alloc: Global, asks: &NestAsks<'_>, nest: &Nest) -> Result<Lowered, AllocError>
    requires site { IsSite asks.now.site }
    requires comes { Comes asks.now.site asks.now.drives.now nest.now }
    ensures { IfOk result (NestLowers (loop_of asks.now.site) nest.now) }
{
    let flat = flat_of(alloc, asks, nest)?;
    lower_flat(alloc, asks, nest, flat)
}

// Takes a flat nest, so that it is dropped in one place.
#[cycle(lowered)]
fn lower_flat(
    alloc: Global,
    asks: &NestAsks<'_>,
    nest: &Nest,
    flat: Flat,
) -> Result<Lowered, AllocError>
    requires site { IsSite asks.now.site }
    requires flat { let ds = asks.now.drives.now in let l = loop_of asks.now.site in
        Flattens (OfLoop l) (Comes asks.now.site ds) (IsFixed asks.now.site) flat nest.now }
    ensures { IfOk result (NestLowers (loop_of asks.now.site) nest.now) }
{
    lower_frame(alloc, asks, nest, &flat)
}

#[cycle(lowered)]
fn lower_frame(
    alloc: Global,
    asks: &NestAsks<'_>,
    nest: &Nest,
    flat: &Flat,
) -> Result<Lowered, AllocError>
    requires site { IsSite asks.now.site }
    requires flat { let ds = asks.now.drives.now in let l = loop_of asks.now.site in
        Flattens (OfLoop l) (Comes asks.now.site ds) (IsFixed asks.now.site) flat.now nest.now }
    ensures { IfOk result (NestLowers (loop_of asks.now.site) nest.now) }
{
    let leaves = lower_leaves(alloc, asks, flat.leaves.as_slice())?;
    filled_flat(alloc, flat, leaves)
}

#[cycle(lowered)]
fn lower_leaves(
    alloc: Global,
    asks: &NestAsks<'_>,
    leaves: &[Leaf],
) -> Result<LeafCodes, AllocError>
    requires site { IsSite asks.now.site }
    requires leaves { All (IsLeaf asks.now.site asks.now.drives.now) leaves.now }
    ensures { IfOk result (LeavesLower (loop_of asks.now.site) leaves.now) }
{
    let mut codes = Items::new(alloc);
    let mut room = 0;
    for leaf in leaves {
        let lowered = lower_leaf(alloc, asks, leaf)?;
        room = greater(room, lowered.room);
        codes.push(lowered.code)?;
    }
    Ok(LeafCodes { codes, room })
}

#[cycle(lowered)]
fn lower_leaf(alloc: Global, asks: &NestAsks<'_>, leaf: &Leaf) -> Result<Lowered, AllocError>
    requires site { IsSite asks.now.site }
    requires leaf { IsLeaf asks.now.site asks.now.drives.now leaf.now }
    ensures { IfOk result (LeafLowers (loop_of asks.now.site) leaf.now) }
{
    match leaf {
        Leaf::Nothing => Ok(nothing()),
        Leaf::Fixed(nest) => fixed_leaf(alloc, asks, nest),
        Leaf::Point(nest) => lower_point(alloc, asks, nest),
    }
}

// The body at one coordinate, under what is known there.
#[cycle(lowered)]
fn lower_point(alloc: Global, asks: &NestAsks<'_>, nest: &Nest) -> Result<Lowered, AllocError>
    requires site { IsSite asks.now.site }
    requires leaf { IsLeaf asks.now.site asks.now.drives.now (Point nest.now) }
    ensures { IfOk result (LeafLowers (loop_of asks.now.site) (Point nest.now)) }
{
    if is_nothing_here(alloc, asks, nest)? {
        return Ok(nothing());
    }
    let told = heads_tell(alloc, asks, nest)?;
    let site = &asks.site;
    let place = Place {
        known: Some(Facts {
            gaps: told.gaps.as_slice(),
            known: told.known.as_slice(),
            bound: site.around.bound,
        }),
        read: site.place.read,
        test: site.place.test,
        next: nest.next,
    };
    let body = lower_all(alloc, site.checked, site.one.body, &place)?;
    at_point(alloc, nest, body)
}
