//! The looplet of a walked fibre.
ghost use Rattle.std.specs.Prelude.{◌≡◌, ◌+◌, ◌<◌, ◌≤◌, ◌^◌, [], ◌∷◌, IfOk, length, pos};
ghost use Rattle.fin_ir.specs.declared.expression.IExpr.TheVariants as made;
ghost use Rattle.fin_looplet.specs.declared.looplet.Leaf.TheVariants as shown;
ghost use Rattle.fin_looplet.specs.declared.looplet.Looplet.TheVariants as looplet;
ghost use Rattle.fin_unfurl.specs.Fibres.{asked, IsApart, ShowsLeaves, ShowsVarying, ShowsBreaks, IsSound, HasFewStops, OwnsTwo, DependsOnPlace};
ghost use Rattle.fin_unfurl.specs.Walks as spec;

use crate::fibre::Fibre;
use crate::parts::{begin, cell, end, leaf, pick, seek, two};
use fin_base::{Op, Proto};
use fin_ir::{IExpr, Table};
use fin_looplet::{Case, Leaf, Looplet, Phase, Walker};
use fin_tensor::{Format, Level};
use sqlite_items::{Boxed, Items};
use std::alloc::{AllocError, Global};

/// The looplet of the fibre at the position `pos` of a level that is walked; of the fill where `there` is 0. The level
/// is in the format and has that extent. The looplet's own locals are `cursor` and the one above it.
pub fn unfurl(
    alloc: Global,
    format: &Format,
    tensor: u8,
    level: u8,
    _proto: Proto,
    extent: u64,
    pos: IExpr,
    there: IExpr,
    cursor: u32,
) -> Result<Looplet, AllocError>
    requires level { level < length format.now.levels }
    requires walk { _proto ≡ Proto.Walk }
    requires extent { extent ≤ 2 ^ 40 }
    requires cursor { cursor + 1 < 2 ^ 32 }
    requires pos { IsApart cursor pos }
    requires there { IsApart cursor there }
    ensures leaves { IfOk result (ShowsLeaves (asked format.now tensor level extent pos there cursor)) }
    ensures varying { IfOk result (ShowsVarying (asked format.now tensor level extent pos there cursor)) }
    ensures breaks { IfOk result (ShowsBreaks (asked format.now tensor level extent pos there cursor)) }
    ensures sound { IfOk result (IsSound (asked format.now tensor level extent pos there cursor)) }
    ensures stops { IfOk result (HasFewStops (asked format.now tensor level extent pos there cursor)) }
    ensures owns { IfOk result (OwnsTwo (asked format.now tensor level extent pos there cursor)) }
    ensures depends { IfOk result (DependsOnPlace (asked format.now tensor level extent pos there cursor)) }
    ensures made { IfOk result (λ l. l ≡ spec.unfurl_of (asked format.now tensor level extent pos there cursor)) }
{
    let fibre = fibre_in(format, tensor, level, extent, cursor);
    unfurled(
        alloc,
        *format.levels.get(level as usize),
        fibre,
        &pos,
        there,
    )
}

fn fibre_in(format: &Format, tensor: u8, level: u8, extent: u64, cursor: u32) -> Fibre
    requires { level < length format.now.levels }
    ensures { result ≡ spec.fibre_in format.now tensor level extent cursor }
{
    Fibre {
        tensor,
        level,
        below: level_below(format, level),
        extent,
        fill: format.fill,
        cursor,
    }
}

// The level below, where there is one.
fn level_below(format: &Format, level: u8) -> Option<u8>
    requires { level < length format.now.levels }
    ensures { result ≡ spec.below_of format.now.levels level }
{
    if level as usize + 1 == format.levels.len() {
        return None;
    }
    Some(level.saturating_add(1))
}

fn unfurled(
    alloc: Global,
    level: Level,
    fibre: Fibre,
    pos: &IExpr,
    there: IExpr,
) -> Result<Looplet, AllocError>
    requires extent { fibre.extent ≤ 2 ^ 40 }
    requires cursor { fibre.cursor + 1 < 2 ^ 32 }
    ensures { IfOk result (λ l. l ≡ spec.guarded fibre there (spec.walk_of level fibre pos.now)) }
{
    let walk = walk(alloc, level, fibre, pos)?;
    guarded(alloc, fibre, there, walk)
}

fn walk(alloc: Global, level: Level, fibre: Fibre, pos: &IExpr) -> Result<Looplet, AllocError>
    requires extent { fibre.extent ≤ 2 ^ 40 }
    requires cursor { fibre.cursor + 1 < 2 ^ 32 }
    ensures { IfOk result (λ l. l ≡ spec.walk_of level fibre pos.now) }
{
    match level {
        Level::Dense => dense(alloc, fibre, pos),
        Level::List | Level::Dict => list(alloc, fibre, pos),
        Level::Runs => runs(alloc, fibre, pos),
        Level::Band => band(alloc, fibre, pos),
    }
}

// Spikes up to the last stored coordinate, and then the fill.
fn list(alloc: Global, fibre: Fibre, pos: &IExpr) -> Result<Looplet, AllocError>
    requires extent { fibre.extent ≤ 2 ^ 40 }
    requires cursor { fibre.cursor + 1 < 2 ^ 32 }
    ensures { IfOk result (λ l. l ≡ spec.list_walk fibre pos.now) }
{
    let stop = list_end(alloc, fibre, pos)?;
    let walker = list_walker(alloc, fibre, pos)?;
    let walker = Boxed::new(alloc, walker)?;
    let mut phases = Items::new(alloc);
    phases.push(Phase {
        stop,
        child: Looplet::Stepper(walker),
    })?;
    phases.push(rest(fibre))?;
    Ok(Looplet::Sequence(phases))
}

fn list_walker(alloc: Global, fibre: Fibre, pos: &IExpr) -> Result<Walker, AllocError>
    requires cursor { fibre.cursor + 1 < 2 ^ 32 }
    ensures { IfOk result (λ w. w ≡ spec.list_walker fibre pos.now) }
{
    let place = seek(alloc, fibre, pos)?;
    let stop = list_stop(alloc, fibre, IExpr::Local(fibre.cursor))?;
    let tail = leaf(alloc, fibre, IExpr::Local(fibre.cursor))?;
    Ok(Walker {
        cursor: fibre.cursor,
        seek: place,
        stop,
        child: spike(fibre, tail),
    })
}

// The fill, up to one place.
fn spike(fibre: Fibre, tail: Leaf) -> Looplet
    ensures { result ≡ looplet.Spike (shown.Fill fibre.fill) tail }
{
    let body = Leaf::Fill(fibre.fill);
    Looplet::Spike { body, tail }
}

fn list_stop(alloc: Global, fibre: Fibre, at: IExpr) -> Result<IExpr, AllocError>
    ensures { IfOk result (λ e. e ≡ spec.list_stop fibre at) }
{
    let idx = cell(alloc, fibre, Table::Idx, at)?;
    two(alloc, Op::Add, idx, behind())
}

// A stop stands one behind the last coordinate before it.
fn behind() -> IExpr
    ensures { result ≡ made.Num (pos 1) }
{
    let one = 1;
    IExpr::Num(one)
}

// One after the last stored coordinate, or 0 where none is stored.
fn list_end(alloc: Global, fibre: Fibre, pos: &IExpr) -> Result<IExpr, AllocError>
    ensures { IfOk result (λ e. e ≡ spec.list_end fibre pos.now) }
{
    let to = end(alloc, fibre, pos)?;
    let last = two(alloc, Op::Sub, to, IExpr::Num(1))?;
    let last = list_stop(alloc, fibre, last)?;
    let some = has_places(alloc, fibre, pos)?;
    pick(alloc, some, last, IExpr::Num(0))
}

fn has_places(alloc: Global, fibre: Fibre, pos: &IExpr) -> Result<IExpr, AllocError>
    ensures { IfOk result (λ e. e ≡ spec.has_places fibre pos.now) }
{
    let from = begin(alloc, fibre, pos)?;
    let to = end(alloc, fibre, pos)?;
    two(alloc, Op::Lt, from, to)
}

// The fill up to the extent.
fn rest(fibre: Fibre) -> Phase
    requires { fibre.extent ≤ 2 ^ 40 }
    ensures { result ≡ spec.rest fibre }
{
    Phase {
        stop: IExpr::Num(fibre.extent as i64),
        child: Looplet::Run(Leaf::Fill(fibre.fill)),
    }
}

// One run after another.
fn runs(alloc: Global, fibre: Fibre, pos: &IExpr) -> Result<Looplet, AllocError>
    requires cursor { fibre.cursor + 1 < 2 ^ 32 }
    ensures { IfOk result (λ l. l ≡ spec.runs_walk fibre pos.now) }
{
    let walker = runs_walker(alloc, fibre, pos)?;
    let walker = Boxed::new(alloc, walker)?;
    Ok(Looplet::Stepper(walker))
}

fn runs_walker(alloc: Global, fibre: Fibre, pos: &IExpr) -> Result<Walker, AllocError>
    requires cursor { fibre.cursor + 1 < 2 ^ 32 }
    ensures { IfOk result (λ w. w ≡ spec.runs_walker fibre pos.now) }
{
    let place = seek(alloc, fibre, pos)?;
    let stop = cell(alloc, fibre, Table::Stop, IExpr::Local(fibre.cursor))?;
    let run = leaf(alloc, fibre, IExpr::Local(fibre.cursor))?;
    Ok(Walker {
        cursor: fibre.cursor,
        seek: place,
        stop,
        child: Looplet::Run(run),
    })
}

// A position for each coordinate.
fn dense(alloc: Global, fibre: Fibre, pos: &IExpr) -> Result<Looplet, AllocError>
    requires extent { fibre.extent ≤ 2 ^ 40 }
    requires cursor { fibre.cursor + 1 < 2 ^ 32 }
    ensures { IfOk result (λ l. l ≡ spec.dense_walk fibre pos.now) }
{
    let pos = pos.copy(alloc)?;
    let first = two(alloc, Op::Mul, pos, IExpr::Num(fibre.extent as i64))?;
    let place = two(alloc, Op::Add, first, IExpr::Local(fibre.cursor + 1))?;
    let leaf = leaf(alloc, fibre, place)?;
    Ok(Looplet::Lookup {
        coord: fibre.cursor + 1,
        leaf,
    })
}

// The block, with the fill before and behind it.
fn band(alloc: Global, fibre: Fibre, pos: &IExpr) -> Result<Looplet, AllocError>
    requires extent { fibre.extent ≤ 2 ^ 40 }
    requires cursor { fibre.cursor + 1 < 2 ^ 32 }
    ensures { IfOk result (λ l. l ≡ spec.band_walk fibre pos.now) }
{
    let stop = block_begin(alloc, fibre, pos)?;
    let block = block(alloc, fibre, pos)?;
    let mut phases = Items::new(alloc);
    phases.push(Phase {
        stop,
        child: Looplet::Run(Leaf::Fill(fibre.fill)),
    })?;
    phases.push(block)?;
    phases.push(rest(fibre))?;
    Ok(Looplet::Sequence(phases))
}

fn block(alloc: Global, fibre: Fibre, pos: &IExpr) -> Result<Phase, AllocError>
    requires cursor { fibre.cursor + 1 < 2 ^ 32 }
    ensures { IfOk result (λ b. b ≡ spec.block fibre pos.now) }
{
    let stop = block_end(alloc, fibre, pos)?;
    let place = block_place(alloc, fibre, pos)?;
    let leaf = leaf(alloc, fibre, place)?;
    Ok(Phase {
        stop,
        child: Looplet::Lookup {
            coord: fibre.cursor + 1,
            leaf,
        },
    })
}

// The block's first coordinate. One that is empty stands nowhere, whatever its start is.
fn block_begin(alloc: Global, fibre: Fibre, pos: &IExpr) -> Result<IExpr, AllocError>
    ensures { IfOk result (λ e. e ≡ spec.block_begin fibre pos.now) }
{
    let some = has_places(alloc, fibre, pos)?;
    let start = start(alloc, fibre, pos)?;
    pick(alloc, some, start, IExpr::Num(0))
}

fn block_end(alloc: Global, fibre: Fibre, pos: &IExpr) -> Result<IExpr, AllocError>
    ensures { IfOk result (λ e. e ≡ spec.block_end fibre pos.now) }
{
    let first = block_begin(alloc, fibre, pos)?;
    let to = end(alloc, fibre, pos)?;
    let from = begin(alloc, fibre, pos)?;
    let long = two(alloc, Op::Sub, to, from)?;
    two(alloc, Op::Add, first, long)
}

fn block_place(alloc: Global, fibre: Fibre, pos: &IExpr) -> Result<IExpr, AllocError>
    requires cursor { fibre.cursor + 1 < 2 ^ 32 }
    ensures { IfOk result (λ e. e ≡ spec.block_place fibre pos.now) }
{
    let from = begin(alloc, fibre, pos)?;
    let start = start(alloc, fibre, pos)?;
    let behind = two(alloc, Op::Sub, IExpr::Local(fibre.cursor + 1), start)?;
    two(alloc, Op::Add, from, behind)
}

fn start(alloc: Global, fibre: Fibre, pos: &IExpr) -> Result<IExpr, AllocError>
    ensures { IfOk result (λ e. e ≡ spec.start fibre pos.now) }
{
    let pos = pos.copy(alloc)?;
    cell(alloc, fibre, Table::Start, pos)
}

// The walk where the position is there, else the fill.
fn guarded(alloc: Global, fibre: Fibre, there: IExpr, walk: Looplet) -> Result<Looplet, AllocError>
    ensures { IfOk result (λ l. l ≡ spec.guarded fibre there walk) }
{
    if is_there(&there) {
        return Ok(walk);
    }
    let mut cases = Items::new(alloc);
    cases.push(Case {
        test: there,
        child: walk,
    })?;
    cases.push(Case {
        test: IExpr::Num(1),
        child: Looplet::Run(Leaf::Fill(fibre.fill)),
    })?;
    Ok(Looplet::Switch(cases))
}

fn is_there(there: &IExpr) -> bool
    ensures { result ≡ spec.is_there there.now }
{
    match there {
        IExpr::Num(n) => *n != 0,
        _ => false,
    }
}
