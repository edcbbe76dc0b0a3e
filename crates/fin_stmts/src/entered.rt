//! A loop where its code is made, and its entry.
ghost use Rattle.std.specs.Prelude.{◌≡◌, ◌+◌, ◌-◌, ◌<◌, ◌++◌, [], ◌∷◌, IfOk, OnOk, true, false};
ghost use Rattle.fin_ir.specs.declared.code.Code.TheVariants.{ParLoop};
ghost use Rattle.fin_simp.specs.Gathered.{as_rest};
ghost use Rattle.fin_simp.specs.Work.{chunk_count};
ghost use Rattle.fin_loops.specs.Loops.{rest_entered};
ghost use Rattle.fin_loops.specs.Parallel.{range_in, chunks_code};
ghost use Rattle.fin_loops.specs.Sourced.{entry_code_of};
ghost use Rattle.fin_loops.specs.Tops.{own_end};
ghost use Rattle.fin_stmts.specs.Entrances.{IsEntrance, IsNestOf, end_of};
ghost use Rattle.fin_stmts.specs.Sites.{IsSite, IsEntered, ends_at, loop_of};

use crate::place::{Codes, Place, heads_of};
use fin_ast::{Checked, Stmt};
use fin_descend::Lowered;
use fin_enter::{Entrance, LoopHead, drives, enter, next_local};
use fin_ir::{Code, IExpr};
use fin_simp::{Facts, Rest};
use fin_style_point::Nest;
use fin_tensor::Seq;
use sqlite_items::{Boxed, Items};
use std::alloc::{AllocError, Global};

/// The most chunks of a parallel loop.
const CHUNKS: u64 = 256;

/// A loop.
#[derive(Clone, Copy)]
pub struct Loop<'a> {
    pub var: u32,
    pub par: bool,
    pub body: &'a [Stmt],
}

/// A loop of a program at a place, with what is known inside it of all but its reads and masks.
#[derive(Clone, Copy)]
pub struct Site<'a> {
    pub checked: &'a Checked,
    pub one: Loop<'a>,
    pub place: Place<'a>,
    pub around: Facts<'a>,
}

/// A loop's nest behind its entry, which of the nest's reads the loop drives, and the first local behind those of the
/// entry. A parallel loop's chunk has that one and the next for its ends.
#[derive(Drop)]
pub struct Entered {
    pub nest: Nest,
    pub drives: Vec<bool>,
    pub behind: u32,
}

/// The range of a loop's variable.
pub(crate) fn range_of(site: &Site<'_>) -> (u64, u64)
    ensures { result ≡ range_in (loop_of site.now) }
{
    match site
        .checked
        .dims
        .ranges
        .as_slice()
        .get(site.one.var as usize)
    {
        Some(range) => *range,
        None => (0, 0),
    }
}

fn chunks_of(par: bool, range: (u64, u64)) -> u32
    ensures { result ≡ chunk_count par (range.1 - range.0) }
{
    if !par || range.1 <= range.0 {
        return 0;
    }
    (range.1 - range.0).min(CHUNKS) as u32
}

// Appends the codes of the entry, and gives what it gives.
fn enter_at(
    alloc: Global,
    into: &mut Items<Code>,
    site: &Site<'_>,
    rest: &Rest,
) -> Result<Entrance, AllocError>
    requires { as_rest rest.now ≡ rest_entered (loop_of site.now) }
    ensures code { let made = entry_code_of (loop_of site.now) site.now.one.par site.now.place.next in
        OnOk result (into.new ≡ into.old ++ made) }
    ensures entrance { IfOk result (IsEntrance (loop_of site.now) site.now.place.next) }
{
    let heads = heads_of(site.checked);
    let head = LoopHead {
        heads: &heads,
        var: site.one.var,
        chunks: chunks_of(site.one.par, range_of(site)),
    };
    enter(alloc, into, head, rest, site.place.next)
}

/// The codes of a loop whose range is empty: those of its entry.
pub(crate) fn empty_loop(alloc: Global, site: &Site<'_>, rest: &Rest) -> Result<Codes, AllocError>
    requires { as_rest rest.now ≡ rest_entered (loop_of site.now) }
    ensures codes { IfOk result (λ m. m.codes ≡ entry_code_of (loop_of site.now) site.now.one.par site.now.place.next) }
    ensures room { IfOk result (λ m. m.room ≡ own_end (loop_of site.now) site.now.place.next) }
{
    let mut codes = Items::new(alloc);
    let entrance = enter_at(alloc, &mut codes, site, rest)?;
    Ok(Codes {
        codes,
        room: entrance.next,
    })
}

/// Appends the codes of the entry of a loop that has a coordinate, and gives what stands behind it.
pub(crate) fn enter_loop(
    alloc: Global,
    into: &mut Items<Code>,
    site: &Site<'_>,
    rest: &Rest,
) -> Result<Entered, AllocError>
    requires site { IsSite site.now }
    requires rest { as_rest rest.now ≡ rest_entered (loop_of site.now) }
    requires some { (range_in (loop_of site.now)).0 < (range_in (loop_of site.now)).1 }
    ensures code { let made = entry_code_of (loop_of site.now) site.now.one.par site.now.place.next in
        OnOk result (into.new ≡ into.old ++ made) }
    ensures entered { IfOk result (IsEntered site.now) }
{
    let entrance = enter_at(alloc, into, site, rest)?;
    let drives = drives(alloc, site.one.var, rest.reads.as_slice())?;
    let behind = entrance.next;
    let nest = nest_of(alloc, site, entrance)?;
    Ok(Entered {
        nest,
        drives,
        behind,
    })
}

// Its nest, with the first local behind the ends of a chunk for its first free one.
fn nest_of(alloc: Global, site: &Site<'_>, entrance: Entrance) -> Result<Nest, AllocError>
    requires { (range_in (loop_of site.now)).0 < (range_in (loop_of site.now)).1 }
    ensures { IfOk result (IsNestOf site.now entrance) }
{
    let to = next_local(entrance.next)?;
    let next = next_local(to)?;
    let (lo, hi) = ends_of(site, entrance.next, to);
    Ok(Nest {
        body: Stmt::Block {
            body: Items::new(alloc),
            line: 0,
            last: 0,
        },
        var: site.one.var,
        lo,
        hi,
        next,
        reads: entrance.reads,
        masks: entrance.masks,
    })
}

// The ends of the range, or the locals that have those of a chunk.
#[tactic(auto, using(crate::proofs::Extents::range_small))]
fn ends_of(site: &Site<'_>, from: u32, to: u32) -> (IExpr, IExpr)
    requires { (range_in (loop_of site.now)).0 < (range_in (loop_of site.now)).1 }
    ensures lo { result.0 ≡ end_of site.now.one.par from (range_in (loop_of site.now)).0 }
    ensures hi { result.1 ≡ end_of site.now.one.par to (range_in (loop_of site.now)).1 }
{
    if site.one.par {
        return (IExpr::Local(from), IExpr::Local(to));
    }
    let (lo, hi) = range_of(site);
    (IExpr::Num(lo as i64), IExpr::Num(hi as i64))
}

/// The code of an entered loop from that of its nest, which a parallel one has for each chunk.
pub(crate) fn loop_code(
    alloc: Global,
    site: &Site<'_>,
    behind: u32,
    lowered: Lowered,
) -> Result<Code, AllocError>
    ensures serial { site.now.one.par ≡ false → IfOk result (λ c. c ≡ lowered.code) }
    ensures chunks { let code = chunks_code (loop_of site.now) (ends_at behind) lowered in
        site.now.one.par ≡ true → IfOk result (λ c. c ≡ code) }
{
    if site.one.par {
        return in_chunks(alloc, site, behind, lowered.code);
    }
    Ok(lowered.code)
}

// The code for each chunk, whose ends are in two locals.
fn in_chunks(alloc: Global, site: &Site<'_>, from: u32, body: Code) -> Result<Code, AllocError>
    ensures { let range = range_in (loop_of site.now) in
        IfOk result (λ c. c ≡ ParLoop from (from + 1) range.0 range.1 [] body) }
{
    let (lo, hi) = range_of(site);
    let to = next_local(from)?;
    let body = Boxed::new(alloc, body)?;
    Ok(Code::ParLoop {
        from,
        to,
        lo,
        hi,
        ways: Seq::new(alloc),
        body,
    })
}
