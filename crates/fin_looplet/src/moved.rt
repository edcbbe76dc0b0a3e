//! Looplets that are moved.
ghost use Rattle.std.specs.Prelude.{◌≡◌, ◌+◌, IfOk, map};
ghost use Rattle.fin_looplet.specs.Cut.{plus};
ghost use Rattle.fin_looplet.specs.Moved.{put, put_leaf, lowered, raised, moved, moved_phase, moved_one, moved_case};

use crate::looplet::{Case, Leaf, Looplet, Phase, Walker};
use crate::parts::{lowered, plus, raised};
use fin_ir::IExpr;
use sqlite_items::{Boxed, Items};
use std::alloc::{AllocError, Global};

/// The expression `e` with another one for a local.
#[cycle(put)]
pub fn put(alloc: Global, e: &IExpr, local: u32, other: &IExpr) -> Result<IExpr, AllocError>
    ensures { IfOk result (λ p. p ≡ put local other.now e.now) }
{
    match e {
        IExpr::Num(value) => Ok(IExpr::Num(*value)),
        IExpr::Local(x) => put_local(alloc, local, other, *x),
        IExpr::Neg(inner) => {
            let inner = put_part(alloc, inner.get(), local, other)?;
            Ok(IExpr::Neg(inner))
        }
        IExpr::Two { op, left, right } => {
            let left = put_part(alloc, left.get(), local, other)?;
            let right = put_part(alloc, right.get(), local, other)?;
            Ok(IExpr::Two {
                op: *op,
                left,
                right,
            })
        }
        IExpr::Pick { test, yes, no } => {
            let test = put_part(alloc, test.get(), local, other)?;
            let yes = put_part(alloc, yes.get(), local, other)?;
            let no = put_part(alloc, no.get(), local, other)?;
            Ok(IExpr::Pick { test, yes, no })
        }
        IExpr::Times { by, value, count } => {
            let value = put_part(alloc, value.get(), local, other)?;
            let count = put_part(alloc, count.get(), local, other)?;
            Ok(IExpr::Times {
                by: *by,
                value,
                count,
            })
        }
        IExpr::Cell {
            tensor,
            level,
            table,
            at,
        } => {
            let at = put_part(alloc, at.get(), local, other)?;
            Ok(IExpr::Cell {
                tensor: *tensor,
                level: *level,
                table: *table,
                at,
            })
        }
        IExpr::Seek {
            tensor,
            level,
            from,
            to,
            key,
        } => {
            let from = put_part(alloc, from.get(), local, other)?;
            let to = put_part(alloc, to.get(), local, other)?;
            let key = put_part(alloc, key.get(), local, other)?;
            Ok(IExpr::Seek {
                tensor: *tensor,
                level: *level,
                from,
                to,
                key,
            })
        }
        IExpr::Val { tensor, pos } => {
            let pos = put_part(alloc, pos.get(), local, other)?;
            Ok(IExpr::Val {
                tensor: *tensor,
                pos,
            })
        }
    }
}

fn put_local(alloc: Global, local: u32, other: &IExpr, x: u32) -> Result<IExpr, AllocError>
    ensures { IfOk result (λ p. p ≡ put local other.now (IExpr.Local x)) }
{
    if x == local {
        other.copy(alloc)
    } else {
        Ok(IExpr::Local(x))
    }
}

#[cycle(put)]
fn put_part(alloc: Global, e: &IExpr, local: u32, other: &IExpr) -> Result<Boxed<IExpr>, AllocError>
    ensures { IfOk result (λ p. p ≡ put local other.now e.now) }
{
    let e = put(alloc, e, local, other)?;
    let e = Boxed::new(alloc, e)?;
    Ok(e)
}

impl Looplet {
    /// The looplet, moved up by `by`, with every shift inside it done. It answers want of memory, too, where a walker's
    /// cursor is the last local that there can be.
    #[cycle(moved)]
    pub fn moved(&self, alloc: Global, by: &IExpr) -> Result<Looplet, AllocError>
        ensures { IfOk result (λ l. l ≡ moved by.now self.now) }
    {
        match self {
            Looplet::Lookup { coord, leaf } => {
                let leaf = put_leaf(alloc, leaf, *coord, by)?;
                Ok(Looplet::Lookup {
                    coord: *coord,
                    leaf,
                })
            }
            Looplet::Sequence(phases) => {
                let phases = moved_phases(alloc, phases.as_slice(), by)?;
                Ok(Looplet::Sequence(phases))
            }
            Looplet::Stepper(walker) => {
                let walker = moved_walker(alloc, walker.get(), by)?;
                Ok(Looplet::Stepper(walker))
            }
            Looplet::Jumper(walker) => {
                let walker = moved_walker(alloc, walker.get(), by)?;
                Ok(Looplet::Jumper(walker))
            }
            Looplet::Switch(cases) => {
                let cases = moved_cases(alloc, cases.as_slice(), by)?;
                Ok(Looplet::Switch(cases))
            }
            Looplet::Shift { by: inner, child } => {
                let by = sum(alloc, by, inner)?;
                child.get().moved(alloc, &by)
            }
            _ => self.copy(alloc),
        }
    }
}

#[cycle(moved)]
fn moved_walker(alloc: Global, walker: &Walker, by: &IExpr) -> Result<Boxed<Walker>, AllocError>
    ensures { IfOk result (λ w. w ≡ moved_one by.now walker.now) }
{
    let cursor = walker.cursor;
    let seek = moved_seek(alloc, &walker.seek, cursor, by)?;
    let stop = raised(alloc, by, &walker.stop)?;
    let child = walker.child.moved(alloc, by)?;
    let walker = Boxed::new(
        alloc,
        Walker {
            cursor,
            seek,
            stop,
            child,
        },
    )?;
    Ok(walker)
}

#[cycle(moved)]
fn moved_phases(alloc: Global, phases: &[Phase], by: &IExpr) -> Result<Items<Phase>, AllocError>
    ensures { IfOk result (λ all. all ≡ map (moved_phase by.now) phases.now) }
{
    let mut all = Items::new(alloc);
    for phase in phases {
        let stop = raised(alloc, by, &phase.stop)?;
        let child = phase.child.moved(alloc, by)?;
        all.push(Phase { stop, child })?;
    }
    Ok(all)
}

#[cycle(moved)]
fn moved_cases(alloc: Global, cases: &[Case], by: &IExpr) -> Result<Items<Case>, AllocError>
    ensures { IfOk result (λ all. all ≡ map (moved_case by.now) cases.now) }
{
    let mut all = Items::new(alloc);
    for case in cases {
        let test = case.test.copy(alloc)?;
        let child = case.child.moved(alloc, by)?;
        all.push(Case { test, child })?;
    }
    Ok(all)
}

fn sum(alloc: Global, left: &IExpr, right: &IExpr) -> Result<IExpr, AllocError>
    ensures { IfOk result (λ e. e ≡ plus left.now right.now) }
{
    let left = left.copy(alloc)?;
    let right = right.copy(alloc)?;
    plus(alloc, left, right)
}

/// The cursor of the coordinate less the distance.
fn moved_seek(alloc: Global, seek: &IExpr, cursor: u32, by: &IExpr) -> Result<IExpr, AllocError>
    ensures { IfOk result (λ e. e ≡ put (cursor + 1) (lowered (cursor + 1) by.now) seek.now) }
{
    if cursor == u32::MAX {
        return Err(AllocError);
    }
    let less = lowered(alloc, cursor + 1, by)?;
    put(alloc, seek, cursor + 1, &less)
}

/// The leaf at the coordinate less the distance.
fn put_leaf(alloc: Global, leaf: &Leaf, coord: u32, by: &IExpr) -> Result<Leaf, AllocError>
    ensures { IfOk result (λ l. l ≡ put_leaf coord (lowered coord by.now) leaf.now) }
{
    let less = lowered(alloc, coord, by)?;
    match leaf {
        Leaf::Fill(fill) => Ok(Leaf::Fill(*fill)),
        Leaf::Value(value) => {
            let value = put(alloc, value, coord, &less)?;
            Ok(Leaf::Value(value))
        }
        Leaf::Sub {
            tensor,
            level,
            pos,
            there,
        } => {
            let pos = put(alloc, pos, coord, &less)?;
            let there = put(alloc, there, coord, &less)?;
            Ok(Leaf::Sub {
                tensor: *tensor,
                level: *level,
                pos,
                there,
            })
        }
    }
}
