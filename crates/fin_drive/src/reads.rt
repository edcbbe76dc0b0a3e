//! The looplet of a read that a loop drives.
ghost use Rattle.std.specs.Prelude.{◌≡◌, ◌+◌, ◌<◌, ◌≤◌, ◌^◌, IfOk, length};
ghost use Rattle.fin_unfurl.specs.Fibres.{IsApart};
ghost use Rattle.fin_drive.specs.Looplets as spec;

use crate::reading::{Reading, Spot};
use fin_ast::Index;
use fin_base::Proto;
use fin_ir::IExpr;
use fin_looplet::{Leaf, Looplet, minus};
use fin_tensor::Format;
use fin_unfurl::{shift, unfurl};
use std::alloc::{AllocError, Global};

/// No index with an offset further out meets its dimension.
const FAR: i64 = 2_199_023_255_553;

/// The looplet of a driven read whose fibre stands at a spot. At each coordinate of the loop it shows what the
/// definition of work knows of the read there.
pub fn driven(
    alloc: Global,
    format: &Format,
    reading: Reading,
    spot: Spot,
) -> Result<Looplet, AllocError>
    requires level { reading.level < length format.now.levels }
    requires extent { reading.extent ≤ 2 ^ 40 }
    requires cursor { reading.cursor + 1 < 2 ^ 32 }
    requires place { IsApart reading.cursor spot.place }
    requires there { IsApart reading.cursor spot.there }
    ensures { IfOk result (λ l. l ≡ spec.driven_looplet format.now reading spot) }
{
    let Spot { place, there, by } = spot;
    let looplet = fibre(alloc, format, reading, place, there)?;
    placed(alloc, reading, format.fill, looplet, by)
}

fn fibre(
    alloc: Global,
    format: &Format,
    reading: Reading,
    place: IExpr,
    there: IExpr,
) -> Result<Looplet, AllocError>
    requires level { reading.level < length format.now.levels }
    requires extent { reading.extent ≤ 2 ^ 40 }
    requires cursor { reading.cursor + 1 < 2 ^ 32 }
    requires place { IsApart reading.cursor place }
    requires there { IsApart reading.cursor there }
    ensures { IfOk result (λ l. l ≡ spec.fibre_at format.now reading place there) }
{
    if !reading.settled {
        return Ok(unknown(reading.tensor, reading.cursor));
    }
    unfurl(
        alloc,
        format,
        reading.tensor,
        reading.level,
        Proto::Walk,
        reading.extent,
        place,
        there,
        reading.cursor,
    )
}

// What isn't known before the body is run varies and is no gap.
fn unknown(tensor: u8, cursor: u32) -> Looplet
    requires { cursor + 1 < 2 ^ 32 }
    ensures { result ≡ spec.unknown tensor (cursor + 1) }
{
    let leaf = Leaf::Sub {
        tensor,
        level: 0,
        pos: IExpr::Num(0),
        there: IExpr::Num(1),
    };
    Looplet::Lookup {
        coord: cursor + 1,
        leaf,
    }
}

// The fibre along the coordinates of the loop.
fn placed(
    alloc: Global,
    reading: Reading,
    fill: i64,
    fibre: Looplet,
    by: IExpr,
) -> Result<Looplet, AllocError>
    requires { reading.extent ≤ 2 ^ 40 }
    ensures { IfOk result (λ l. l ≡ spec.placed reading fill fibre by) }
{
    if is_bare(reading) {
        return Ok(fibre);
    }
    shift(alloc, fibre, by, edge(reading, fill))
}

// Where the index may leave the extent.
fn edge(reading: Reading, fill: i64) -> Option<(u64, i64)>
    ensures { result ≡ spec.edge_of reading fill }
{
    if reading.index.loose {
        return Some((reading.extent, fill));
    }
    None
}

fn is_bare(reading: Reading) -> bool
    ensures { result ≡ spec.is_bare reading }
{
    !reading.index.loose && (other(reading).is_none() && reading.index.offset == 0)
}

/// How far the coordinates of the loop lie behind those of the level, by the local of the index's other variable.
pub fn distance(alloc: Global, reading: Reading) -> Result<IExpr, AllocError>
    ensures { IfOk result (λ e. e ≡ spec.back reading) }
{
    let offset = IExpr::Num(back_offset(reading.index.offset));
    match other(reading) {
        Some(local) => minus(alloc, offset, IExpr::Local(local)),
        None => Ok(offset),
    }
}

// The variable of the index that the loop doesn't bind.
fn other(reading: Reading) -> Option<u32>
    ensures { result ≡ spec.other reading }
{
    let index: Index = reading.index;
    match index.first {
        Some(var) => {
            if var == reading.var {
                index.second
            } else {
                index.first
            }
        }
        None => None,
    }
}

fn back_offset(offset: i64) -> i64
    ensures { result ≡ spec.back_offset offset }
{
    if offset < -FAR {
        return FAR;
    }
    if offset > FAR {
        return -FAR;
    }
    -offset
}
