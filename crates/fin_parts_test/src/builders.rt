//! What no clause says: that builders succeed where memory is ample.
ghost use Rattle.std.specs.Prelude.{◌≡◌, IsTrue};
ghost use Rattle.std.specs.List.{list_all};
ghost use Rattle.fin_tensor.specs.Placement.{is_dense_or_dict};
ghost use Rattle.fin_build.specs.Parts.{AreRows};

use fin_base::{Reduce, identity};
use fin_build::Builder;
use fin_grid::is_in_box;
use fin_tensor::{
    Coords, Format, Level, Seq, Wrap, has_small_dense_size, is_shape, keeps_placement,
};
use std::alloc::{AllocError, Global};
use std::process::Abort;
use std::test::Fail;

fn built(
    rt: &impl Abort,
    alloc: Global,
    levels: &[Level],
    shape: &[u64],
    fill: i64,
) -> Result<Builder, AllocError> {
    let mut kinds = Seq::new(alloc);
    for level in levels {
        kinds.push(*level)?;
    }
    let mut extents = Seq::new(alloc);
    for extent in shape {
        extents.push(*extent)?;
    }
    let format = Format {
        levels: kinds,
        wrap: Wrap::Bare,
        fill,
    };
    assert!(rt; keeps_placement(&format));
    assert!(rt; is_shape(format.levels.as_slice(), extents.as_slice()));
    assert!(rt; has_small_dense_size(format.levels.as_slice(), extents.as_slice()));
    Builder::new(alloc, &format, &extents)
}

fn update(
    rt: &impl Abort,
    builder: &mut Builder,
    at: &[u64],
    by: Reduce,
    v: i64,
) -> Result<(), AllocError>
    ensures format { builder.new.format ≡ builder.old.format }
    ensures shape { builder.new.function.shape ≡ builder.old.function.shape }
{
    assert!(rt; is_in_box(builder.shape().as_slice(), at));
    assert!(rt; builder.follows(at));
    builder.update(at, by, v)
}

fn merge(
    rt: &impl Abort,
    mine: &mut Builder,
    theirs: &Builder,
    by: Reduce,
) -> Result<(), AllocError> {
    assert!(rt; mine.shape() == theirs.shape());
    assert!(rt; all_dense_or_dict(mine.format().levels.as_slice()));
    assert!(rt; identity(by) == Some(theirs.format().fill));
    theirs.is_building();
    mine.merge(theirs, by)
}

fn all_dense_or_dict(levels: &[Level]) -> bool
    ensures { result ≡ list_all is_dense_or_dict levels.now }
{
    levels
        .iter()
        .all(|level| matches!(*level, Level::Dense | Level::Dict))
}

fn are_rows(builder: &Builder, lo: u64, hi: u64) -> bool
    ensures { IsTrue result → AreRows lo hi builder.now }
{
    let levels = builder.format().levels.as_slice();
    let shape = builder.shape().as_slice();
    levels.len() > 0 && levels[0] == Level::Dense && shape.len() > 0 && lo <= hi && hi <= shape[0]
}

fn assert_entries(
    rt: &impl Abort,
    alloc: Global,
    builder: &Builder,
    expected: &[(&[u64], i64)],
) -> Result<(), AllocError> {
    let entries = builder.entries(alloc)?;
    assert_eq!(rt; entries.len(), expected.len());
    for (entry, wanted) in entries.iter().zip(expected.iter()) {
        assert_eq!(rt; entry.0.as_slice(), wanted.0);
        assert_eq!(rt; entry.1, wanted.1);
    }
    Ok(())
}

#[test]
fn updates(rt: HostRuntime) -> Result<(), Fail> {
    let alloc = rt.alloc();
    let mut list = built(&rt, alloc, &[Level::List], &[3], 0)?;
    update(&rt, &mut list, &[1], Reduce::Add, 2)?;
    update(&rt, &mut list, &[1], Reduce::Add, -2)?;
    update(&rt, &mut list, &[2], Reduce::Add, 5)?;
    assert!(rt; !list.follows(&[1]));
    assert_entries(&rt, alloc, &list, &[(&[2], 5)])?;
    assert!(rt; is_in_box(list.shape().as_slice(), &[2]));
    assert_eq!(rt; list.value(&[2]), 5);
    Ok(())
}

#[test]
fn merges(rt: HostRuntime) -> Result<(), Fail> {
    let alloc = rt.alloc();
    let levels = [Level::Dense, Level::Dict];
    let mut mine = built(&rt, alloc, &levels, &[2, 3], 1)?;
    update(&rt, &mut mine, &[0, 2], Reduce::Put, 4)?;
    let mut theirs = built(&rt, alloc, &levels, &[2, 3], 0)?;
    update(&rt, &mut theirs, &[0, 2], Reduce::Put, 5)?;
    update(&rt, &mut theirs, &[1, 0], Reduce::Put, 6)?;
    merge(&rt, &mut mine, &theirs, Reduce::Add)?;
    assert_entries(&rt, alloc, &mine, &[(&[0, 2], 9), (&[1, 0], 7)])?;
    Ok(())
}

#[test]
fn rows(rt: HostRuntime) -> Result<(), Fail> {
    let alloc = rt.alloc();
    let levels = [Level::Dense, Level::List];
    let mut whole = built(&rt, alloc, &levels, &[4, 3], 0)?;
    update(&rt, &mut whole, &[0, 1], Reduce::Put, 1)?;
    update(&rt, &mut whole, &[1, 1], Reduce::Put, 2)?;
    update(&rt, &mut whole, &[3, 1], Reduce::Put, 3)?;
    assert!(rt; are_rows(&whole, 1, 3));
    let mut part = whole.part(alloc, 1, 3)?;
    update(&rt, &mut part, &[1, 2], Reduce::Put, 8)?;
    assert_entries(&rt, alloc, &part, &[(&[0, 1], 2), (&[1, 2], 8)])?;
    whole.replace(1, 3, part)?;
    let expected: [(&[u64], i64); 4] = [(&[0, 1], 1), (&[1, 1], 2), (&[2, 2], 8), (&[3, 1], 3)];
    assert_entries(&rt, alloc, &whole, &expected)?;
    assert!(rt; whole.follows(&[2, 2]));
    assert!(rt; !whole.follows(&[2, 1]));
    Ok(())
}
