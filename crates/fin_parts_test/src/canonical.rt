//! What no clause says: that `store` succeeds on functions whose canonical storages were worked out by hand.
ghost use Rattle.std.specs.Prelude.{◌≡◌, ◌<◌, IsTrue, IfOk, length};
ghost use Rattle.std.specs.Cmp.Lexicographic.{slice_cmp};
ghost use Rattle.std.specs.Ordering.{nat_cmp};
ghost use Rattle.std.specs.declared.cmp.Ordering.TheVariants.{Less};
ghost use Rattle.fin_tensor.specs.TensorFunction.{is_in_box};
ghost use Rattle.fin_canon.specs.Entries.{AreEntries, coords};

use crate::lists::list;
use fin_canon::store;
use fin_tensor::{
    Coords, Format, Level, Part, Storage, StoreFail, Wrap, is_shape, keeps_placement,
};
use std::alloc::Global;
use std::cmp::Ordering;
use std::process::Abort;
use std::test::Fail;

fn are_entries(shape: &[u64], entries: &[(Coords, i64)]) -> bool
    ensures { IsTrue result → AreEntries shape.now entries.now }
{
    for k in 0..entries.len() {
        if !lies_inside(shape, coords_of(entries, k)) {
            return false;
        }
        if k + 1 < entries.len() && !is_before(coords_of(entries, k), coords_of(entries, k + 1)) {
            return false;
        }
    }
    true
}

fn coords_of(entries: &[(Coords, i64)], k: usize) -> &Coords
    requires { k < length entries.now }
    ensures { result.now ≡ coords entries.now k }
{
    &entries[k].0
}

fn is_before(a: &Coords, b: &Coords) -> bool
    ensures { IsTrue result → slice_cmp nat_cmp a.now b.now ≡ Less }
{
    match a.cmp(b) {
        Ordering::Less => true,
        _ => false,
    }
}

fn lies_inside(shape: &[u64], at: &Coords) -> bool
    ensures { IsTrue result → IsTrue (is_in_box shape.now at.now) }
{
    is_inside(shape, at.as_slice())
}

fn is_inside(shape: &[u64], at: &[u64]) -> bool
    ensures { IsTrue result → IsTrue (is_in_box shape.now at.now) }
{
    if at.len() != shape.len() {
        return false;
    }
    for i in 0..at.len() {
        if at[i] >= shape[i] {
            return false;
        }
    }
    true
}

// The storage of a function with fill 0, its coordinates a list for each entry.
fn stored(
    rt: &impl Abort,
    alloc: Global,
    levels: &[Level],
    shape: &[u64],
    at: &[&[u64]],
    values: &[i64],
) -> Result<Result<Storage, StoreFail>, Fail> {
    let format = Format {
        levels: list(alloc, levels)?,
        wrap: Wrap::Bare,
        fill: 0,
    };
    let shape = list(alloc, shape)?;
    let mut entries = Vec::new(alloc);
    for (items, value) in at.iter().zip(values.iter()) {
        let mut coords = Coords::new(alloc);
        for item in items.iter() {
            coords.push(*item)?;
        }
        entries.push((coords, *value))?;
    }
    assert!(rt; keeps_placement(&format));
    assert!(rt; is_shape(format.levels.as_slice(), shape.as_slice()));
    assert!(rt; are_entries(shape.as_slice(), entries.as_slice()));
    Ok(store(alloc, &format, &shape, entries.as_slice()))
}

// The two lists of a level.
fn lists(part: &Part) -> (&[u64], &[u64]) {
    match part {
        Part::Dense => (&[], &[]),
        Part::Keys { ptr, idx } => (ptr.as_slice(), idx.as_slice()),
        Part::Runs { ptr, stop } => (ptr.as_slice(), stop.as_slice()),
        Part::Band { ptr, start } => (ptr.as_slice(), start.as_slice()),
    }
}

fn assert_is(rt: &impl Abort, storage: &Storage, parts: &[(&[u64], &[u64])], values: &[i64]) {
    assert_eq!(rt; storage.parts.len(), parts.len());
    for (part, expected) in storage.parts.as_slice().iter().zip(parts.iter()) {
        assert_eq!(rt; lists(part), *expected);
    }
    assert_eq!(rt; storage.val.as_slice(), values);
}

#[test]
fn stored_lists(rt: HostRuntime) -> Result<(), Fail> {
    let alloc = rt.alloc();

    // Equal neighbours are one run.
    let storage = stored(&rt, alloc, &[Level::Runs], &[4], &[&[1], &[2]], &[7, 7])??;
    assert_is(&rt, &storage, &[(&[0, 3], &[1, 3, 4])], &[0, 7, 0]);

    // An entry with the fill cuts no run.
    let storage = stored(&rt, alloc, &[Level::Runs], &[5], &[&[1], &[3]], &[0, 7])??;
    assert_is(&rt, &storage, &[(&[0, 3], &[3, 4, 5])], &[0, 7, 0]);

    let levels = [Level::Band, Level::List];
    let storage = stored(&rt, alloc, &levels, &[3, 2], &[&[1, 1]], &[4])??;
    assert_is(&rt, &storage, &[(&[0, 1], &[1]), (&[0, 1], &[1])], &[4]);

    // An entry with the fill is not kept, and an empty row is.
    let levels = [Level::Dense, Level::Dict];
    let at: [&[u64]; 3] = [&[0, 1], &[0, 2], &[2, 0]];
    let storage = stored(&rt, alloc, &levels, &[3, 4], &at, &[5, 0, 9])??;
    assert_is(
        &rt,
        &storage,
        &[(&[], &[]), (&[0, 1, 1, 2], &[1, 0])],
        &[5, 9],
    );

    // Nothing is stored, and nothing is gone over.
    let levels = [Level::Dense, Level::Dense, Level::List];
    let storage = stored(&rt, alloc, &levels, &[1 << 40, 0, 1], &[], &[])??;
    assert_is(&rt, &storage, &[(&[], &[]), (&[], &[]), (&[0], &[])], &[]);
    Ok(())
}

#[test]
fn too_large(rt: HostRuntime) -> Result<(), Fail> {
    let levels = [Level::Band, Level::Band, Level::List];
    let most: u64 = 1 << 40;
    let at: [&[u64]; 3] = [&[0, 0, 0], &[0, most - 1, 0], &[most - 1, 0, 0]];
    let shape = [most, most, 1];
    let answer = stored(&rt, rt.alloc(), &levels, &shape, &at, &[1, 1, 1])?;
    assert!(rt; matches!(answer, Err(StoreFail::Large)));
    Ok(())
}
