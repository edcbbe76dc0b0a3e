//! What no clause says: that the calls succeed on storages that were worked out by hand.
ghost use Rattle.std.specs.Prelude.{◌≡◌, ◌∷◌, [], IfOk};
ghost use Rattle.fin_tensor.specs.declared.format.Wrap.TheVariants.{Bare};

use crate::lists::list;
use fin_tensor::{
    Coords, Draft, Duplicate, Format, Level, Levels, Part, Storage, Vals, Wrap,
    has_small_dense_size, is_shape, keeps_placement,
};
use std::alloc::Global;
use std::process::Abort;
use std::test::Fail;

fn bare(levels: Levels) -> Format
    ensures levels { result.levels ≡ levels }
    ensures wrap { result.wrap ≡ Bare }
{
    Format {
        levels,
        wrap: Wrap::Bare,
        fill: 7,
    }
}

// Two rows of four: 7 5 7 -1 and 9 7 7 7, where 7 is the fill.
fn rows(rt: &impl Abort, alloc: Global) -> Result<Storage, Fail>
    ensures { IfOk result (λ s. s.shape ≡ 2 ∷ 4 ∷ []) }
{
    let format = bare(list(alloc, &[Level::Dense, Level::List])?);
    let shape = list(alloc, &[2, 4])?;
    assert!(rt; keeps_placement(&format));
    assert!(rt; is_shape(format.levels.as_slice(), shape.as_slice()));
    let draft = Draft::new(alloc, format, shape).with(Part::Dense)?;
    let ptr = list(alloc, &[0, 2, 3])?;
    let idx = list(alloc, &[1, 3, 0])?;
    assert!(rt; draft.is_ptr(ptr.as_slice()));
    assert!(rt; draft.is_idx(ptr.as_slice(), idx.as_slice()));
    let draft = draft.with(Part::Keys { ptr, idx })?;
    let val: Vals = list(alloc, &[5, -1, 9])?;
    assert!(rt; draft.is_val(val.as_slice()));
    Ok(draft.finish(val))
}

#[test]
fn stored_values(rt: HostRuntime) -> Result<(), Fail> {
    let storage = rows(&rt, rt.alloc())?.copy(rt.alloc())?;
    for (i, row) in [[7, 5, 7, -1], [9, 7, 7, 7]].iter().enumerate() {
        for (j, value) in row.iter().enumerate() {
            assert_eq!(rt; storage.at(&[i as u64, j as u64]), *value, "at {i} {j}");
        }
    }
    Ok(())
}

#[test]
fn placements(rt: HostRuntime) -> Result<(), Fail> {
    let alloc = rt.alloc();
    assert!(rt; keeps_placement(&bare(list(alloc, &[Level::Band, Level::Runs])?)));
    assert!(rt; !keeps_placement(&bare(list(alloc, &[Level::Runs, Level::Dense])?)));
    assert!(rt; !keeps_placement(&bare(list(alloc, &[Level::Dense; 9])?)));
    let levels = [Level::Dense, Level::List, Level::Dense];
    assert!(rt; has_small_dense_size(&levels, &[4096, 9, 4096]));
    assert!(rt; has_small_dense_size(&levels, &[0, 9, 16_777_216]));
    assert!(rt; !has_small_dense_size(&levels, &[4096, 1, 4097]));
    assert!(rt; !has_small_dense_size(&levels, &[1 << 40, 1, 1 << 40]));
    Ok(())
}

#[test]
fn coordinates(rt: HostRuntime) -> Result<(), Fail> {
    let mut coords = Coords::new(rt.alloc());
    coords.push(3)?;
    coords.push(4)?;
    coords.set(0, 5);
    assert_eq!(rt; *coords.get(0), 5);
    assert_eq!(rt; coords.copy(rt.alloc())?.as_slice(), [5, 4].as_slice());
    Ok(())
}
