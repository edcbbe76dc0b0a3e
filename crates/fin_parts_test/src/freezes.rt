//! What no clause says: that a freeze and a thaw succeed where memory is ample.
use fin_base::Reduce;
use fin_build::Builder;
use fin_freeze::{freeze, thaw};
use fin_grid::is_in_box;
use fin_tensor::{Format, Level, Seq, Wrap, has_small_dense_size, is_shape, keeps_placement};
use std::test::Fail;

#[test]
fn there_and_back(rt: HostRuntime) -> Result<(), Fail> {
    let alloc = rt.alloc();
    let mut levels = Seq::new(alloc);
    levels.push(Level::Runs)?;
    let mut shape = Seq::new(alloc);
    shape.push(4)?;
    let format = Format {
        levels,
        wrap: Wrap::Bare,
        fill: 7,
    };
    assert!(rt; keeps_placement(&format));
    assert!(rt; is_shape(format.levels.as_slice(), shape.as_slice()));
    assert!(rt; has_small_dense_size(format.levels.as_slice(), shape.as_slice()));
    let mut builder = Builder::new(alloc, &format, &shape)?;
    assert!(rt; is_in_box(builder.shape().as_slice(), &[2]));
    assert!(rt; builder.follows(&[2]));
    builder.update(&[2], Reduce::Put, 5)?;
    let storage = freeze(alloc, builder)?;
    assert_eq!(rt; storage.val.as_slice(), [7, 5, 7].as_slice());
    let thawed = thaw(alloc, &storage)?;
    assert!(rt; thawed.follows(&[0]));
    let entries = thawed.entries(alloc)?;
    assert_eq!(rt; entries.len(), 1);
    assert_eq!(rt; entries[0].0.as_slice(), [2].as_slice());
    assert_eq!(rt; entries[0].1, 5);
    Ok(())
}
