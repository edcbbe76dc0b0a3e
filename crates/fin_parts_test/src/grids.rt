//! What no clause says: that a grid succeeds where memory is ample.
use fin_base::Reduce;
use fin_grid::{Grid, is_in_box};
use fin_tensor::{Coords, Seq};
use std::test::Fail;

#[test]
fn entries(rt: HostRuntime) -> Result<(), Fail> {
    let alloc = rt.alloc();
    let mut shape = Seq::new(alloc);
    shape.push(3)?;
    let mut grid = Grid::new(alloc, shape, 7);
    let mut at = Coords::new(alloc);
    at.push(2)?;
    assert!(rt; is_in_box(grid.shape(), at.as_slice()));
    grid.put(alloc, &at, 4)?;
    assert!(rt; is_in_box(grid.shape(), at.as_slice()));
    grid.update(alloc, &at, Reduce::Add, 1)?;
    assert_eq!(rt; grid.value(&at), 5);
    assert_eq!(rt; grid.entries(alloc)?.len(), 1);
    assert_eq!(rt; grid.extents().len(), 1);
    assert_eq!(rt; grid.fill(), 7);
    Ok(())
}
