//! The tensors that a program makes, by header.
ghost use Rattle.std.specs.Prelude.{◌≡◌, IfOk, OnOk, None, Some, is_some, map, slice_set};
ghost use Rattle.fin_tensor.specs.TensorFunction.{filled};
ghost use Rattle.fin_ast.specs.Dense.{fill_of, kept, made_at, shape_at, updated_if};
ghost use Rattle.fin_ast.specs.Value.{place};
ghost use Rattle.fin_dense.specs.Runs.{setting_in};

use crate::lookups::{fill_of, shape_of};
use crate::points::coordinates;
use crate::setting::Setting;
use fin_ast::{Header, Index};
use fin_base::Reduce;
use fin_grid::Grid;
use std::alloc::{AllocError, Global};

/// No tensor is made.
pub fn nothing_made(alloc: Global, headers: &[Header]) -> Result<Vec<Option<Grid>>, AllocError>
    ensures { IfOk result (λ made. made.items ≡ map (λ h. None) headers.now) }
{
    let mut made = Vec::new(alloc);
    for _header in headers {
        made.push(None)?;
    }
    Ok(made)
}

/// The fill everywhere.
pub fn declare(
    alloc: Global,
    setting: &Setting<'_>,
    made: &mut Vec<Option<Grid>>,
    tensor: u8,
) -> Result<(), AllocError>
    ensures { let w = setting_in setting.now in
        let declared = Some (filled (shape_at w tensor) (fill_of w tensor)) in
        OnOk result (made.new.items ≡ slice_set made.old.items tensor declared) }
{
    let shape = shape_of(alloc, setting, tensor)?;
    let grid = Grid::new(alloc, shape, fill_of(setting, tensor));
    let tensor = tensor as usize;
    if tensor < made.len() {
        made[tensor] = Some(grid);
    }
    Ok(())
}

/// What an update changes: a tensor at a coordinate, by a value.
#[derive(Drop)]
pub struct Change<'a> {
    pub tensor: u8,
    pub at: &'a [Index],
    pub by: Reduce,
    pub value: i64,
}

/// One coordinate's value is reduced, where the indices point into the box.
pub fn update(
    alloc: Global,
    made: &mut Vec<Option<Grid>>,
    vars: &[i64],
    change: &Change<'_>,
) -> Result<(), AllocError>
    ensures { let tensor = change.now.tensor in
        let at = map (place vars.now) change.now.at.now in
        let updated = updated_if (made_at made.old.items tensor) at change.now.by change.now.value in
        OnOk result (made.new.items ≡ slice_set made.old.items tensor updated) }
{
    let tensor = change.tensor as usize;
    if tensor >= made.len() {
        return Ok(());
    }
    let Some(grid) = &mut made[tensor] else {
        return Ok(());
    };
    if let Some(cs) = coordinates(alloc, grid.shape(), change.at, vars)? {
        grid.update(alloc, &cs, change.by, change.value)?;
    }
    Ok(())
}

/// Which tensors are there.
pub fn flags(alloc: Global, made: &[Option<Grid>]) -> Result<Vec<bool>, AllocError>
    ensures { IfOk result (λ flags. flags.items ≡ map is_some made.now) }
{
    let mut flags = Vec::new(alloc);
    for tensor in made {
        flags.push(tensor.is_some())?;
    }
    Ok(flags)
}

/// Forgets the tensors without a flag.
pub fn forget(made: &mut Vec<Option<Grid>>, before: &[bool])
    ensures { made.new.items ≡ kept before.now made.old.items }
{
    for i in 0..before.len() {
        if !before[i] {
            forget_one(made, i);
        }
    }
}

fn forget_one(made: &mut Vec<Option<Grid>>, i: usize)
    ensures { made.new.items ≡ slice_set made.old.items i None }
{
    if i < made.len() {
        made[i] = None;
    }
}
