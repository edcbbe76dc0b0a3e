//! The storages of a program's outputs.
ghost use Rattle.std.specs.Prelude.{◌≡◌, IfOk, IsErrOf, OnOk, Some, option_map, slice_get};
ghost use Rattle.fin_tensor.specs.Canon.{IsCanon};
ghost use Rattle.fin_tensor.specs.Lines.{IsShape};
ghost use Rattle.fin_tensor.specs.Placement.{IsPlaced};
ghost use Rattle.fin_tensor.specs.TensorFunction.{filled};
ghost use Rattle.fin_canon.specs.Entries.{AreEntries, named, undecorated};
ghost use Rattle.fin_ast.specs.Dense.{made_at};
ghost use Rattle.fin_ast.specs.Kinds.{is_output};
ghost use Rattle.fin_dense.specs.Fitting.{Adds, HasLarge, HaveHeaders, IsTooLarge};
ghost use Rattle.fin_dense.specs.Plain.{AreStored, outputs_from};
ghost use Rattle.fin_dense.specs.Runs.{functions_in, headers_in, setting_in};

use crate::halt::Halt;
use crate::lookups::shape_of;
use crate::setting::Setting;
use fin_ast::{Header, Kind};
use fin_canon::store;
use fin_grid::Grid;
use fin_tensor::{Coords, Format, Nums, Outputs, Seq, Storage, StoreFail};
use std::alloc::{AllocError, Global};

/// The canonical storage of each output's function, in the order of headers.
///
/// # Errors
///
/// `Spent` where one isn't valid by its size, and `Memory` for want of memory.
pub fn outputs(alloc: Global, setting: &Setting<'_>, made: &[Option<Grid>]) -> Result<Outputs, Halt>
    requires headers { HaveHeaders (setting_in setting.now) made.now }
    ensures stored { let outputs = outputs_from 0 (headers_in setting.now) in
        IfOk result (λ o. AreStored (functions_in setting.now made.now) outputs o.tensors) }
    ensures large { IsErrOf result Halt.Spent → HasLarge (functions_in setting.now made.now) (headers_in setting.now) }
{
    let mut tensors = Seq::new(alloc);
    for k in 0..setting.checked.program.headers.len() {
        let header = setting.checked.program.headers.get(k);
        add_output(alloc, setting, made, k as u8, header, &mut tensors)?;
    }
    Ok(Outputs { tensors })
}

// Puts the storage of an output last. Other tensors have none.
fn add_output(
    alloc: Global,
    setting: &Setting<'_>,
    made: &[Option<Grid>],
    tensor: u8,
    header: &Header,
    into: &mut Seq<(u8, Storage)>,
) -> Result<(), Halt>
    requires headers { HaveHeaders (setting_in setting.now) made.now }
    requires header { slice_get (headers_in setting.now) tensor ≡ Some header.now }
    ensures added { OnOk result (Adds (functions_in setting.now made.now) tensor header.now into.old into.new) }
    ensures large { IsErrOf result Halt.Spent → HasLarge (functions_in setting.now made.now) (headers_in setting.now) }
{
    if !is_output(header.kind) {
        return Ok(());
    }
    let storage = output(alloc, setting, made, tensor, header)?;
    into.push((tensor, storage))?;
    Ok(())
}

fn is_output(kind: Kind) -> bool
    ensures { result ≡ is_output kind }
{
    matches!(kind, Kind::Output)
}

// A tensor that wasn't declared has the fill everywhere.
fn output(
    alloc: Global,
    setting: &Setting<'_>,
    made: &[Option<Grid>],
    tensor: u8,
    header: &Header,
) -> Result<Storage, Halt>
    requires headers { HaveHeaders (setting_in setting.now) made.now }
    requires header { slice_get (headers_in setting.now) tensor ≡ Some header.now }
    ensures canon { let f = functions_in setting.now made.now tensor in
        IfOk result (λ s. IsCanon (undecorated header.now.format) f s) }
    ensures large { let f = functions_in setting.now made.now tensor in
        IsErrOf result Halt.Spent → IsTooLarge header.now.format f }
{
    match grid_of(made, tensor) {
        Some(grid) => store_grid(alloc, &header.format, grid),
        None => {
            let shape = shape_of(alloc, setting, tensor)?;
            store_fill(alloc, &header.format, &shape)
        }
    }
}

fn grid_of(made: &[Option<Grid>], tensor: u8) -> Option<&Grid>
    ensures { option_map (λ grid. grid.now) result ≡ made_at made.now tensor }
{
    match made.get(tensor as usize) {
        Some(Some(grid)) => Some(grid),
        _ => None,
    }
}

fn store_grid(alloc: Global, format: &Format, grid: &Grid) -> Result<Storage, Halt>
    requires placed { IsPlaced format.now.levels format.now.wrap }
    requires shape { IsShape format.now.levels grid.now.shape }
    requires fill { format.now.fill ≡ grid.now.fill }
    ensures canon { IfOk result (λ s. IsCanon (undecorated format.now) grid.now s) }
    ensures large { IsErrOf result Halt.Spent → IsTooLarge format.now grid.now }
{
    grid.is_tensor();
    let shape = numbers(alloc, grid.shape())?;
    let entries = grid.entries(alloc)?;
    store_entries(alloc, format, &shape, entries.as_slice())
}

fn store_fill(alloc: Global, format: &Format, shape: &Nums) -> Result<Storage, Halt>
    requires placed { IsPlaced format.now.levels format.now.wrap }
    requires shape { IsShape format.now.levels shape.now }
    ensures canon { IfOk result (λ s. IsCanon (undecorated format.now) (filled shape.now format.now.fill) s) }
    ensures large { IsErrOf result Halt.Spent → IsTooLarge format.now (filled shape.now format.now.fill) }
{
    store_entries(alloc, format, shape, &[])
}

fn store_entries(
    alloc: Global,
    format: &Format,
    shape: &Nums,
    entries: &[(Coords, i64)],
) -> Result<Storage, Halt>
    requires placed { IsPlaced format.now.levels format.now.wrap }
    requires shape { IsShape format.now.levels shape.now }
    requires entries { AreEntries shape.now entries.now }
    ensures canon { let f = named shape.now format.now.fill entries.now in
        IfOk result (λ s. IsCanon (undecorated format.now) f s) }
    ensures large { IsErrOf result Halt.Spent → IsTooLarge format.now (named shape.now format.now.fill entries.now) }
{
    match store(alloc, format, shape, entries) {
        Ok(storage) => Ok(storage),
        Err(StoreFail::Large) => Err(Halt::Spent),
        Err(StoreFail::Memory(error)) => Err(Halt::Memory(error)),
    }
}

fn numbers(alloc: Global, items: &[u64]) -> Result<Nums, AllocError>
    ensures { IfOk result (λ numbers. numbers ≡ items.now) }
{
    let mut numbers = Nums::new(alloc);
    for item in items {
        numbers.push(*item)?;
    }
    Ok(numbers)
}
