//! What a setting says of its tensors and variables.
ghost use Rattle.std.specs.Prelude.{◌≡◌, ◌≤◌, ◌^◌, IfOk, option_map};
ghost use Rattle.fin_tensor.specs.Stands.{stands};
ghost use Rattle.fin_ast.specs.Dense.{fill_of, made_at, range_of, setting_of, shape_at};
ghost use Rattle.fin_dense.specs.Inputs.{numbered};
ghost use Rattle.fin_dense.specs.Runs.{setting_in};

use crate::setting::Setting;
use fin_ast::{Checked, Header, Kind};
use fin_tensor::{Nums, Seq, Storage};
use std::alloc::{AllocError, Global};

/// The setting of a program over the storages of its inputs, in the order of headers.
pub fn setting<'a>(
    alloc: Global,
    checked: &'a Checked,
    inputs: &'a [Storage],
) -> Result<Setting<'a>, AllocError>
    ensures same { IfOk result (λ s. setting_in s ≡ setting_of checked.now inputs.now) }
    ensures program { IfOk result (λ s. s.checked.now ≡ checked.now) }
{
    let numbers = numbered(alloc, checked.program.headers.as_slice())?;
    Ok(Setting {
        checked,
        inputs,
        numbers,
    })
}

fn numbered(alloc: Global, headers: &[Header]) -> Result<Vec<Option<usize>>, AllocError>
    ensures { IfOk result (λ numbers. numbers.items ≡ numbered 0 headers.now) }
{
    let mut numbers = Vec::new(alloc);
    let mut next = 0;
    for header in headers {
        if header.kind == Kind::Input {
            numbers.push(Some(next))?;
            next += 1;
        } else {
            numbers.push(None)?;
        }
    }
    Ok(numbers)
}

/// The storage of a tensor, where it is an input.
pub fn input<'a>(setting: &'a Setting<'a>, tensor: u8) -> Option<&'a Storage>
    ensures { option_map (λ s. stands s.now) result ≡ made_at (setting_in setting.now).given tensor }
{
    match setting.numbers.get(tensor as usize) {
        Some(Some(number)) => setting.inputs.get(*number),
        _ => None,
    }
}

/// The shape of a tensor.
pub fn shape_of(alloc: Global, setting: &Setting<'_>, tensor: u8) -> Result<Nums, AllocError>
    ensures { IfOk result (λ shape. shape ≡ shape_at (setting_in setting.now) tensor) }
{
    match setting.checked.dims.shapes.as_slice().get(tensor as usize) {
        Some(shape) => shape.copy(alloc),
        None => Ok(Seq::new(alloc)),
    }
}

/// The fill of a tensor.
pub fn fill_of(setting: &Setting<'_>, tensor: u8) -> i64
    ensures { result ≡ fill_of (setting_in setting.now) tensor }
{
    match setting
        .checked
        .program
        .headers
        .as_slice()
        .get(tensor as usize)
    {
        Some(header) => header.format.fill,
        None => 0,
    }
}

/// The range of a variable; that of a let is empty.
pub fn range_of(setting: &Setting<'_>, var: u32) -> (u64, u64)
    ensures value { result ≡ range_of (setting_in setting.now) var }
    ensures small { result.1 ≤ 2 ^ 40 }
{
    match setting.checked.dims.ranges.as_slice().get(var as usize) {
        Some(range) => *range,
        None => (0, 0),
    }
}
