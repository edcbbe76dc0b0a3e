//! Single statements.
ghost use Rattle.std.specs.Prelude.{◌≡◌, ℕ, ◌≤◌, ◌^◌, List, map, slice_get, slice_set, Some, OnOk, IfOk, true, pos};
ghost use Rattle.fin_tensor.specs.declared.storage.Storage.{Storage};
ghost use Rattle.fin_tensor.specs.Building.{Building};
ghost use Rattle.fin_ir.specs.Machine.{assign, charge as charged, update as updates, declare as declares, freeze as freezes, thaw as thaws, can_declare, can_update, is_made, thawed as thawed_of};
ghost use Rattle.fin_ir.specs.Frozen.{frozen_of};
ghost use Rattle.fin_ir.specs.Value.{value_in, is_off as is_off_at};
ghost use Rattle.fin_run.specs.Storages.{storage_in};
ghost use Rattle.fin_run.specs.Ends.{IsReady, Did, Does, evaluated, joined};

use crate::state::{Held, State};
use crate::storages::storage_at;
use crate::value::evaluate;
use fin_base::Reduce;
use fin_build::Builder;
use fin_freeze::{freeze, thaw};
use fin_ir::{IExpr, Layout, RunError};
use fin_tensor::{Coords, Storage, StoreFail, Vals};
use std::alloc::{AllocError, Global};
use std::mem;

/// Whether a test is 0.
pub fn is_off(inputs: &[Storage], state: &State, test: &IExpr) -> bool
    ensures { result ≡ is_off_at (evaluated inputs.now state.now test.now) }
{
    evaluate(inputs, state, test) == 0
}

/// The local becomes the value.
pub fn set_value(inputs: &[Storage], state: &mut State, local: u32, e: &IExpr)
    ensures did { Did (λ m. assign local (value_in m e.now) m) inputs.now state.old state.new }
    ensures work { state.new.work ≡ state.old.work }
{
    let v = evaluate(inputs, state, e);
    set_local(&mut state.locals, local, v);
}

/// Sets a local, where there is one.
pub fn set_local(locals: &mut Vals, local: u32, v: i64)
    ensures { locals.new ≡ slice_set locals.old local v }
{
    let at = local as usize;
    if at < locals.len() {
        locals.set(at, v);
    }
}

/// The work rises by the value, where it is over 0.
pub fn charge(inputs: &[Storage], state: &mut State, e: &IExpr, budget: u64) -> Result<(), RunError>
    requires work { state.old.work ≤ budget }
    requires budget { budget ≤ 2 ^ 40 }
    ensures { Does budget (λ m. charged (value_in m e.now) m) inputs.now state.old state.new result }
{
    let v = evaluate(inputs, state, e);
    if 0 < v {
        state.work += v as u64;
        if budget < state.work {
            return Err(RunError::Spent);
        }
    }
    Ok(())
}

/// The tensor is built from the fill on.
pub fn declare(
    alloc: Global,
    layout: &Layout,
    state: &mut State,
    tensor: u8,
) -> Result<(), RunError>
    requires { can_declare layout.now tensor ≡ true }
    ensures { (inputs : List Storage) (budget : ℕ) → state.old.work ≤ budget → Does budget (declares layout.now tensor) inputs state.old state.new result }
{
    let t = tensor as usize;
    let builder = Builder::new(alloc, layout.formats.get(t), layout.shapes.get(t))?;
    set_held(&mut state.tensors, tensor, Held::Building(builder));
    Ok(())
}

/// The tensor becomes its canonical storage; the run is spent where that is too large.
pub fn freeze_at(alloc: Global, state: &mut State, tensor: u8) -> Result<(), RunError>
    requires { (b : Building) × (slice_get state.old.tensors.items tensor ≡ Some (Held.Building b)) }
    ensures { (inputs : List Storage) (budget : ℕ) → state.old.work ≤ budget → budget ≤ 2 ^ 40 → Does budget (freezes tensor) inputs state.old state.new result }
{
    let builder = take_builder(&mut state.tensors, tensor);
    match freeze(alloc, builder) {
        Ok(storage) => {
            set_held(&mut state.tensors, tensor, Held::Frozen(storage));
            Ok(())
        }
        Err(StoreFail::Large) => Err(RunError::Spent),
        Err(StoreFail::Memory(error)) => Err(RunError::Memory(error)),
    }
}

/// The tensor is built from its storage on.
pub fn thaw_at(
    alloc: Global,
    inputs: &[Storage],
    state: &mut State,
    tensor: u8,
) -> Result<(), RunError>
    requires storage { (s : Storage) × (storage_in inputs.now state.old.tensors.items tensor ≡ Some s) }
    ensures { (layout : Layout) (budget : ℕ) → is_made layout tensor ≡ true → state.old.work ≤ budget → Does budget (thaws layout tensor) inputs.now state.old state.new result }
{
    let builder = thawed(alloc, inputs, state.tensors.as_slice(), tensor)?;
    set_held(&mut state.tensors, tensor, Held::Building(builder));
    Ok(())
}

/// The value is joined to that at the coordinates.
pub fn update(
    alloc: Global,
    inputs: &[Storage],
    state: &mut State,
    tensor: u8,
    at: &[IExpr],
    by: Reduce,
    e: &IExpr,
) -> Result<(), RunError>
    requires { IsReady (λ m. updates tensor (map (value_in m) at.now) by (value_in m e.now) m) inputs.now state.old }
    ensures { (budget : ℕ) → state.old.work ≤ budget → Does budget (λ m. updates tensor (map (value_in m) at.now) by (value_in m e.now) m) inputs.now state.old state.new result }
{
    let coords = coordinates(alloc, inputs, state, at)?;
    let change = Change {
        by,
        value: evaluate(inputs, state, e),
    };
    put_at(&mut state.tensors, tensor, coords.as_slice(), &change)?;
    Ok(())
}

/// How a value is joined to another.
#[derive(Clone, Copy)]
pub struct Change {
    pub by: Reduce,
    pub value: i64,
}

// The values of the indices.
fn coordinates(
    alloc: Global,
    inputs: &[Storage],
    state: &State,
    at: &[IExpr],
) -> Result<Coords, AllocError>
    requires { (cs : List ℕ) × (map (evaluated inputs.now state.now) at.now ≡ map pos cs) }
    ensures { IfOk result (λ cs. map pos cs ≡ map (evaluated inputs.now state.now) at.now) }
{
    let mut coords = Coords::new(alloc);
    for index in at {
        let coord = evaluate(inputs, state, index);
        coords.push(coord as u64)?;
    }
    Ok(coords)
}

fn put_at(
    tensors: &mut Vec<Held>,
    tensor: u8,
    at: &[u64],
    change: &Change,
) -> Result<(), AllocError>
    requires { (b : Building) × (slice_get tensors.old.items tensor ≡ Some (Held.Building b)) × (can_update b at.now ≡ true) }
    ensures { OnOk result ((b : Building) → slice_get tensors.old.items tensor ≡ Some (Held.Building b) → tensors.new.items ≡ slice_set tensors.old.items tensor (Held.Building (joined change.now at.now b))) }
{
    put(&mut tensors[tensor as usize], at, change)
}

fn put(held: &mut Held, at: &[u64], change: &Change) -> Result<(), AllocError>
    requires { (b : Building) × (held.old ≡ Held.Building b) × (can_update b at.now ≡ true) }
    ensures { OnOk result ((b : Building) → held.old ≡ Held.Building b → held.new ≡ Held.Building (joined change.now at.now b)) }
{
    match held {
        Held::Building(builder) => builder.update(at, change.by, change.value),
        _ => unreachable!(),
    }
}

fn set_held(tensors: &mut Vec<Held>, tensor: u8, held: Held)
    ensures { tensors.new.items ≡ slice_set tensors.old.items tensor held }
{
    let t = tensor as usize;
    if t < tensors.len() {
        tensors[t] = held;
    }
}

fn take_builder(tensors: &mut Vec<Held>, tensor: u8) -> Builder
    requires { (b : Building) × (slice_get tensors.old.items tensor ≡ Some (Held.Building b)) }
    ensures builder { slice_get tensors.old.items tensor ≡ Some (Held.Building result) }
    ensures taken { tensors.new.items ≡ slice_set tensors.old.items tensor Held.Nothing }
{
    match mem::replace(&mut tensors[tensor as usize], Held::Nothing) {
        Held::Building(builder) => builder,
        _ => unreachable!(),
    }
}

fn thawed(
    alloc: Global,
    inputs: &[Storage],
    tensors: &[Held],
    tensor: u8,
) -> Result<Builder, AllocError>
    requires { (s : Storage) × (storage_in inputs.now tensors.now tensor ≡ Some s) }
    ensures { IfOk result (λ b. (s : Storage) → storage_in inputs.now tensors.now tensor ≡ Some s → b ≡ thawed_of (frozen_of s)) }
{
    match storage_at(inputs, tensors, tensor) {
        Some(storage) => thaw(alloc, storage),
        None => unreachable!(),
    }
}
