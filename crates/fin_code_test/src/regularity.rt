//! Whether codes of tests are regular.
ghost use Rattle.std.specs.Prelude.{◌≡◌, map, true, slice_get, Some, [], IsTrue};
ghost use Rattle.std.specs.List.{list_all};
ghost use Rattle.fin_tensor.specs.Building.{Building};
ghost use Rattle.fin_code_test.specs.Asking.{asks_nothing as asks_nothing_of};
ghost use Rattle.fin_ir.specs.Machine.{can_declare as can_declare_of, can_update as can_update_at, is_made as is_made_in};
ghost use Rattle.fin_ir.specs.Meaning.{meaning};
ghost use Rattle.fin_run.specs.States.{machine};
ghost use Rattle.fin_run.specs.Ends.{IsRegular};

use fin_grid::is_in_box;
use fin_ir::{Code, Layout};
use fin_run::{Held, State, storage_at};
use fin_tensor::{Storage, has_small_dense_size, is_shape, keeps_placement};

/// The largest end of a range.
const LARGEST: u64 = 1_099_511_627_776;

/// Whether a code is regular here: one statement that can be done, where an update has no coordinates, or code that asks
/// nothing of tensors.
pub fn is_regular(layout: &Layout, inputs: &[Storage], state: &State, code: &Code) -> bool
    ensures { IsTrue result → IsRegular (meaning layout.now code.now) (machine inputs.now state.now 0) }
{
    match code {
        Code::Declare { tensor } => can_declare(layout, *tensor),
        Code::Update {
            tensor,
            at,
            by: _,
            value: _,
        } => at.len() == 0 && can_update(state, *tensor),
        Code::Freeze { tensor } => is_built(state, *tensor),
        Code::Thaw { tensor } => match storage_at(inputs, state.tensors.as_slice(), *tensor) {
            Some(_) => is_made(layout, *tensor),
            None => false,
        },
        other => asks_nothing(other),
    }
}

fn can_declare(layout: &Layout, tensor: u8) -> bool
    ensures { IsTrue result → can_declare_of layout.now tensor ≡ true }
{
    let t = tensor as usize;
    if t >= layout.formats.len() || t >= layout.shapes.len() || !is_made(layout, tensor) {
        return false;
    }
    let format = layout.formats.get(t);
    let shape = layout.shapes.get(t);
    if !keeps_placement(format) || !is_shape(format.levels.as_slice(), shape.as_slice()) {
        return false;
    }
    has_small_dense_size(format.levels.as_slice(), shape.as_slice())
}

fn is_made(layout: &Layout, tensor: u8) -> bool
    ensures { result ≡ is_made_in layout.now tensor }
{
    match layout.kinds.as_slice().get(tensor as usize) {
        Some(kind) => *kind != 0,
        None => false,
    }
}

fn is_built(state: &State, tensor: u8) -> bool
    ensures { IsTrue result → (b : Building) × (slice_get state.now.tensors.items tensor ≡ Some (Held.Building b)) }
{
    let t = tensor as usize;
    if t >= state.tensors.len() {
        return false;
    }
    match &state.tensors[t] {
        Held::Building(_) => true,
        _ => false,
    }
}

fn can_update(state: &State, tensor: u8) -> bool
    ensures { IsTrue result → (b : Building) × (slice_get state.now.tensors.items tensor ≡ Some (Held.Building b)) × (can_update_at b [] ≡ true) }
{
    let t = tensor as usize;
    if t >= state.tensors.len() {
        return false;
    }
    match &state.tensors[t] {
        Held::Building(b) => is_in_box(b.shape().as_slice(), &[]) && b.follows(&[]),
        _ => false,
    }
}

#[cycle(asking)]
fn asks_nothing(code: &Code) -> bool
    ensures { result ≡ asks_nothing_of code.now }
{
    match code {
        Code::Skip => true,
        Code::Seq(all) => all_ask_nothing(all.as_slice()),
        Code::Assign { local: _, value: _ } => true,
        Code::When { test: _, body } => asks_nothing(body.get()),
        Code::StepLoop {
            var: _,
            until: _,
            lo: _,
            hi: _,
            stop: _,
            body,
        } => asks_nothing(body.get()),
        Code::ForLoop {
            var: _,
            lo: _,
            hi: _,
            body,
        } => asks_nothing(body.get()),
        Code::ParLoop {
            from: _,
            to: _,
            lo,
            hi,
            ways: _,
            body,
        } => *lo <= *hi && *hi <= LARGEST && asks_nothing(body.get()),
        Code::Update {
            tensor: _,
            at: _,
            by: _,
            value: _,
        } => false,
        Code::Declare { tensor: _ } => false,
        Code::Freeze { tensor: _ } => false,
        Code::Thaw { tensor: _ } => false,
        Code::Charge(_) => true,
    }
}

#[cycle(asking)]
fn all_ask_nothing(all: &[Code]) -> bool
    ensures { result ≡ list_all (λ b. b) (map asks_nothing_of all.now) }
{
    for code in all {
        if !asks_nothing(code) {
            return false;
        }
    }
    true
}
