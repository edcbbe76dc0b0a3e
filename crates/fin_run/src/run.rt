//! The run of code.
ghost use Rattle.std.specs.Prelude.{◌≡◌, ◌≤◌, ◌^◌, true};
ghost use Rattle.fin_ir.specs.Declares.{declares};
ghost use Rattle.fin_ir.specs.Value.{value_in};
ghost use Rattle.fin_ir.specs.Meaning.{meaning, meaning_all, step_loop, for_loop, par_loop};
ghost use Rattle.fin_run.specs.States.{machine};
ghost use Rattle.fin_run.specs.Ends.{Ends, IsRegular, evaluated};

use crate::chunks::{close, cut, is_left, open, pass};
use crate::places::{begin_each, begin_step, end_each, end_step, enter, is_on};
use crate::state::State;
use crate::statements::{charge, declare, freeze_at, is_off, set_value, thaw_at, update};
use fin_base::Steps;
use fin_ir::{Code, IExpr, Layout, RunError};
use fin_tensor::Storage;
use std::alloc::Global;
use std::sync::ledger::Ledger;

/// Runs code whose run is regular, from a state whose work is within the budget.
#[cycle(run)]
pub fn run<L: Ledger>(
    alloc: Global,
    code: &Code,
    layout: &Layout,
    inputs: &[Storage],
    state: &mut State,
    budget: u64,
    steps: &mut Steps<L>,
) -> Result<(), RunError>
    requires budget { budget ≤ 2 ^ 40 }
    requires work { state.old.work ≤ budget }
    requires regular { IsRegular (meaning layout.now code.now) (machine inputs.now state.old steps.old) }
    ensures { Ends budget (meaning layout.now code.now (machine inputs.now state.old steps.old)) (machine inputs.now state.new steps.new) result }
{
    match code {
        Code::Skip => Ok(()),
        Code::Seq(all) => run_all(alloc, all.as_slice(), layout, inputs, state, budget, steps),
        Code::Assign { local, value } => {
            set_value(inputs, state, *local, value);
            Ok(())
        }
        Code::When { test, body } => {
            if is_off(inputs, state, test) {
                return Ok(());
            }
            run(alloc, body.get(), layout, inputs, state, budget, steps)
        }
        Code::StepLoop {
            var,
            until,
            lo,
            hi,
            stop,
            body,
        } => run_steps(
            alloc,
            body.get(),
            *var,
            *until,
            lo,
            hi,
            stop,
            layout,
            inputs,
            state,
            budget,
            steps,
        ),
        Code::ForLoop { var, lo, hi, body } => run_each(
            alloc,
            body.get(),
            *var,
            lo,
            hi,
            layout,
            inputs,
            state,
            budget,
            steps,
        ),
        Code::ParLoop {
            from,
            to,
            lo,
            hi,
            ways: _,
            body,
        } => run_chunks(
            alloc,
            body.get(),
            *from,
            *to,
            *lo,
            *hi,
            layout,
            inputs,
            state,
            budget,
            steps,
        ),
        Code::Update {
            tensor,
            at,
            by,
            value,
        } => update(alloc, inputs, state, *tensor, at.as_slice(), *by, value),
        Code::Declare { tensor } => declare(alloc, layout, state, *tensor),
        Code::Freeze { tensor } => freeze_at(alloc, state, *tensor),
        Code::Thaw { tensor } => thaw_at(alloc, inputs, state, *tensor),
        Code::Charge(value) => charge(inputs, state, value, budget),
    }
}

// Several codes, one after another.
#[cycle(run)]
fn run_all<L: Ledger>(
    alloc: Global,
    all: &[Code],
    layout: &Layout,
    inputs: &[Storage],
    state: &mut State,
    budget: u64,
    steps: &mut Steps<L>,
) -> Result<(), RunError>
    requires budget { budget ≤ 2 ^ 40 }
    requires work { state.old.work ≤ budget }
    requires regular { IsRegular (meaning_all layout.now all.now) (machine inputs.now state.old steps.old) }
    ensures { Ends budget (meaning_all layout.now all.now (machine inputs.now state.old steps.old)) (machine inputs.now state.new steps.new) result }
{
    for code in all {
        run(alloc, code, layout, inputs, state, budget, steps)?;
    }
    Ok(())
}

// The turns of a loop by steps.
#[cycle(run)]
fn run_steps<L: Ledger>(
    alloc: Global,
    body: &Code,
    var: u32,
    until: u32,
    lo: &IExpr,
    hi: &IExpr,
    stop: &IExpr,
    layout: &Layout,
    inputs: &[Storage],
    state: &mut State,
    budget: u64,
    steps: &mut Steps<L>,
) -> Result<(), RunError>
    requires budget { budget ≤ 2 ^ 40 }
    requires work { state.old.work ≤ budget }
    requires regular { IsRegular (step_loop var until (λ m. value_in m stop.now) (meaning layout.now body.now) (evaluated inputs.now state.old lo.now) (evaluated inputs.now state.old hi.now)) (machine inputs.now state.old steps.old) }
    ensures { Ends budget (step_loop var until (λ m. value_in m stop.now) (meaning layout.now body.now) (evaluated inputs.now state.old lo.now) (evaluated inputs.now state.old hi.now) (machine inputs.now state.old steps.old)) (machine inputs.now state.new steps.new) result }
{
    let mut place = enter(inputs, state, lo, hi);
    while is_on(&place) {
        begin_step(&mut place, inputs, state, var, until, stop);
        run(alloc, body, layout, inputs, state, budget, steps)?;
        end_step(&mut place, steps);
    }
    Ok(())
}

// The turns of a loop over each number.
#[cycle(run)]
fn run_each<L: Ledger>(
    alloc: Global,
    body: &Code,
    var: u32,
    lo: &IExpr,
    hi: &IExpr,
    layout: &Layout,
    inputs: &[Storage],
    state: &mut State,
    budget: u64,
    steps: &mut Steps<L>,
) -> Result<(), RunError>
    requires budget { budget ≤ 2 ^ 40 }
    requires work { state.old.work ≤ budget }
    requires regular { IsRegular (for_loop var (meaning layout.now body.now) (evaluated inputs.now state.old lo.now) (evaluated inputs.now state.old hi.now)) (machine inputs.now state.old steps.old) }
    ensures { Ends budget (for_loop var (meaning layout.now body.now) (evaluated inputs.now state.old lo.now) (evaluated inputs.now state.old hi.now) (machine inputs.now state.old steps.old)) (machine inputs.now state.new steps.new) result }
{
    let mut place = enter(inputs, state, lo, hi);
    while is_on(&place) {
        begin_each(&mut place, state, var);
        run(alloc, body, layout, inputs, state, budget, steps)?;
        end_each(&mut place, steps);
    }
    Ok(())
}

// The chunks of a parallel loop.
#[cycle(run)]
fn run_chunks<L: Ledger>(
    alloc: Global,
    body: &Code,
    from: u32,
    to: u32,
    lo: u64,
    hi: u64,
    layout: &Layout,
    inputs: &[Storage],
    state: &mut State,
    budget: u64,
    steps: &mut Steps<L>,
) -> Result<(), RunError>
    requires budget { budget ≤ 2 ^ 40 }
    requires work { state.old.work ≤ budget }
    requires regular { IsRegular (par_loop (declares body.now) (meaning layout.now body.now) from to lo hi) (machine inputs.now state.old steps.old) }
    ensures { Ends budget (par_loop (declares body.now) (meaning layout.now body.now) from to lo hi (machine inputs.now state.old steps.old)) (machine inputs.now state.new steps.new) result }
{
    let entry = state.locals.copy(alloc)?;
    let mut chunks = cut(lo, hi);
    while is_left(&chunks) {
        open(alloc, body, from, to, &entry, &chunks, state)?;
        run(alloc, body, layout, inputs, state, budget, steps)?;
        pass(&mut chunks);
    }
    close(body, entry, state);
    Ok(())
}
