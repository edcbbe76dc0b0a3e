//! Runs a job by its loop code.
ghost use Rattle.std.specs.Prelude.{◌≡◌, ◌+◌, ◌<◌, ◌≤◌, ◌^◌, ℕ, IfOk, IfErr, IsErrOf, OnOk, Some, slice_get};
ghost use Rattle.fin_tensor.specs.declared.storage.Storage.{Storage};
ghost use Rattle.fin_ast.specs.Accepted.{FitProgram, IsAccepted};
ghost use Rattle.fin_ast.specs.Dense.{setting_of};
ghost use Rattle.fin_run.specs.Ends.{IsRegular};
ghost use Rattle.fin_run.specs.States.{machine};
ghost use Rattle.fin_run.specs.Storages.{storage_in};
ghost use Rattle.fin_lower.specs.Plans.{IsPlan};
ghost use Rattle.fin_stage.specs.Wordy.{IsWordy};
ghost use Rattle.fin_simp.specs.Work.{work_of};
ghost use Rattle.fin_ast.specs.Kinds.{is_output as is_output_kind};
ghost use Rattle.fin_engine.specs.Run.{HoldsOutputs, IsFront, IsSpent, RunsOne, StoresAll, begun, left_by};

use crate::job::Job;
use fin_ast::{Header, Kind};
use fin_base::{Fail, Refusal, Rule, Steps};
use fin_ir::{Plan, RunError};
use fin_lower::{accepted_is_lowered, lower};
use fin_run::{Held, State, run_code};
use fin_tensor::{Outputs, Seq, Storage};
use std::alloc::{AllocError, Global};
use std::marker::Brand;
use std::mem;
use std::sync::ledger::{Blank, Ledger};

/// What came of a run: the outputs, and the work.
#[derive(Debug, Drop)]
pub struct Done {
    pub outputs: Outputs,
    pub work: u64,
}

/// Runs a job by its loop code, within a budget of work.
///
/// The outputs are the canonical storages of what dense evaluation gives, and the work is that of the program, by the
/// pieces of its loops.
///
/// # Errors
///
/// `W1`, without a line, exactly where the work exceeds the budget; and want of memory.
pub fn run_job_one(alloc: Global, job: &Job, budget: u64) -> Result<Done, Fail>
    requires budget { budget ≤ 2 ^ 40 }
    requires accepted { IsAccepted job.now.checked }
    requires inputs { FitProgram job.now.checked job.now.inputs }
    ensures { RunsOne job.now.checked job.now.inputs budget result }
{
    let plan = lower(alloc, &job.checked)?;
    let state = run_plan(alloc, job, &plan, budget)?;
    let outputs = outputs_of(alloc, job, state.tensors)?;
    Ok(Done {
        outputs,
        work: state.work,
    })
}

// Runs the plan of a job, from the beginning.
fn run_plan(alloc: Global, job: &Job, plan: &Plan, budget: u64) -> Result<State, Fail>
    requires budget { budget ≤ 2 ^ 40 }
    requires accepted { IsAccepted job.now.checked }
    requires inputs { FitProgram job.now.checked job.now.inputs }
    requires plan { IsPlan job.now.checked plan.now }
    requires wordy { IsWordy (setting_of job.now.checked job.now.inputs) }
    ensures held { IfOk result (λ s. HoldsOutputs job.now.checked job.now.inputs s.tensors.items 0) }
    ensures work { IfOk result (λ s. s.work ≡ work_of job.now.checked job.now.inputs) }
    ensures within { IfOk result (λ s. work_of job.now.checked job.now.inputs ≤ budget) }
    ensures spent { IfErr result (IsSpent job.now.checked job.now.inputs budget) }
{
    accepted_is_lowered();
    let mut state = State::new(alloc, &plan.layout)?;
    match uncounted(alloc, plan, job.inputs.as_slice(), &mut state, budget) {
        Ok(()) => Ok(state),
        Err(RunError::Spent) => Err(Fail::Refused(Refusal {
            rule: Rule::W1,
            line: 0,
        })),
        Err(RunError::Memory(e)) => Err(Fail::Memory(e)),
    }
}

// Runs a plan. Nobody looks at the turns.
fn uncounted(
    alloc: Global,
    plan: &Plan,
    inputs: &[Storage],
    state: &mut State,
    budget: u64,
) -> Result<(), RunError>
    requires budget { budget ≤ 2 ^ 40 }
    requires work { state.old.work ≡ 0 }
    requires regular { IsRegular (left_by plan.now) (begun inputs.now state.old) }
    ensures leaves { let left = left_by plan.now (begun inputs.now state.old) in
        (turns : ℕ) × OnOk result (machine inputs.now state.new turns ≡ left) }
    ensures within { OnOk result ((left_by plan.now (begun inputs.now state.old)).charges ≤ budget) }
    ensures spent { let left = left_by plan.now (begun inputs.now state.old) in
        IsErrOf result RunError.Spent → budget < left.charges }
{
    counted::<Brand>(Blank::new(1), alloc, plan, inputs, state, budget)
}

// The same, with the ledger of the turns.
fn counted<L: Ledger>(
    blank: Blank,
    alloc: Global,
    plan: &Plan,
    inputs: &[Storage],
    state: &mut State,
    budget: u64,
) -> Result<(), RunError>
    requires name { blank.name ≡ L.name }
    requires parts { blank.parts ≡ L.parts }
    requires some { 0 < blank.parts }
    requires budget { budget ≤ 2 ^ 40 }
    requires work { state.old.work ≡ 0 }
    requires regular { IsRegular (left_by plan.now) (begun inputs.now state.old) }
    ensures leaves { let left = left_by plan.now (begun inputs.now state.old) in
        (turns : ℕ) × OnOk result (machine inputs.now state.new turns ≡ left) }
    ensures within { OnOk result ((left_by plan.now (begun inputs.now state.old)).charges ≤ budget) }
    ensures spent { let left = left_by plan.now (begun inputs.now state.old) in
        IsErrOf result RunError.Spent → budget < left.charges }
{
    let mut steps = Steps::<L>::new(blank);
    run_code(
        alloc,
        &plan.code,
        &plan.layout,
        inputs,
        state,
        budget,
        &mut steps,
    )
}

// The storages of the outputs, in the order of headers.
fn outputs_of(alloc: Global, job: &Job, tensors: Vec<Held>) -> Result<Outputs, AllocError>
    requires held { HoldsOutputs job.now.checked job.now.inputs tensors.items 0 }
    ensures stored { IfOk result (StoresAll job.now.checked job.now.inputs) }
{
    let mut tensors = tensors;
    let mut outputs = Seq::new(alloc);
    for k in 0..job.checked.program.headers.len() {
        let header = job.checked.program.headers.get(k);
        add_output(alloc, job, k as u8, header, &mut tensors, &mut outputs)?;
    }
    Ok(Outputs { tensors: outputs })
}

// Puts the storage of an output last. Other tensors have none.
fn add_output(
    alloc: Global,
    job: &Job,
    tensor: u8,
    header: &Header,
    tensors: &mut Vec<Held>,
    into: &mut Seq<(u8, Storage)>,
) -> Result<(), AllocError>
    requires header { slice_get job.now.checked.program.headers tensor ≡ Some header.now }
    requires held { HoldsOutputs job.now.checked job.now.inputs tensors.old.items tensor }
    requires front { IsFront job.now.checked job.now.inputs tensor into.old }
    ensures held { OnOk result (HoldsOutputs job.now.checked job.now.inputs tensors.new.items (tensor + 1)) }
    ensures front { OnOk result (IsFront job.now.checked job.now.inputs (tensor + 1) into.new) }
{
    if !is_output(header.kind) {
        return Ok(());
    }
    let storage = take(alloc, job.inputs.as_slice(), tensors, tensor)?;
    into.push((tensor, storage))?;
    Ok(())
}

fn is_output(kind: Kind) -> bool
    ensures { result ≡ is_output_kind kind }
{
    matches!(kind, Kind::Output)
}

// Takes the storage that a tensor is; one that is lent is copied.
fn take(
    alloc: Global,
    inputs: &[Storage],
    tensors: &mut Vec<Held>,
    tensor: u8,
) -> Result<Storage, AllocError>
    requires { (s : Storage) × (storage_in inputs.now tensors.old.items tensor ≡ Some s) }
    ensures storage { IfOk result (λ s. storage_in inputs.now tensors.old.items tensor ≡ Some s) }
    ensures others { (t : ℕ) → tensor < t → slice_get tensors.new.items t ≡ slice_get tensors.old.items t }
{
    match mem::replace(&mut tensors[tensor as usize], Held::Nothing) {
        Held::Frozen(storage) => Ok(storage),
        Held::Lent(k) => inputs[k as usize].copy(alloc),
        _ => unreachable!(),
    }
}
