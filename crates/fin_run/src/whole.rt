//! Whole runs.
ghost use Rattle.std.specs.Prelude.{◌≡◌, ◌<◌, ◌≤◌, ◌^◌, OnOk};
ghost use Rattle.std.specs.Result.{IsErrOf};
ghost use Rattle.fin_ir.specs.Meaning.{meaning};
ghost use Rattle.fin_run.specs.States.{machine};
ghost use Rattle.fin_run.specs.Ends.{IsRegular};

use crate::run::run;
use crate::state::State;
use fin_base::Steps;
use fin_ir::{Code, Layout, RunError};
use fin_tensor::Storage;
use std::alloc::Global;
use std::sync::ledger::Ledger;

/// Runs code over the input storages and a state, within a budget of 1 to 2^40. Parallel loops run chunk by chunk.
///
/// Ok leaves exactly the machine that the meaning of the code leaves: its locals and tensors, its charges as the state's
/// work, and its turns in the count of steps.
///
/// # Errors
///
/// `Spent` exactly where the charges of the whole code exceed the budget, as they do where a freeze makes a storage that
/// is too large; `Memory` for want of memory. Then at most the turns of the whole code were counted, and the state is
/// only dropped.
pub fn run_code<L: Ledger>(
    alloc: Global,
    code: &Code,
    layout: &Layout,
    inputs: &[Storage],
    state: &mut State,
    budget: u64,
    steps: &mut Steps<L>,
) -> Result<(), RunError>
    requires budget { budget ≤ 2 ^ 40 }
    requires work { state.old.work ≡ 0 }
    requires regular { IsRegular (meaning layout.now code.now) (machine inputs.now state.old steps.old) }
    ensures leaves { OnOk result (machine inputs.now state.new steps.new ≡ meaning layout.now code.now (machine inputs.now state.old steps.old)) }
    ensures within { OnOk result ((meaning layout.now code.now (machine inputs.now state.old steps.old)).charges ≤ budget) }
    ensures spent { IsErrOf result RunError.Spent → budget < (meaning layout.now code.now (machine inputs.now state.old steps.old)).charges }
    ensures turns { steps.new ≤ (meaning layout.now code.now (machine inputs.now state.old steps.old)).turns }
{
    run(alloc, code, layout, inputs, state, budget, steps)
}
