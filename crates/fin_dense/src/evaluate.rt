//! Whole programs.
ghost use Rattle.std.specs.Prelude.{◌≡◌, ◌<◌, ◌≤◌, ◌^◌, IfOk, IsErrOf, map, pos};
ghost use Rattle.fin_dense.specs.Plain.{IsOver, IsPlain, Plains};
ghost use Rattle.fin_dense.specs.Runs.{state_of, whole_in};

use crate::halt::Halt;
use crate::lookups::setting;
use crate::made::nothing_made;
use crate::outputs::outputs;
use crate::run::{Run, each};
use crate::setting::Setting;
use fin_ast::Checked;
use fin_base::Fail;
use fin_tensor::{Outputs, Storage};
use std::alloc::{AllocError, Global};

/// The outputs of a program that meets the checks, over the storages of its inputs in the order of headers.
///
/// # Errors
/// `B2` without a line, exactly where dense evaluation makes more than 2^24 loop turns or an output isn't valid by its
/// size; and want of memory.
pub fn plain(alloc: Global, checked: &Checked, inputs: &[Storage]) -> Result<Outputs, Fail>
    ensures plains { Plains checked.now inputs.now result }
{
    let outputs = evaluate(alloc, checked, inputs)?;
    Ok(outputs)
}

fn evaluate(alloc: Global, checked: &Checked, inputs: &[Storage]) -> Result<Outputs, Halt>
    ensures plain { IfOk result (λ o. IsPlain checked.now inputs.now o) }
    ensures over { IsErrOf result Halt.Spent → IsOver checked.now inputs.now }
{
    let setting = setting(alloc, checked, inputs)?;
    let run = run_whole(alloc, &setting)?;
    let outputs = outputs(alloc, &setting, run.made.as_slice())?;
    Ok(outputs)
}

fn run_whole(alloc: Global, setting: &Setting<'_>) -> Result<Run, Halt>
    ensures ok { IfOk result (λ run. state_of run ≡ whole_in setting.now) }
    ensures few { IfOk result (λ run. run.turns ≤ 2 ^ 24) }
    ensures spent { IsErrOf result Halt.Spent → 2 ^ 24 < (whole_in setting.now).turns }
{
    let made = nothing_made(alloc, setting.checked.program.headers.as_slice())?;
    let vars = unbound(alloc, setting.checked.dims.ranges.as_slice())?;
    let mut run = Run {
        made,
        vars,
        turns: 0,
    };
    each(
        alloc,
        setting,
        &mut run,
        setting.checked.program.body.as_slice(),
    )?;
    Ok(run)
}

// No variable is bound.
fn unbound(alloc: Global, ranges: &[(u64, u64)]) -> Result<Vec<i64>, AllocError>
    ensures { IfOk result (λ vars. vars.items ≡ map (λ r. pos 0) ranges.now) }
{
    let mut vars = Vec::new(alloc);
    for _range in ranges {
        vars.push(0)?;
    }
    Ok(vars)
}
