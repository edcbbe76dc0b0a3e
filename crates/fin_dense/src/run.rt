//! Statements, run one after another.
ghost use Rattle.std.specs.Prelude.{◌≡◌, ◌≤◌, ◌^◌, IsErrOf, OnOk, pos, slice_set};
ghost use Rattle.fin_ast.specs.Dense.{braced, looped, range_of, run_all, run_of};
ghost use Rattle.fin_dense.specs.Runs.{HasDone, TakesLong, setting_in};

use crate::halt::Halt;
use crate::lookups::range_of;
use crate::made::{Change, declare, flags, forget, update};
use crate::reads::value;
use crate::setting::Setting;
use fin_ast::Stmt;
use fin_grid::Grid;
use std::alloc::Global;

/// The most loop turns.
const MOST_TURNS: u64 = 16_777_216;

/// What a run has made so far, by header, the numbers that are bound, by variable, and the loop turns.
#[derive(Drop)]
pub struct Run {
    pub made: Vec<Option<Grid>>,
    pub vars: Vec<i64>,
    pub turns: u64,
}

/// Statements, one after another.
#[cycle(run)]
pub fn each(alloc: Global, setting: &Setting<'_>, run: &mut Run, body: &[Stmt]) -> Result<(), Halt>
    requires few { run.old.turns ≤ 2 ^ 24 }
    ensures ok { OnOk result (HasDone (run_all (setting_in setting.now) body.now) run.old run.new) }
    ensures vars { OnOk result (run.new.vars.items ≡ run.old.vars.items) }
    ensures within { OnOk result (run.new.turns ≤ 2 ^ 24) }
    ensures spent { IsErrOf result Halt.Spent → TakesLong (run_all (setting_in setting.now) body.now) run.old }
{
    for statement in body {
        one(alloc, setting, run, statement)?;
    }
    Ok(())
}

// One statement.
#[cycle(run)]
fn one(alloc: Global, setting: &Setting<'_>, run: &mut Run, statement: &Stmt) -> Result<(), Halt>
    requires few { run.old.turns ≤ 2 ^ 24 }
    ensures ok { OnOk result (HasDone (run_of (setting_in setting.now) statement.now) run.old run.new) }
    ensures vars { OnOk result (run.new.vars.items ≡ run.old.vars.items) }
    ensures within { OnOk result (run.new.turns ≤ 2 ^ 24) }
    ensures spent { IsErrOf result Halt.Spent → TakesLong (run_of (setting_in setting.now) statement.now) run.old }
{
    match statement {
        Stmt::Block {
            body,
            line: _,
            last: _,
        } => braced(alloc, setting, run, body.as_slice()),
        Stmt::Loop {
            var,
            range: _,
            par: _,
            body,
            line: _,
            last: _,
        } => looped(alloc, setting, run, *var, body.as_slice()),
        Stmt::Cond {
            test,
            body,
            line: _,
            last: _,
        } => {
            let test = value(alloc, setting, run, test)?;
            if test == 0 {
                return Ok(());
            }
            braced(alloc, setting, run, body.as_slice())
        }
        Stmt::Bind {
            var,
            value: bound,
            body,
            line: _,
            last: _,
        } => {
            let number = value(alloc, setting, run, bound)?;
            bind(alloc, setting, run, *var, number, body.as_slice())
        }
        Stmt::Declare {
            tensor,
            value: _,
            line: _,
        } => Ok(declare(alloc, setting, &mut run.made, *tensor)?),
        Stmt::Freeze { tensor: _, line: _ } | Stmt::Thaw { tensor: _, line: _ } => Ok(()),
        Stmt::Update {
            tensor,
            at,
            by,
            value: given,
            line: _,
        } => {
            let value = value(alloc, setting, run, given)?;
            let change = Change {
                tensor: *tensor,
                at: at.as_slice(),
                by: *by,
                value,
            };
            Ok(update(alloc, &mut run.made, run.vars.as_slice(), &change)?)
        }
    }
}

// A loop, turn by turn.
#[cycle(run)]
fn looped(
    alloc: Global,
    setting: &Setting<'_>,
    run: &mut Run,
    var: u32,
    body: &[Stmt],
) -> Result<(), Halt>
    requires few { run.old.turns ≤ 2 ^ 24 }
    ensures ok { let turn = braced (run_all (setting_in setting.now) body.now) in
        OnOk result (HasDone (looped (range_of (setting_in setting.now) var) var turn) run.old run.new) }
    ensures vars { OnOk result (run.new.vars.items ≡ run.old.vars.items) }
    ensures within { OnOk result (run.new.turns ≤ 2 ^ 24) }
    ensures spent { let turn = braced (run_all (setting_in setting.now) body.now) in
        IsErrOf result Halt.Spent → TakesLong (looped (range_of (setting_in setting.now) var) var turn) run.old }
{
    let (lo, hi) = range_of(setting, var);
    for i in lo..hi {
        if run.turns == MOST_TURNS {
            return Err(Halt::Spent);
        }
        run.turns += 1;
        bind(alloc, setting, run, var, i as i64, body)?;
    }
    Ok(())
}

// The body with a number bound, which is put back behind it.
#[cycle(run)]
fn bind(
    alloc: Global,
    setting: &Setting<'_>,
    run: &mut Run,
    var: u32,
    number: i64,
    body: &[Stmt],
) -> Result<(), Halt>
    requires few { run.old.turns ≤ 2 ^ 24 }
    ensures ok { let turn = braced (run_all (setting_in setting.now) body.now) in
        OnOk result (HasDone (λ vars. turn (slice_set vars var number)) run.old run.new) }
    ensures vars { OnOk result (run.new.vars.items ≡ run.old.vars.items) }
    ensures within { OnOk result (run.new.turns ≤ 2 ^ 24) }
    ensures spent { let turn = braced (run_all (setting_in setting.now) body.now) in
        IsErrOf result Halt.Spent → TakesLong (λ vars. turn (slice_set vars var number)) run.old }
{
    let var = var as usize;
    if var >= run.vars.len() {
        return braced(alloc, setting, run, body);
    }
    let before = run.vars[var];
    run.vars[var] = number;
    braced(alloc, setting, run, body)?;
    run.vars[var] = before;
    Ok(())
}

// A body in braces: what it declares first is gone at its end.
#[cycle(run)]
fn braced(alloc: Global, setting: &Setting<'_>, run: &mut Run, body: &[Stmt]) -> Result<(), Halt>
    requires few { run.old.turns ≤ 2 ^ 24 }
    ensures ok { OnOk result (HasDone (braced (run_all (setting_in setting.now) body.now)) run.old run.new) }
    ensures vars { OnOk result (run.new.vars.items ≡ run.old.vars.items) }
    ensures within { OnOk result (run.new.turns ≤ 2 ^ 24) }
    ensures spent { IsErrOf result Halt.Spent → TakesLong (braced (run_all (setting_in setting.now) body.now)) run.old }
{
    let before = flags(alloc, run.made.as_slice())?;
    each(alloc, setting, run, body)?;
    forget(&mut run.made, before.as_slice());
    Ok(())
}
