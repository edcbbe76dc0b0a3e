//! Where loops stand.
ghost use Rattle.std.specs.Prelude.{◌≡◌, ℕ, ◌+◌, ◌<ℤ◌, ◌+ℤ◌, pos, true, int_lt};
ghost use Rattle.fin_ir.specs.Machine.{assign, count_turn};
ghost use Rattle.fin_ir.specs.Value.{value_in};
ghost use Rattle.fin_ir.specs.Meaning.{next_of, clamped, count_before};
ghost use Rattle.std.specs.Prelude.{List};
ghost use Rattle.fin_tensor.specs.declared.storage.Storage.{Storage};
ghost use Rattle.fin_run.specs.declared.state.State.{State};
ghost use Rattle.fin_run.specs.States.{machine};
ghost use Rattle.fin_run.specs.Ends.{Did, evaluated};

use crate::state::State;
use crate::statements::set_local;
use crate::value::evaluate;
use fin_base::Steps;
use fin_ir::IExpr;
use fin_tensor::Storage;
use std::sync::ledger::Ledger;

/// Where a loop stands: the turn begins at `at`, the next one at `next`.
#[derive(Drop)]
pub struct Place {
    pub at: i64,
    pub next: i64,
    pub end: i64,
}

/// The loop's entry: its ends are taken once.
pub fn enter(inputs: &[Storage], state: &State, lo: &IExpr, hi: &IExpr) -> Place
    ensures at { result.at ≡ evaluated inputs.now state.now lo.now }
    ensures end { result.end ≡ evaluated inputs.now state.now hi.now }
{
    let at = evaluate(inputs, state, lo);
    let end = evaluate(inputs, state, hi);
    Place { at, next: at, end }
}

/// Whether a turn is left.
pub fn is_on(place: &Place) -> bool
    ensures { result ≡ int_lt place.now.at place.now.end }
{
    place.at < place.end
}

/// A turn of a loop by steps begins: `var` is where it stands and `until` where it ends.
pub fn begin_step(
    place: &mut Place,
    inputs: &[Storage],
    state: &mut State,
    var: u32,
    until: u32,
    stop: &IExpr,
)
    requires { int_lt place.old.at place.old.end ≡ true }
    ensures at { place.new.at ≡ place.old.at }
    ensures end { place.new.end ≡ place.old.end }
    ensures next { (turns : ℕ) → place.new.next ≡ next_of var (λ m. value_in m stop.now) place.old.end place.old.at (machine inputs.now state.old turns) }
    ensures did { Did (λ m. assign until place.new.next (assign var place.old.at m)) inputs.now state.old state.new }
    ensures work { state.new.work ≡ state.old.work }
{
    set_local(&mut state.locals, var, place.at);
    let stop = evaluate(inputs, state, stop);
    place.next = clamp(stop, place.at, place.end);
    set_local(&mut state.locals, until, place.next);
}

/// The turn ends. It counts where it ends before the loop does.
pub fn end_step<L: Ledger>(place: &mut Place, steps: &mut Steps<L>)
    ensures at { place.new.at ≡ place.old.next }
    ensures end { place.new.end ≡ place.old.end }
    ensures count { (inputs : List Storage) (s : State) → machine inputs s steps.new ≡ count_before place.old.next place.old.end (machine inputs s steps.old) }
{
    if place.next < place.end {
        steps.tick();
    }
    place.at = place.next;
}

/// A turn of a loop over each number begins.
pub fn begin_each(place: &mut Place, state: &mut State, var: u32)
    requires { int_lt place.old.at place.old.end ≡ true }
    ensures at { place.new.at ≡ place.old.at }
    ensures end { place.new.end ≡ place.old.end }
    ensures next { place.new.next ≡ place.old.at +ℤ pos 1 }
    ensures did { (inputs : List Storage) → Did (assign var place.old.at) inputs state.old state.new }
    ensures work { state.new.work ≡ state.old.work }
{
    set_local(&mut state.locals, var, place.at);
    place.next = place.at + 1;
}

/// The turn ends, and counts.
pub fn end_each<L: Ledger>(place: &mut Place, steps: &mut Steps<L>)
    ensures at { place.new.at ≡ place.old.next }
    ensures end { place.new.end ≡ place.old.end }
    ensures count { (inputs : List Storage) (s : State) → machine inputs s steps.new ≡ count_turn (machine inputs s steps.old) }
{
    steps.tick();
    place.at = place.next;
}

// A stop, brought into at+1..end.
fn clamp(stop: i64, at: i64, end: i64) -> i64
    requires { at <ℤ end }
    ensures { result ≡ clamped stop at end }
{
    (at + 1).max(stop.min(end))
}
