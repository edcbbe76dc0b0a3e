//! Which step a nest takes, if any.
ghost use Rattle.std.specs.Prelude.{◌≡◌, nat_eq};
ghost use Rattle.std.specs.Bool.{Decides};
ghost use Rattle.std.specs.List.{list_all, list_any};
ghost use Rattle.fin_looplet.specs.Weight.{is_run, is_point, RunsAtPoint};
ghost use Rattle.fin_nest.specs.Entries.{looplets};
ghost use Rattle.fin_nest.specs.Styles.{style_of, is_point_style};
ghost use Rattle.fin_style_point.specs.Parts.{all_looplets};
ghost use Rattle.fin_descend.specs.Parts.{weight_in};
ghost use Rattle.fin_descend.specs.Heads.{is_early, is_walked};

use fin_looplet::{Looplet, is_point};
use fin_nest::Numbered;
use fin_style_point::Nest;

/// Whether a nest weighs nothing: no step is left to be taken.
pub fn weighs_nothing(nest: &Nest) -> bool
    ensures weightless { result ≡ nat_eq (weight_in nest.now) 0 }
    ensures exactly { Decides result (RunsAtPoint (all_looplets nest.now) nest.now.lo nest.now.hi) }
{
    is_point(&nest.lo, &nest.hi) && has_runs(nest)
}

fn has_runs(nest: &Nest) -> bool
    ensures { result ≡ list_all is_run (all_looplets nest.now) }
{
    are_runs(nest.reads.as_slice()) && are_runs(nest.masks.as_slice())
}

fn are_runs(entries: &[Numbered]) -> bool
    ensures { result ≡ list_all is_run (looplets entries.now) }
{
    for entry in entries {
        if !entry.looplet.is_run() {
            return false;
        }
    }
    true
}

/// Whether its style is stepped point by point.
pub(crate) fn is_at_points(nest: &Nest) -> bool
    ensures { result ≡ is_point_style (style_of (all_looplets nest.now)) }
{
    has_early(nest) || !has_walked(nest)
}

fn has_early(nest: &Nest) -> bool
    ensures { result ≡ list_any is_early (all_looplets nest.now) }
{
    any_early(nest.reads.as_slice()) || any_early(nest.masks.as_slice())
}

fn has_walked(nest: &Nest) -> bool
    ensures { result ≡ list_any is_walked (all_looplets nest.now) }
{
    any_walked(nest.reads.as_slice()) || any_walked(nest.masks.as_slice())
}

fn any_early(entries: &[Numbered]) -> bool
    ensures { result ≡ list_any is_early (looplets entries.now) }
{
    for entry in entries {
        if is_early(&entry.looplet) {
            return true;
        }
    }
    false
}

fn any_walked(entries: &[Numbered]) -> bool
    ensures { result ≡ list_any is_walked (looplets entries.now) }
{
    for entry in entries {
        if is_walked(&entry.looplet) {
            return true;
        }
    }
    false
}

fn is_early(looplet: &Looplet) -> bool
    ensures { result ≡ is_early looplet.now }
{
    match looplet {
        Looplet::Shift { by: _, child: _ } => true,
        Looplet::Switch(_) => true,
        _ => false,
    }
}

fn is_walked(looplet: &Looplet) -> bool
    ensures { result ≡ is_walked looplet.now }
{
    match looplet {
        Looplet::Sequence(_) => true,
        Looplet::Stepper(_) => true,
        Looplet::Jumper(_) => true,
        _ => false,
    }
}
