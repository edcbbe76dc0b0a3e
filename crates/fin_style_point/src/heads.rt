//! What looplets are at their head.
ghost use Rattle.std.specs.Prelude.{◌≡◌};
ghost use Rattle.fin_nest.specs.Styles.{has, shift, switch, spike};
ghost use Rattle.fin_nest.specs.Entries.{looplets};
ghost use Rattle.fin_style_point.specs.Steps.{is_shift, is_switch, is_spike};

use fin_looplet::Looplet;
use fin_nest::Numbered;

fn is_shift(looplet: &Looplet) -> bool
    ensures { result ≡ is_shift looplet.now }
{
    match looplet {
        Looplet::Shift { by: _, child: _ } => true,
        _ => false,
    }
}

pub(crate) fn is_switch(looplet: &Looplet) -> bool
    ensures { result ≡ is_switch looplet.now }
{
    match looplet {
        Looplet::Switch(_) => true,
        _ => false,
    }
}

fn is_spike(looplet: &Looplet) -> bool
    ensures { result ≡ is_spike looplet.now }
{
    match looplet {
        Looplet::Spike { body: _, tail: _ } => true,
        _ => false,
    }
}

/// Whether a shift is among the looplets.
pub(crate) fn any_shift(entries: &[Numbered]) -> bool
    ensures { result ≡ has shift (looplets entries.now) }
{
    for entry in entries {
        if is_shift(&entry.looplet) {
            return true;
        }
    }
    false
}

/// Whether a switch is among them.
pub(crate) fn any_switch(entries: &[Numbered]) -> bool
    ensures { result ≡ has switch (looplets entries.now) }
{
    for entry in entries {
        if is_switch(&entry.looplet) {
            return true;
        }
    }
    false
}

/// Whether a spike is among them.
pub(crate) fn any_spike(entries: &[Numbered]) -> bool
    ensures { result ≡ has spike (looplets entries.now) }
{
    for entry in entries {
        if is_spike(&entry.looplet) {
            return true;
        }
    }
    false
}
