//! What looplets are at their head.
ghost use Rattle.std.specs.Prelude.{◌≡◌};
ghost use Rattle.fin_nest.specs.Styles.{has, sequence, jumper, head, same_style};
ghost use Rattle.fin_nest.specs.Entries.{looplets};
ghost use Rattle.fin_style_step.specs.Parts.{is_sequence};

use fin_looplet::Looplet;
use fin_nest::Numbered;

pub(crate) fn is_sequence(looplet: &Looplet) -> bool
    ensures { result ≡ is_sequence looplet.now }
{
    match looplet {
        Looplet::Sequence(_) => true,
        _ => false,
    }
}

fn is_jumper(looplet: &Looplet) -> bool
    ensures { result ≡ same_style jumper (head looplet.now) }
{
    match looplet {
        Looplet::Jumper(_) => true,
        _ => false,
    }
}

/// Whether a sequence is among the looplets.
pub(crate) fn any_sequence(entries: &[Numbered]) -> bool
    ensures { result ≡ has sequence (looplets entries.now) }
{
    for entry in entries {
        if is_sequence(&entry.looplet) {
            return true;
        }
    }
    false
}

/// Whether a jumper is among them.
pub(crate) fn any_jumper(entries: &[Numbered]) -> bool
    ensures { result ≡ has jumper (looplets entries.now) }
{
    for entry in entries {
        if is_jumper(&entry.looplet) {
            return true;
        }
    }
    false
}
