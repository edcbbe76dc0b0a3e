//! What the code of a program does.
ghost use Rattle.fin_lower.specs.Lowered.{AcceptedIsLowered};

use fin_perform::{begun_machines_stand, programs_stand};
use fin_stage::accepted_is_sound;
use fin_work::pieced_is_sound;

/// The run of a plan of a program that meets the checks, over inputs that fit it, is regular. Where it isn't cut, its
/// charges are the work of the program, and it leaves each output as the canonical storage of what dense evaluation
/// gives; where it is cut, its charges are over every budget and at most that work.
pub fn accepted_is_lowered()
    ensures { AcceptedIsLowered }
{
    begun_machines_stand();
    programs_stand();
    accepted_is_sound();
    pieced_is_sound();
}
