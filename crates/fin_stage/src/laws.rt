ghost use Rattle.fin_stage.specs.Sound.{AcceptedIsSound};

/// A program that meets the checks, over inputs that fit it, is asked at each statement for what it can do, and its run
/// by stages makes what dense evaluation makes.
pub fn accepted_is_sound()
    ensures { AcceptedIsSound }
{}
