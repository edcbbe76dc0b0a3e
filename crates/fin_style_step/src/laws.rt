//! What is proved of the steps, in both senses.
ghost use Rattle.fin_style_step.specs.Laws.{SequencesSplit, SteppersSplit, JumpersSplit};
ghost use Rattle.fin_style_step.specs.Splits.{PartsSplit};

/// A nest's region may be cut where the first phase of its first sequence stops: the sequence is that phase before it,
/// and the others behind; both parts weigh less.
pub fn sequences_split()
    ensures { SequencesSplit }
{}

/// A nest with steppers is a loop from stop to stop, up to the least of their current stops; the part weighs less.
pub fn steppers_split()
    ensures { SteppersSplit }
{}

/// A nest with jumpers is a loop up to the greatest of their current stops, which does what is to be done at the last
/// coordinate before; the part weighs less.
pub fn jumpers_split()
    ensures { JumpersSplit }
{}

/// The parts of a nest of the program whose style is sequence, stepper or jumper split it, weigh less, depend on nothing
/// that their code changes where the nest doesn't, and have its body, reads and masks.
pub fn parts_split()
    ensures { PartsSplit }
{}
