//! What is proved of nests, in both senses.
ghost use Rattle.fin_nest.specs.Both.{SensesAreLawful, ChargesAreWork, TurnsAreFree, RegionsFallApart, FoldsAreLoops};
ghost use Rattle.fin_nest.specs.Both.{CutMachinesStand, CutStatementsStand, NothingIsPassedOver, StatementsCompose, StatementsLift, SkippedUpdatesStand, BodiesMean};

/// A machine that stands for a state still does after an assignment; a turn that it counts is paid by a stop; and a
/// stop may pay for nothing.
pub fn senses_are_lawful()
    ensures { SensesAreLawful }
{}

/// A charge of 1 is a step of the run's work; in turns it is kept for the turn that is counted behind it.
pub fn charges_are_work()
    ensures { ChargesAreWork }
{}

/// In values and charges, code that means a nest means it with a counted turn behind it.
pub fn turns_are_free()
    ensures { TurnsAreFree }
{}

/// Where a part of a looplet begins, a region may be cut: its fold is the fold of what is behind, after that of
/// what is before and what a stop between them brings in.
pub fn regions_fall_apart()
    ensures { RegionsFallApart }
{}

/// Where at each coordinate a nest's body is a turn of a loop, with its work, the nest's fold is that loop of the
/// run by stages.
pub fn folds_are_loops()
    ensures { FoldsAreLoops }
{}

/// A machine that was cut stands for the whole fold of a nest, where it stood for the state and the body goes on.
pub fn cut_machines_stand()
    ensures { CutMachinesStand }
{}

/// A machine that was cut stands for what is made of its state by whatever takes back no work, no tally and nothing
/// that the run was asked for.
pub fn cut_statements_stand()
    ensures { CutStatementsStand }
{}

/// A nest whose looplets hold no jumper has the condition on jumpers: none passes over a coordinate.
pub fn nothing_is_passed_over()
    ensures { NothingIsPassedOver }
{}

/// Codes that perform statements perform them one after another, and under a condition; code that means a nest
/// performs the loop that is its fold.
pub fn statements_compose()
    ensures { StatementsCompose }
{}

/// Codes that perform a statement for machines that do what a run does perform it in both senses: where the
/// statement does the same to a run that trails, and in turns where they count none.
pub fn statements_lift()
    ensures { StatementsLift }
{}

/// A machine that leaves out an update that changes nothing stands for the run that does it.
pub fn skipped_updates_stand()
    ensures { SkippedUpdatesStand }
{}

/// A charge, the coordinate in its variable's local, and codes that perform the body's statements mean the nest of
/// one coordinate: in values and charges, and in turns with the turn that is counted behind it.
pub fn bodies_mean()
    ensures { BodiesMean }
{}
