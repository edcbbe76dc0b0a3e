//! What is proved of a loop's entry.
ghost use Rattle.fin_enter.specs.Positions.{PositionsAreFound};
ghost use Rattle.fin_enter.specs.Charges.{EntriesArePaid, LengthsMean};
ghost use Rattle.fin_enter.specs.Bounds.{BoundsAreFree, BoundsMean};
ghost use Rattle.fin_enter.specs.Stores.{TensorsAreStored, TensorsHaveFormats};
ghost use Rattle.fin_enter.specs.Sites.{FootedReadsStand, StoredReadsAreFound};
ghost use Rattle.fin_enter.specs.Indices.{IndicesAreBound};
ghost use Rattle.fin_enter.specs.Together.{AllPositionsAreFound};
ghost use Rattle.fin_enter.specs.Entrances.{EntrancesAreMade};
ghost use Rattle.fin_enter.specs.Entering.{EntriesAreEntrances};
ghost use Rattle.fin_enter.specs.Lasting.{EntriesLast};
ghost use Rattle.fin_enter.specs.EntryCodes.{EntriesAreKnown, EntryCodesEnter};
ghost use Rattle.fin_enter.specs.Masked.{AllBoundsMean, MasksAreTests};
ghost use Rattle.fin_enter.specs.Naming.{EntriesAreNamed};

use fin_drive::distances_mean;
use fin_read::values_mean;

/// The steps through the levels before a driven one leave in a local the position at which the read stands, or -1 where
/// it stands nowhere, and leave the locals before as they were.
pub fn positions_are_found()
    ensures { PositionsAreFound }
{}

/// Where a read's position is in a local, the code of its stored length has the length that a loop over it is charged
/// for.
pub fn lengths_mean()
    ensures { LengthsMean }
{}

/// The codes of the charge pay what the definition of work has for the entry of the loop, and do nothing else.
pub fn entries_are_paid()
    ensures { EntriesArePaid }
{}

/// The bound of a mask asks for no tensor, and its value is the same whatever these hold.
pub fn bounds_are_free()
    ensures { BoundsAreFree }
{}

/// The code of a mask's bound has the value that the definition of work compares with.
pub fn bounds_mean()
    ensures { BoundsMean }
{
    values_mean();
}

/// Each tensor of a program has the format of its header, with as many extents as levels, none of which is too large.
pub fn tensors_have_formats()
    ensures { TensorsHaveFormats }
{}

/// A tensor that a run can read is frozen on a machine that does what the run does, with the shape and the parts that
/// the definition of work has.
pub fn tensors_are_stored()
    ensures { TensorsAreStored }
{}

/// A driven read whose position is in a local below two that its looplet owns stands as the nest of its loop asks.
pub fn footed_reads_stand()
    ensures { FootedReadsStand }
{
    distances_mean();
}

/// The codes of the indices before a driven level have the places at which they point, and the driven index's other
/// variable is one whose number is a coordinate.
pub fn indices_are_bound()
    ensures { IndicesAreBound }
{}

/// The steps of all driven reads that stand before the body is run leave each position in a local of its own, where the
/// loops around have their coordinates in locals and the tensors are frozen.
pub fn all_positions_are_found()
    ensures { AllPositionsAreFound }
{}

/// A nest over the coordinates of a loop, whose driven reads have their positions in locals, is one that is made for
/// the loop where it is entered, and so does what the loop does.
pub fn entrances_are_made()
    ensures { EntrancesAreMade }
{
    distances_mean();
}

/// A read that is found by the shape and the parts that the definition of work has is found by those of the storage.
pub fn stored_reads_are_found()
    ensures { StoredReadsAreFound }
{}

/// The masks of a loop are the tests that remain of its body and compare its variable with a bound.
pub fn masks_are_tests()
    ensures { MasksAreTests }
{}

/// The code of all bounds, one after another, leaves values that are the numbers of the bounds, and leaves the locals
/// before as they were.
pub fn all_bounds_mean()
    ensures { AllBoundsMean }
{
    bounds_mean();
}

/// Behind the steps of a loop's entry, which leave positions and bounds in locals, a nest over all coordinates of the
/// loop with the looplets of its reads and masks is an entrance of the loop.
pub fn entries_are_entrances()
    ensures { EntriesAreEntrances }
{
    bounds_mean();
}

/// What is charged for a loop beside its stored lengths is known from the reads and tests that remain of its body.
pub fn entries_are_known()
    ensures { EntriesAreKnown }
{}

/// A machine that runs the codes of a loop's entry has the positions and the bounds in locals and has paid for the entry;
/// it does what the run does, and a nest with the looplets of the loop's reads and masks is an entrance of the loop.
pub fn entry_codes_enter()
    ensures { EntryCodesEnter }
{
    bounds_mean();
}

/// Where the locals that the steps of a loop's entry left, and the tensors that the body leaves, are as they were, the
/// looplets are made for the loop still, over whatever of its coordinates.
pub fn entries_last()
    ensures { EntriesLast }
{
    bounds_mean();
    distances_mean();
}

/// Where what remains of a loop's body has good names in a scope, each local and tensor that the codes of the loop's entry
/// and the looplets of its nest name is in a layout with room for the entry.
pub fn entries_are_named()
    ensures { EntriesAreNamed }
{}
