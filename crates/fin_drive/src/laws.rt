//! What is proved of the nest of a loop.
ghost use Rattle.fin_drive.specs.Watches.{ChunksAreNests, LoopsAreNests, LoopsFallApart};
ghost use Rattle.fin_drive.specs.Standing.{DistancesMean, ReadsShow, MasksShow};
ghost use Rattle.fin_drive.specs.Stopping.{StopsAdd};
ghost use Rattle.fin_drive.specs.Loops.{LoopletsShow};
ghost use Rattle.fin_drive.specs.Entries.{MadeNestsAreLoops, MadeNestsRun};
ghost use Rattle.fin_drive.specs.Separation.{MadeKeepApart};
ghost use Rattle.fin_drive.specs.Bodies.{BodiesGoOn, BodiesAtPoints, BodiesAreFlagless, BodiesAreNothing, BodiesJump, StatementsGoOn, StatementsUpdateOnce};

use fin_simp::masks_compare;

/// A nest whose looplets show what the definition of work knows of a loop's driven reads and masks folds to what the
/// loop does, over coordinates inside of which no chunk begins.
pub fn chunks_are_nests()
    ensures { ChunksAreNests }
{}

/// Over all coordinates of a loop that isn't parallel such a nest folds to the loop's run by pieces, without its entry.
pub fn loops_are_nests()
    ensures { LoopsAreNests }
{}

/// Where a chunk begins, a loop does what is behind after what is before.
pub fn loops_fall_apart()
    ensures { LoopsFallApart }
{}

/// A machine that was cut stands for what the body makes of its state, where the statements go on.
pub fn bodies_go_on()
    ensures { BodiesGoOn }
{}

/// Where a part begins, the body does and costs the same whether its reads vary or not.
pub fn bodies_at_points()
    ensures { BodiesAtPoints }
{}

/// Where the body is nowhere a single update that is the same along a piece, it does the same whether a part begins.
pub fn bodies_are_flagless()
    ensures { BodiesAreFlagless }
{}

/// Where nothing is left of the body by what is seen, it is nothing.
pub fn bodies_are_nothing()
    ensures { BodiesAreNothing }
{}

/// And where nothing is left at the coordinates that jumpers may pass over, the nest has the condition on jumpers.
pub fn bodies_jump()
    ensures { BodiesJump }
{}

/// The statements of a program, as the definition of work runs them, take back no work and nothing that the run was
/// asked for.
pub fn statements_go_on()
    ensures { StatementsGoOn }
{}

/// Where a single update is left of the statements of a program they are that update, whose own work is 1.
pub fn statements_update_once()
    ensures { StatementsUpdateOnce }
{}

/// The looplet of a driven read shows what the definition of work knows of it, wherever it stands as that has it.
pub fn reads_show()
    ensures { ReadsShow }
{}

/// The code of how far a loop lies behind the level of a driven read has that number, where the local of the index's
/// other variable has its number.
pub fn distances_mean()
    ensures { DistancesMean }
{}

/// The looplet of a mask shows its test.
pub fn masks_show()
    ensures { MasksShow }
{}

/// The places of two stretches of a loop, one behind the other, add up to those of both.
pub fn stops_add()
    ensures { StopsAdd }
{}

/// The looplets of a loop's driven reads and masks, with runs for the other reads, show along its coordinates what the
/// definition of work knows, are sound there, and stop no more often than there are places, for which the loop's entry
/// is charged.
pub fn looplets_show()
    ensures { LoopletsShow }
{}

/// A nest with the looplets that are made for a loop of a program, where the loop is entered, folds to the loop's run
/// by pieces, chunk by chunk; its looplets are sound, and stop no more often than there are places, for which the entry
/// is charged.
pub fn made_nests_are_loops()
    ensures { MadeNestsAreLoops }
{
    masks_compare();
}

/// Over all coordinates of a loop of a program that isn't parallel and can be entered such a nest does what the statement
/// does, behind the charge of the loop's entry.
pub fn made_nests_run()
    ensures { MadeNestsRun }
{
    masks_compare();
}

/// The looplets of such a nest own no local that one of them depends on, and no two own one, where the locals of their
/// own stand in no expression that they are made from.
pub fn made_keep_apart()
    ensures { MadeKeepApart }
{
    masks_compare();
}
