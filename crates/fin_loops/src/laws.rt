//! What is proved of the code of loops.
ghost use Rattle.fin_loops.specs.AtOnce.{OnceMeans};
ghost use Rattle.fin_loops.specs.Chunked.{ChunksEnter};
ghost use Rattle.fin_loops.specs.Chunks.{LoopsInChunks, OpenedStand};
ghost use Rattle.fin_loops.specs.Empty.{EmptyLoopsMean};
ghost use Rattle.fin_loops.specs.Entering.{LoopsMean};
ghost use Rattle.fin_loops.specs.Facts.{NothingIsTold, PartsAreKnown, WordsAreTold};
ghost use Rattle.fin_loops.specs.FactsPoints.{PointsAreTold};
ghost use Rattle.fin_loops.specs.Fixed.{FixedMeans};
ghost use Rattle.fin_loops.specs.Keeping.{NestsAreSeparate};
ghost use Rattle.fin_loops.specs.Naming.{TopsAreNamed};
ghost use Rattle.fin_loops.specs.Only.{OnlyCompose};
ghost use Rattle.fin_loops.specs.Parallel.{ParallelLoopsMean};
ghost use Rattle.fin_loops.specs.Points.{PointsMean, LoopsGoOn};
ghost use Rattle.fin_loops.specs.Sourced.{EntriesEnter};
ghost use Rattle.fin_loops.specs.Sources.{ProgramsAreSources, SourcesAreHandedDown, SourcesOfLoops};
ghost use Rattle.fin_loops.specs.Sparing.{CodesSpare, EntriesSpare};
ghost use Rattle.fin_loops.specs.Told.{NestsTold};
ghost use Rattle.fin_loops.specs.Tops.{TopsAreSeparate, TopsHoldNoJumpers, TopsKeepOut};

use fin_simp::{accepted_stay, masks_compare};

/// Codes that mean a loop's body under what is known at a point, behind the charge and the coordinate, mean the nest that
/// has come to that point, whatever the loop is in a run.
pub fn points_mean()
    ensures { PointsMean }
{}

/// What stands behind the nests of a loop goes on where a machine was cut, and is the same, where a part begins, whether
/// its reads vary.
pub fn loops_go_on()
    ensures { LoopsGoOn }
{}

/// The codes of a loop's entry, and behind them code that means its nest whatever the loop is in a run, mean the loop, in a
/// piece and outside all loops.
pub fn loops_mean()
    ensures { LoopsMean }
{
    masks_compare();
}

/// A parallel loop does, one after another along the chunks that its code has, what it does along all of its coordinates.
pub fn loops_in_chunks()
    ensures { LoopsInChunks }
{}

/// A machine that begins a chunk, with the chunk's locals and without the tensors that the loop's body declares, stands for
/// the run that it stood for, where the run has none of these.
pub fn opened_stand()
    ensures { OpenedStand }
{}

/// The codes of a parallel loop's entry, and behind them code that means its nest, chunk by chunk, mean the parallel loop.
pub fn parallel_loops_mean()
    ensures { ParallelLoopsMean }
{
    masks_compare();
}

/// A nest whose looplets keep apart, own locals of their own and depend on outer ones alone is separate wherever its loop
/// may stand.
pub fn nests_are_separate()
    ensures { NestsAreSeparate }
{}

/// Codes in which no code assigns a local or changes a tensor that is to stay leave these as they are, in any machine.
pub fn codes_spare()
    ensures { CodesSpare }
{}

/// The codes of a loop's entry spare all locals before the first free one, and all tensors.
pub fn entries_spare()
    ensures { EntriesSpare }
{}

/// Along runs and lookups it is seen where the code is made whether nothing is left of a loop's body, and whether a nest may
/// be stepped.
pub fn nests_told()
    ensures { NestsTold }
{}

/// The nest of a loop as its entry makes it keeps out of what is around the loop, where variables are numbered in the order
/// in which they are bound and no index of a read that remains names one twice.
pub fn tops_keep_out()
    ensures { TopsKeepOut }
{}

/// The looplets of a loop's entry hold no jumpers.
pub fn tops_hold_no_jumpers()
    ensures { TopsHoldNoJumpers }
{}

/// Where the names of a loop are good in the scope around it, each local and tensor that the codes of its entry and its nest
/// name is in the program's layout with room for them.
pub fn tops_are_named()
    ensures { TopsAreNamed }
{}

/// The nest of a loop as its entry makes it is separate wherever the loop may stand.
pub fn tops_are_separate()
    ensures { TopsAreSeparate }
{}

/// The codes of a loop's entry enter it wherever it may stand: they leave the place as it was, pay for the entry, and the
/// nest with the looplets of the loop's reads and masks is one that is made for it.
pub fn entries_enter()
    ensures { EntriesEnter }
{}

/// A loop over the coordinates whose codes do an update that is the same at each of them and pay nothing, behind a charge
/// of 2 where there is a coordinate, means the nest along which that update is left.
pub fn fixed_means()
    ensures { FixedMeans }
{}

/// What is all that is left of a part of statements, one update, is all that is left of the whole, where no let around it
/// binds what it names.
pub fn only_compose()
    ensures { OnlyCompose }
{}

/// Where the update that is left along a nest names nothing of its loop, its code at once means the nest.
pub fn once_means()
    ensures { OnceMeans }
{}

/// The codes of a parallel loop's entry enter it chunk by chunk wherever it may stand: they leave the place as it was,
/// pay for the entry, and on each machine that begins a chunk the nest is one that is made for that chunk.
pub fn chunks_enter()
    ensures { ChunksEnter }
{}

/// What a lowering has to know of statements it knows of the parts of a list, and of the bodies of blocks, `if`s, lets and
/// loops.
pub fn sources_hand_down()
    ensures { SourcesAreHandedDown }
{}

/// A loop of which that is known is sourced, and its variables are numbered in order, as the laws on its entry ask.
pub fn sources_of_loops()
    ensures { SourcesOfLoops }
{}

/// The body of an accepted program has what a lowering has to know of statements.
pub fn programs_are_sources()
    ensures { ProgramsAreSources }
{
    accepted_stay();
}

/// A nest by whose heads, and what is known around, nothing is left of its loop's body, has nothing to do.
pub fn nothing_is_told()
    ensures { NothingIsTold }
{}

/// What is known of a nest of a loop is known of its parts.
pub fn parts_are_known()
    ensures { PartsAreKnown }
{}

/// What a nest of a loop tells, around what is known there, is words.
pub fn words_are_told()
    ensures { WordsAreTold }
{}

/// Along runs and lookups, what a nest of a loop tells is what is known at each of its coordinates.
pub fn points_are_told()
    ensures { PointsAreTold }
{}

/// The codes of the entry of a loop whose range is empty or turned round mean the loop, parallel or not.
pub fn empty_loops_mean()
    ensures { EmptyLoopsMean }
{}
