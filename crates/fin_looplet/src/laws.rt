//! What holds of every looplet.
ghost use Rattle.fin_looplet.specs.Laws.{CutKeeps, FrameHolds, MovedKeeps, ReachIsNear};

/// What a looplet shows, and whether it is sound, depends on its free locals alone.
pub fn frame_holds()
    ensures { FrameHolds }
{}

/// What is at most 2^42 from a coordinate of a region between 0 and 2^40 is near.
pub fn reach_is_near()
    ensures { ReachIsNear }
{}

/// A looplet that is cut at an end shows before it what it showed, and isn't heavier.
pub fn cut_keeps()
    ensures { CutKeeps }
{}

/// A looplet that is moved shows what it showed at the coordinate less the distance, and isn't heavier.
pub fn moved_keeps()
    ensures { MovedKeeps }
{}
