//! What is proved of nests without jumpers, of the leaves in nests, of free locals, and of what the code of a nest
//! names and leaves as it is.
ghost use Rattle.fin_looplet.specs.declared.looplet.Leaf.{Leaf};
ghost use Rattle.fin_descend.specs.Jumpless.{PartsAreOfLoop, JumplessDontJump};
ghost use Rattle.fin_descend.specs.Leaves.{
  Lasting,
  PartsKeepLeaves,
  RunsKeepLeaves,
  FlatAreRuns,
  LeafWorded,
  IsNumberOrGap,
};
ghost use Rattle.fin_descend.specs.Holes.{FramesCompose, StepsHaveHoles};
ghost use Rattle.fin_descend.specs.Parts.{PartsComeLater};
ghost use Rattle.fin_descend.specs.Sparing.{PartsSpare, FillsSpare, SparesLess};
ghost use Rattle.fin_descend.specs.Naming.{PartsAreNamed, FillsAreNamed, MoreIsNamed};

/// The parts of a nest of a loop without jumpers are nests of the loop without jumpers.
pub fn parts_are_of_loop()
    ensures { PartsAreOfLoop }
{}

/// No part of a nest has a free local before the nest's.
pub fn parts_come_later()
    ensures { PartsComeLater }
{}

/// A nest without jumpers hasn't the style of jumpers: it owes nothing for them.
pub fn jumpless_dont_jump()
    ensures { JumplessDontJump }
{}

/// A property of leaves, whichever it is.
pub trait LeafProperty {
    ghost holds: { Leaf → Type 0 };
}

/// Where leaves in a nest's reads have a property that lasts, and leaves in its masks another and are under no lookups, so
/// it is in its parts.
pub fn parts_keep_leaves<P: LeafProperty, Q: LeafProperty>()
    ensures { PartsKeepLeaves P.holds Q.holds }
{}

/// Looplets that have come to runs are runs of leaves with the property.
pub fn runs_keep_leaves<P: LeafProperty>()
    ensures { RunsKeepLeaves P.holds }
{}

/// Flat looplets that hold no lookup are runs of leaves with the property.
pub fn flat_are_runs<P: LeafProperty>()
    ensures { FlatAreRuns P.holds }
{}

/// It lasts that fills are words.
pub fn words_last()
    ensures { Lasting LeafWorded }
{}

/// It lasts that leaves are numbers, or the gap where no phase is left.
pub fn numbers_last()
    ensures { Lasting IsNumberOrGap }
{}

/// The frame of a step assigns only locals of the nest, and so do those of its parts.
pub fn steps_spare()
    ensures { PartsSpare }
{}

/// Codes that leave something as it is, in a frame that does, make code that does.
pub fn fills_spare()
    ensures { FillsSpare }
{}

/// Code that leaves more as it is leaves less as it is.
pub fn sparing_is_monotone()
    ensures { SparesLess }
{}

/// Codes for the holes of frames, which fill a frame, are codes in those frames, which then fill it.
pub fn frames_compose()
    ensures { FramesCompose }
{}

/// The frame of a step has a hole for each part.
pub fn steps_have_holes()
    ensures { StepsHaveHoles }
{}

/// Where a nest is named in a layout with the locals of its step, the step's frame and parts are named.
pub fn parts_are_named()
    ensures { PartsAreNamed }
{}

/// Codes that are named, in a frame that is, make code that is.
pub fn fills_are_named()
    ensures { FillsAreNamed }
{}

/// What is named in a layout is named in a larger one.
pub fn more_is_named()
    ensures { MoreIsNamed }
{}
