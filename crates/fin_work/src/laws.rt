ghost use Rattle.fin_work.specs.Changing.{FewerChange};
ghost use Rattle.fin_work.specs.Gaps.{GapsReadFill, ReadableHaveParts};
ghost use Rattle.fin_work.specs.Masks.{MasksTell};
ghost use Rattle.fin_work.specs.Sound.{PiecedIsSound};

/// What can be read in a run stands with its parts: an input with those of its storage, and a frozen tensor with its
/// canonical ones.
pub fn readable_have_parts()
    ensures { ReadableHaveParts }
{}

/// A read that sees a gap at a coordinate of the loop that drives it gives the fill.
pub fn gaps_read_fill()
    ensures { GapsReadFill }
{}

/// A mask has the value of its test at each coordinate of its loop.
pub fn masks_tell()
    ensures { MasksTell }
{}

/// What is left of a body changes the fewer tensors, the more is known.
pub fn fewer_change()
    ensures { FewerChange }
{}

/// The run by pieces of a program that meets the checks, over inputs that fit it, follows its run by stages, and has the
/// functions of dense evaluation.
pub fn pieced_is_sound()
    ensures { PiecedIsSound }
{}
