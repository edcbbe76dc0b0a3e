//! What is proved of nests by what their looplets tell.
ghost use Rattle.fin_known.specs.Laws.{HeadsTellNothing};

/// Where nothing is left of a loop's body by what the looplets of a nest tell by their heads, nothing is left of it at
/// any coordinate of the nest.
pub fn heads_tell_nothing()
    ensures { HeadsTellNothing }
{}
