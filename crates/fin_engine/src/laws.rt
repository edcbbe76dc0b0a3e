//! What is true of the texts of jobs.
ghost use Rattle.fin_engine.specs.Laws.{CutOrEndless, LexedOrBreach, OneVerdict};

/// Each text is cut into a program and tensors, or breaks `J2`.
pub fn cut_or_endless()
    ensures { CutOrEndless }
{}

/// Each text breaks `J2` or `S1`, or its program has tokens.
pub fn lexed_or_breach()
    ensures { LexedOrBreach }
{}

/// Each text is accepted with one job, or breaks one rule on one line.
pub fn one_verdict()
    ensures { OneVerdict }
{}
