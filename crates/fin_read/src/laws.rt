//! What the code of accesses, counts and expressions means.
ghost use Rattle.fin_read.specs.Means.{CountsMean, ReadsMean, ValuesAreNamed, ValuesMean};

/// The steps of an access leave in a local the value that the language gives it, and leave the locals before as they
/// were.
pub fn reads_mean()
    ensures { ReadsMean }
{}

/// The code of a count has the number of values that a storage holds.
pub fn counts_mean()
    ensures { CountsMean }
{}

/// Where code sees each tensor that can be read, the code of an expression gives the value that the language gives it,
/// and leaves the locals before its first free one as they were.
pub fn values_mean()
    ensures { ValuesMean }
{}

/// A layout with the variables, and with the locals that the code of an expression takes, has all that the code names.
pub fn values_are_named()
    ensures { ValuesAreNamed }
{}
