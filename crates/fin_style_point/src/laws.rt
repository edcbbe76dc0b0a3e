//! What is proved of the steps, in both senses.
ghost use Rattle.fin_style_point.specs.Laws.{SpikesSplit, ShiftsSplit, SwitchesSplit};
ghost use Rattle.fin_style_point.specs.Laws.{LoopsSplit, FixedIsAtOnce, NothingIsSkipped};
ghost use Rattle.fin_style_point.specs.Splits.{PartsAreStepped};
ghost use Rattle.fin_style_point.specs.Changes.{UpdatesAreAtOnce};
ghost use Rattle.fin_style_point.specs.Statements.{StatementsAreUpdates};

/// A nest's spikes may be cut at its region's end: that is two runs each, and weighs less.
pub fn spikes_split()
    ensures { SpikesSplit }
{}

/// A nest's shifts may be pushed inside, all at once, and it weighs less.
pub fn shifts_split()
    ensures { ShiftsSplit }
{}

/// A nest's first switch is its first case where that case's test isn't 0, and else its other cases; both weigh less.
pub fn switches_split()
    ensures { SwitchesSplit }
{}

/// A nest of runs and lookups is a loop over its coordinates, where code that means the nest of one of them is run with
/// a turn counted behind it; and the nest of one coordinate weighs nothing.
pub fn loops_split()
    ensures { LoopsSplit }
{}

/// Where the body does one fixed thing along runs and lookups, code that does it at once means the nest, asked only
/// where there is a coordinate.
pub fn fixed_is_at_once()
    ensures { FixedIsAtOnce }
{}

/// Code that does nothing means a nest whose body does nothing.
pub fn nothing_is_skipped()
    ensures { NothingIsSkipped }
{}

/// The parts of a nest of the program, by the first style that one of its looplets has, split it, weigh less, depend on
/// nothing that their code changes where the nest doesn't, and have its body.
pub fn parts_are_stepped()
    ensures { PartsAreStepped }
{}

/// Over runs and lookups the code of one update at once means each nest whose body is that update at each coordinate.
pub fn updates_are_at_once()
    ensures { UpdatesAreAtOnce }
{}

/// A body that is an update statement of a program is that update at each coordinate.
pub fn statements_are_updates()
    ensures { StatementsAreUpdates }
{}
