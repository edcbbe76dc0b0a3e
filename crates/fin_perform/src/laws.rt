//! What the code of a program's statements performs.
ghost use Rattle.fin_perform.specs.Begun.{BegunMachinesStand};
ghost use Rattle.fin_perform.specs.Bodies.{BodiesPerform, TestsPerform, LetsPerform};
ghost use Rattle.fin_perform.specs.Inside.{PlacesInside};
ghost use Rattle.fin_perform.specs.Meanings.{MeaningsCompose};
ghost use Rattle.fin_perform.specs.Naming.{CodesAreNamed, ProgramsAreNamed, ScopesGoInside};
ghost use Rattle.fin_perform.specs.Once.{OnceCompose};
ghost use Rattle.fin_perform.specs.Programs.{ProgramsStand};
ghost use Rattle.fin_perform.specs.Performing.{NothingPerforms, LeavesPerform};

/// Over inputs that fit a program they fit its layout, with any number of locals, and the first machine does what the run
/// by stages does where it begins.
pub fn begun_machines_stand()
    ensures { BegunMachinesStand }
{}

/// A statement of which nothing is left, by what is known, has no code.
pub fn nothing_performs()
    ensures { NothingPerforms }
{}

/// A declaration, a freeze and a thaw, and an update of which something is left, are performed by their codes, in a place
/// where the variables in scope have the run's numbers.
pub fn leaves_perform()
    ensures { LeavesPerform }
{}

/// Codes of statements perform a body one after another; and a block, and what is chosen by a test that is known, as their
/// bodies' codes do.
pub fn bodies_perform()
    ensures { BodiesPerform }
{}

/// A test that is asked pays 1, and its body's codes stand where its value isn't 0.
pub fn tests_perform()
    ensures { TestsPerform }
{}

/// A let of a literal puts it into its variable's local, and any other pays 1 and puts its value there; behind it stand the
/// body's codes.
pub fn lets_perform()
    ensures { LetsPerform }
{}

/// A place with the number of one more variable stands in the scope of a loop or a let of it.
pub fn places_inside()
    ensures { PlacesInside }
{}

/// Codes that mean the parts of statements, wherever they may stand, make codes that mean the whole: of bodies, of
/// statements without bodies, and of blocks, tests and lets.
pub fn meanings_compose()
    ensures { MeaningsCompose }
{}

/// Codes that do the one update that is left of a part of a body, and pay nothing, do that of the whole: nothing else in
/// it has codes, but a let of a literal that is around the update.
pub fn once_compose()
    ensures { OnceCompose }
{}

/// Codes that mean a program's statements outside all loops lead from the first machine to one that does what the run by
/// pieces does, over inputs that fit an accepted program.
pub fn programs_stand()
    ensures { ProgramsStand }
{}

/// Where the names of statements are good in a scope, the program's layout has each local and tensor that their codes name:
/// those of statements without bodies, and those round codes of bodies that are named.
pub fn codes_are_named()
    ensures { CodesAreNamed }
{}

/// A scope of the program is so from a later local on, and inside a loop and a let.
pub fn scopes_go_inside()
    ensures { ScopesGoInside }
{}

/// Codes that are named where the names of an accepted program's statements are good, outside all loops, are named in its
/// layout.
pub fn programs_are_named()
    ensures { ProgramsAreNamed }
{}
