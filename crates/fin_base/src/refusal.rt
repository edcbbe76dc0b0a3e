//! Why a job is refused: the rule that it breaks, and the line where it does.
ghost use Rattle.std.specs.Prelude.{◌≡◌};
ghost use Rattle.fin_base.specs.declared.refusal.Fail.TheVariants.{Memory, Refused as RefusedBy};

use std::alloc::AllocError;
use thiserror::Error;

/// A rule of the language, of the tensor text, or of a run. The document on the rules says when each is broken.
#[derive(Clone, Copy, Debug, PartialEq, Eq)]
pub enum Rule {
    /// The job is too long.
    J1,
    /// No line ends the program.
    J2,
    /// Bytes begin no token.
    S1,
    /// A token that the grammar doesn't allow here.
    S2,
    /// Too much nesting, or too many headers.
    S3,
    /// A name without a meaning here.
    N1,
    /// A name that is taken.
    N2,
    /// Another count than the format has levels.
    N3,
    /// A format whose levels or decoration are misplaced.
    F1,
    /// A declaration with another value than the fill.
    F2,
    /// A line of the tensor text that has no such form.
    X1,
    /// A number that is misspelled or out of its range.
    X2,
    /// Another line than the one that is due.
    X3,
    /// A storage that isn't valid.
    X4,
    /// A tensor that was given before.
    X5,
    /// A tensor that no input asks for, or an input without one.
    X6,
    /// An update of a tensor that isn't in update mode.
    L1,
    /// A read of a tensor that isn't in read mode.
    L2,
    /// A declaration where none may be.
    L3,
    /// A freeze of a tensor that isn't in update mode.
    L4,
    /// A thaw of a tensor that isn't in read mode.
    L5,
    /// A body that ends with another mode.
    L6,
    /// An output that isn't in read mode at the end.
    L7,
    /// Two extents that are tied and differ.
    M1,
    /// An extent that nothing gives.
    M2,
    /// An index outside its extent.
    M3,
    /// An empty range.
    M4,
    /// A number that is too large.
    M5,
    /// Dense extents whose product is too large.
    B1,
    /// Too much for dense evaluation.
    B2,
    /// Too many choices in a loop.
    B3,
    /// An update out of order.
    U1,
    /// An update under other loops than the first one.
    U2,
    /// A replacing update that isn't safe in parallel.
    C1,
    /// Two reductions of one tensor in a parallel loop.
    C2,
    /// A format that isn't safe in parallel.
    C3,
    /// A parallel loop in another one.
    C4,
    /// A freeze or thaw in a parallel loop.
    C5,
    /// More work than the budget.
    W1,
}

/// Which rule a job breaks, and where.
#[derive(Clone, Copy, Debug, PartialEq, Eq)]
pub struct Refusal {
    /// The rule that is broken.
    pub rule: Rule,
    /// The line of the job where it is, from 1 on; 0 where it is no line's.
    pub line: u32,
}

/// Why there is no result.
#[derive(Debug, Drop, Error)]
pub enum Fail {
    /// The job breaks a rule.
    #[error("refused {:?} line {}", .0.rule, .0.line)]
    Refused(Refusal),
    /// Memory ran out.
    #[error("out of memory")]
    Memory(AllocError),
}

impl From<AllocError> for Fail {
    ghost from_gives = { λ e f. f ≡ Memory e };

    fn from(e: AllocError) -> Fail {
        Fail::Memory(e)
    }
}

impl From<Refusal> for Fail {
    ghost from_gives = { λ r f. f ≡ RefusedBy r };

    fn from(refusal: Refusal) -> Fail {
        Fail::Refused(refusal)
    }
}
