//! Why an evaluation stops early.
ghost use Rattle.std.specs.Prelude.{◌≡◌};
ghost use Rattle.fin_dense.specs.Halts.{fail_of};
ghost use Rattle.fin_dense.specs.declared.halt.Halt.TheVariants.{Memory};

use fin_base::{Fail, Refusal, Rule};
use std::alloc::AllocError;

/// Why an evaluation stops early.
#[derive(Debug, Drop)]
pub enum Halt {
    /// It makes more than 2^24 loop turns, or an output is too large to store.
    Spent,
    /// Memory ran out.
    Memory(AllocError),
}

impl From<AllocError> for Halt {
    ghost from_gives = { λ a e. e ≡ Memory a };

    fn from(error: AllocError) -> Halt {
        Halt::Memory(error)
    }
}

impl From<Halt> for Fail {
    ghost from_gives = { λ h f. f ≡ fail_of h };

    fn from(halt: Halt) -> Fail {
        match halt {
            Halt::Spent => Fail::Refused(Refusal {
                rule: Rule::B2,
                line: 0,
            }),
            Halt::Memory(error) => Fail::Memory(error),
        }
    }
}
