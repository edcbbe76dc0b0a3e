//! Lowered code, what is known of a nest before it is stepped, and what a descent makes of both.
ghost use Rattle.std.specs.Prelude.{◌≡◌, ◌≤◌, IfOk};
ghost use Rattle.fin_ir.specs.declared.code.Code.TheVariants.{Skip};
ghost use Rattle.fin_nest.specs.Frames.{fill};

use fin_ir::Code;
use fin_nest::fill;
use sqlite_items::Items;
use std::alloc::{AllocError, Global};

/// Code, and how many locals a layout needs for it.
#[derive(Debug, Drop)]
pub struct Lowered {
    pub code: Code,
    pub room: u32,
}

/// What is known of a nest before it is stepped.
#[derive(Debug, Drop)]
pub enum Known {
    /// The body is nothing at each coordinate.
    Nothing,
    /// The code of the whole nest, as that of one fixed update.
    AtOnce(Lowered),
    /// Neither; the nest may be stepped.
    Open,
}

/// The code of a nest whose body is nothing.
pub fn nothing() -> Lowered
    ensures code { result.code ≡ Skip }
    ensures room { result.room ≡ 0 }
{
    Lowered {
        code: Code::Skip,
        room: 0,
    }
}

/// The room for codes that need so much, one or the other.
pub fn greater(a: u32, b: u32) -> u32
    ensures first { a ≤ result }
    ensures second { b ≤ result }
{
    if a < b { b } else { a }
}

/// The code of a nest from those of its parts.
pub fn filled(
    alloc: Global,
    frame: &Code,
    codes: Items<Code>,
    room: u32,
) -> Result<Lowered, AllocError>
    ensures code { IfOk result (λ lowered. lowered.code ≡ fill frame.now codes) }
    ensures room { IfOk result (λ lowered. lowered.room ≡ room) }
{
    let code = fill(alloc, frame, codes)?;
    Ok(Lowered { code, room })
}
