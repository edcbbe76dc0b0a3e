//! The charge of a loop's entry.
ghost use Rattle.std.specs.Prelude.{◌≡◌, ◌++◌, OnOk};
ghost use Rattle.fin_enter.specs.Charges as spec;

use fin_ir::{Code, IExpr};
use sqlite_items::Items;
use std::alloc::{AllocError, Global};

/// Appends the codes that charge what is known where the code is made, and these lengths.
pub fn push_charges(
    alloc: Global,
    into: &mut Items<Code>,
    known: u32,
    lengths: &[IExpr],
) -> Result<(), AllocError>
    ensures { OnOk result (into.new ≡ into.old ++ spec.entry_codes known lengths.now) }
{
    into.push(Code::Charge(IExpr::Num(known as i64)))?;
    for length in lengths {
        let length = length.copy(alloc)?;
        into.push(Code::Charge(length))?;
    }
    Ok(())
}
