//! The looplet of a mask.
ghost use Rattle.std.specs.Prelude.{◌≡◌, IsTrue, IfOk};
ghost use Rattle.fin_unfurl.specs.Masks.{is_comparison};
ghost use Rattle.fin_drive.specs.Looplets as spec;

use fin_base::Op;
use fin_ir::IExpr;
use fin_looplet::Looplet;
use fin_unfurl::mask;
use std::alloc::{AllocError, Global};

/// The looplet of a test that compares the loop's variable with a bound, the variable first or second.
pub fn tested(alloc: Global, op: Op, bare_first: bool, bound: IExpr) -> Result<Looplet, AllocError>
    requires { IsTrue (is_comparison op) }
    ensures { IfOk result (λ l. l ≡ spec.mask_looplet op bare_first bound) }
{
    if bare_first {
        return mask(alloc, op, bound);
    }
    mask(alloc, turned_round(op), bound)
}

fn turned_round(op: Op) -> Op
    ensures { result ≡ spec.turned_round op }
{
    match op {
        Op::Lt => Op::Gt,
        Op::Le => Op::Ge,
        Op::Gt => Op::Lt,
        Op::Ge => Op::Le,
        _ => op,
    }
}
