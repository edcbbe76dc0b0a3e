//! The code of the number of values that a storage has.
ghost use Rattle.std.specs.Prelude.{◌≡◌, ◌+◌, ◌≤◌, ◌^◌, IfOk, length};
ghost use Rattle.fin_tensor.specs.Levels.{AreSmall};
ghost use Rattle.fin_read.specs.Counts as spec;

use crate::parts::{cell, two};
use fin_base::Op;
use fin_ir::{IExpr, Table};
use fin_tensor::Level;
use std::alloc::{AllocError, Global};

/// The number of values of a storage of these levels and this shape.
pub fn count_expr(
    alloc: Global,
    levels: &[Level],
    shape: &[u64],
    tensor: u8,
) -> Result<IExpr, AllocError>
    requires small { AreSmall shape.now }
    requires few { length levels.now ≤ 8 }
    ensures { IfOk result (λ e. e ≡ spec.count_code tensor levels.now shape.now) }
{
    count_from(alloc, tensor, 0, levels, shape, IExpr::Num(1))
}

// The positions below all levels from that one on.
#[tactic(auto, using(crate::proofs::Fronts::small_part, crate::proofs::Fronts::counts_end))]
fn count_from(
    alloc: Global,
    tensor: u8,
    level: u8,
    levels: &[Level],
    shape: &[u64],
    count: IExpr,
) -> Result<IExpr, AllocError>
    requires small { AreSmall shape.now }
    requires few { level + length levels.now ≤ 8 }
    ensures { IfOk result (λ e. e ≡ spec.count_from tensor level levels.now shape.now count) }
{
    if levels.is_empty() || shape.is_empty() {
        return Ok(count);
    }
    let below = below_level(alloc, tensor, level, levels[0], shape[0], count)?;
    count_from(alloc, tensor, level + 1, &levels[1..], &shape[1..], below)
}

fn below_level(
    alloc: Global,
    tensor: u8,
    level: u8,
    kind: Level,
    n: u64,
    count: IExpr,
) -> Result<IExpr, AllocError>
    requires small { n ≤ 2 ^ 40 }
    ensures { IfOk result (λ e. e ≡ spec.below_level tensor level kind n count) }
{
    match kind {
        Level::Dense => two(alloc, Op::Mul, count, IExpr::Num(n as i64)),
        Level::List | Level::Dict | Level::Runs | Level::Band => {
            cell(alloc, tensor, level, Table::Ptr, count)
        }
    }
}
