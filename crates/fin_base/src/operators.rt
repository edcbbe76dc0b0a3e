//! Operators.
ghost use Rattle.std.specs.Prelude.{◌≡◌};
ghost use Rattle.fin_base.specs.Words.{operate as operated, negated, truth as truth_of};

use crate::terms::Op;

/// The value of an operator: a word, and of a comparison 1 or 0.
pub fn operate(op: Op, a: i64, b: i64) -> i64
    ensures { result ≡ operated op a b }
{
    match op {
        Op::Add => a.wrapping_add(b),
        Op::Sub => a.wrapping_sub(b),
        Op::Mul => a.wrapping_mul(b),
        Op::Min => a.min(b),
        Op::Max => a.max(b),
        Op::And => a & b,
        Op::Or => a | b,
        Op::Xor => a ^ b,
        Op::Lt => truth(a < b),
        Op::Le => truth(a <= b),
        Op::Gt => truth(a > b),
        Op::Ge => truth(a >= b),
        Op::Eq => truth(a == b),
        Op::Ne => truth(a != b),
    }
}

/// The word with the other sign, modulo 2^64.
pub fn negate(a: i64) -> i64
    ensures { result ≡ negated a }
{
    a.wrapping_neg()
}

fn truth(holds: bool) -> i64
    ensures { result ≡ truth_of holds }
{
    if holds { 1 } else { 0 }
}
