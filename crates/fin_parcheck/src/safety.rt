//! The rules on parallel loops.
ghost use Rattle.std.specs.Prelude.{◌≡◌, ◌≤◌, IfOk, IfErr, None, Some, length, map};
ghost use Rattle.fin_ast.specs.Life.{life_in};
ghost use Rattle.fin_ast.specs.Sizes.{first_of};
ghost use Rattle.fin_parcheck.specs.Safety.{IfRefused, parallel_in, ways_in};
ghost use Rattle.fin_parcheck.specs.Safety as spec;

use crate::breach::broken;
use crate::deeds::{Deed, ParallelLoop};
use crate::loops::parallel_loops;
use crate::usages::{Usage, updated, usages};
use fin_ast::{Header, LoopWays, Program, Ways};
use fin_base::{Fail, Reduce, Refusal, Rule, Way};
use fin_tensor::Seq;
use std::alloc::Global;

/// The way in which each parallel loop updates each outer tensor, where these are safe.
///
/// Refused by the first breach in text order: an update of an outer tensor that isn't in rows of the loop, by `=`, by
/// another reduction than the first one, or in a format that doesn't serve it; a parallel loop in a parallel loop; or
/// a freeze or thaw of an outer tensor in one.
pub fn ways(alloc: Global, program: &Program) -> Result<Ways, Fail>
    requires { life_in program.now ≡ None }
    ensures kept { IfOk result (λ w. parallel_in program.now ≡ None) }
    ensures ways { IfOk result (λ w. w ≡ ways_in program.now) }
    ensures refused { IfErr result (λ e. IfRefused e (λ r. parallel_in program.now ≡ Some r)) }
{
    let parallel = parallel_loops(alloc, program)?;
    let loops = all_ways(alloc, program.headers.as_slice(), parallel.as_slice())?;
    Ok(Ways { loops })
}

/// The ways of parallel loops, one after another.
fn all_ways(
    alloc: Global,
    headers: &[Header],
    loops: &[ParallelLoop],
) -> Result<Seq<LoopWays>, Fail>
    requires { length headers.now ≤ 64 }
    ensures kept { IfOk result (λ ws. first_of (spec.loop_breach headers.now) loops.now ≡ None) }
    ensures ways { IfOk result (λ ws. ws ≡ map (spec.loop_ways headers.now) loops.now) }
    ensures refused { let breach = first_of (spec.loop_breach headers.now) loops.now in
        IfErr result (λ e. IfRefused e (λ r. breach ≡ Some r)) }
{
    let mut ways = Seq::new(alloc);
    for parallel in loops {
        let of = loop_ways(alloc, headers, parallel)?;
        ways.push(of)?;
    }
    Ok(ways)
}

/// The ways of one parallel loop, where it is safe.
fn loop_ways(alloc: Global, headers: &[Header], parallel: &ParallelLoop) -> Result<LoopWays, Fail>
    requires { length headers.now ≤ 64 }
    ensures kept { IfOk result (λ w. spec.loop_breach headers.now parallel.now ≡ None) }
    ensures ways { IfOk result (λ w. w ≡ spec.loop_ways headers.now parallel.now) }
    ensures refused { IfErr result (λ e. IfRefused e (λ r. spec.loop_breach headers.now parallel.now ≡ Some r)) }
{
    let usages = usages(alloc, headers, parallel)?;
    if let Some(refusal) = first_breach(usages.as_slice(), parallel.deeds.as_slice()) {
        return Err(Fail::Refused(refusal));
    }
    let of = updated(alloc, usages.as_slice())?;
    Ok(LoopWays {
        var: parallel.var,
        of,
    })
}

fn first_breach(usages: &[Option<Usage>], deeds: &[Deed]) -> Option<Refusal>
    ensures { result ≡ first_of (spec.deed_breach usages.now) deeds.now }
{
    for deed in deeds {
        if let Some(refusal) = deed_breach(usages, *deed) {
            return Some(refusal);
        }
    }
    None
}

fn deed_breach(usages: &[Option<Usage>], deed: Deed) -> Option<Refusal>
    ensures { result ≡ spec.deed_breach usages.now deed }
{
    match deed {
        Deed::Update {
            tensor,
            first: _,
            by,
            line,
        } => match usages.get(usize::from(tensor)) {
            Some(usage) => update_breach(*usage, by, line),
            None => None,
        },
        Deed::Turn { line } => broken(true, Rule::C5, line),
        Deed::Nested { line } => broken(true, Rule::C4, line),
    }
}

fn update_breach(usage: Option<Usage>, by: Reduce, line: u32) -> Option<Refusal>
    ensures { result ≡ spec.update_breach usage by line }
{
    match usage {
        Some(usage) => {
            if is_rows(usage.way) {
                None
            } else {
                shared_breach(usage.way, usage.by, by, line)
            }
        }
        None => None,
    }
}

fn shared_breach(way: Option<Way>, first: Reduce, by: Reduce, line: u32) -> Option<Refusal>
    ensures { result ≡ spec.shared_breach way first by line }
{
    let put = broken(is_put(by), Rule::C1, line);
    let other = broken(!is_same(by, first), Rule::C2, line);
    let unserved = broken(!serves(way, by), Rule::C3, line);
    put.or(other.or(unserved))
}

fn is_same(a: Reduce, b: Reduce) -> bool
    ensures { result ≡ spec.same a b }
{
    match (a, b) {
        (Reduce::Add, Reduce::Add) => true,
        (Reduce::Mul, Reduce::Mul) => true,
        (Reduce::Min, Reduce::Min) => true,
        (Reduce::Max, Reduce::Max) => true,
        (Reduce::And, Reduce::And) => true,
        (Reduce::Or, Reduce::Or) => true,
        (Reduce::Xor, Reduce::Xor) => true,
        (Reduce::Put, Reduce::Put) => true,
        _ => false,
    }
}

fn is_put(by: Reduce) -> bool
    ensures { result ≡ spec.is_put by }
{
    match by {
        Reduce::Put => true,
        _ => false,
    }
}

fn is_mul(by: Reduce) -> bool
    ensures { result ≡ spec.is_mul by }
{
    match by {
        Reduce::Mul => true,
        _ => false,
    }
}

fn is_rows(way: Option<Way>) -> bool
    ensures { result ≡ spec.is_rows way }
{
    match way {
        Some(Way::Rows) => true,
        _ => false,
    }
}

/// Whether a way serves a reduction.
fn serves(way: Option<Way>, by: Reduce) -> bool
    ensures { result ≡ spec.serves way by }
{
    match way {
        None => false,
        Some(Way::Word) => !is_mul(by),
        Some(_) => true,
    }
}
