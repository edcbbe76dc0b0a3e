//! Frames filled with codes.
ghost use Rattle.std.specs.Prelude.{◌≡◌, IfOk, reverse};
ghost use Rattle.fin_ir.specs.declared.code.Code.TheVariants.{When, StepLoop, ForLoop, ParLoop};
ghost use Rattle.fin_nest.specs.Frames.{filling, next_code, fill};

use crate::terms::copy_ends;
use fin_base::Updated;
use fin_ir::{Code, IExpr};
use fin_tensor::Seq;
use sqlite_items::{Boxed, Items};
use std::alloc::{AllocError, Global};

/// The frame with the k-th code in place of its k-th `Skip`; behind the last code each `Skip` stays.
pub fn fill(alloc: Global, frame: &Code, codes: Items<Code>) -> Result<Code, AllocError>
    ensures { IfOk result (λ c. c ≡ fill frame.now codes) }
{
    let mut left = turned(alloc, codes)?;
    fill_one(alloc, frame, &mut left)
}

/// The codes from the last to the first one, so that the next one is taken from the end.
fn turned(alloc: Global, codes: Items<Code>) -> Result<Items<Code>, AllocError>
    ensures { IfOk result (λ all. all ≡ reverse codes) }
{
    let mut codes = codes;
    let mut all = Items::new(alloc);
    while let Some(code) = codes.pop() {
        all.push(code)?;
    }
    Ok(all)
}

#[cycle(fill)]
fn fill_one(alloc: Global, frame: &Code, left: &mut Items<Code>) -> Result<Code, AllocError>
    ensures { IfOk result (λ c. filling frame.now (reverse left.old) ≡ (c, reverse left.new)) }
{
    match frame {
        Code::Skip => Ok(next_code(left)),
        Code::Seq(all) => fill_each(alloc, all.as_slice(), left),
        Code::When { test, body } => {
            let body = fill_body(alloc, body.get(), left)?;
            copy_when(alloc, test, body)
        }
        Code::StepLoop {
            var,
            until,
            lo,
            hi,
            stop,
            body,
        } => {
            let body = fill_body(alloc, body.get(), left)?;
            copy_step_loop(alloc, (*var, *until), lo, hi, stop, body)
        }
        Code::ForLoop { var, lo, hi, body } => {
            let body = fill_body(alloc, body.get(), left)?;
            copy_for_loop(alloc, *var, lo, hi, body)
        }
        Code::ParLoop {
            from,
            to,
            lo,
            hi,
            ways,
            body,
        } => {
            let body = fill_body(alloc, body.get(), left)?;
            copy_par_loop(alloc, (*from, *to), (*lo, *hi), ways.as_slice(), body)
        }
        _ => frame.copy(alloc),
    }
}

#[cycle(fill)]
fn fill_body(alloc: Global, frame: &Code, left: &mut Items<Code>) -> Result<Boxed<Code>, AllocError>
    ensures { IfOk result (λ c. filling frame.now (reverse left.old) ≡ (c, reverse left.new)) }
{
    let code = fill_one(alloc, frame, left)?;
    Boxed::new(alloc, code)
}

/// Each of the frames, one after another.
#[cycle(fill)]
fn fill_each(alloc: Global, frames: &[Code], left: &mut Items<Code>) -> Result<Code, AllocError>
    ensures { IfOk result (λ c. filling (Code.Seq frames.now) (reverse left.old) ≡ (c, reverse left.new)) }
{
    let mut all = Items::new(alloc);
    for frame in frames {
        let code = fill_one(alloc, frame, left)?;
        all.push(code)?;
    }
    Ok(Code::Seq(all))
}

/// The next code, where one is left.
fn next_code(left: &mut Items<Code>) -> Code
    ensures { next_code (reverse left.old) ≡ (result, reverse left.new) }
{
    match left.pop() {
        Some(code) => code,
        None => Code::Skip,
    }
}

fn copy_when(alloc: Global, test: &IExpr, body: Boxed<Code>) -> Result<Code, AllocError>
    ensures { IfOk result (λ c. c ≡ When test.now body) }
{
    let test = test.copy(alloc)?;
    Ok(Code::When { test, body })
}

fn copy_step_loop(
    alloc: Global,
    locals: (u32, u32),
    lo: &IExpr,
    hi: &IExpr,
    stop: &IExpr,
    body: Boxed<Code>,
) -> Result<Code, AllocError>
    ensures { IfOk result (λ c. c ≡ StepLoop locals.0 locals.1 lo.now hi.now stop.now body) }
{
    let (lo, hi) = copy_ends(alloc, lo, hi)?;
    let stop = stop.copy(alloc)?;
    Ok(Code::StepLoop {
        var: locals.0,
        until: locals.1,
        lo,
        hi,
        stop,
        body,
    })
}

fn copy_for_loop(
    alloc: Global,
    var: u32,
    lo: &IExpr,
    hi: &IExpr,
    body: Boxed<Code>,
) -> Result<Code, AllocError>
    ensures { IfOk result (λ c. c ≡ ForLoop var lo.now hi.now body) }
{
    let (lo, hi) = copy_ends(alloc, lo, hi)?;
    Ok(Code::ForLoop { var, lo, hi, body })
}

fn copy_par_loop(
    alloc: Global,
    locals: (u32, u32),
    ends: (u64, u64),
    ways: &[Updated],
    body: Boxed<Code>,
) -> Result<Code, AllocError>
    ensures { IfOk result (λ c. c ≡ ParLoop locals.0 locals.1 ends.0 ends.1 ways.now body) }
{
    let ways = copy_ways(alloc, ways)?;
    Ok(Code::ParLoop {
        from: locals.0,
        to: locals.1,
        lo: ends.0,
        hi: ends.1,
        ways,
        body,
    })
}

fn copy_ways(alloc: Global, ways: &[Updated]) -> Result<Seq<Updated>, AllocError>
    ensures { IfOk result (λ copies. copies ≡ ways.now) }
{
    let mut copies = Seq::new(alloc);
    for updated in ways {
        copies.push(*updated)?;
    }
    Ok(copies)
}
