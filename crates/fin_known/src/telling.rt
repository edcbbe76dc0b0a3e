//! What the looplets of a nest tell by their heads, as facts.
ghost use Rattle.std.specs.Prelude.{◌≡◌, ◌++◌, IfOk};
ghost use Rattle.fin_known.specs.Telling as spec;

use fin_ir::IExpr;
use fin_looplet::{Leaf, Looplet};
use fin_nest::Numbered;
use fin_simp::{Gap, Known};
use std::alloc::{AllocError, Global};

fn fill_told(looplet: &Looplet) -> Option<i64>
    ensures { result ≡ spec.fill_told looplet.now }
{
    match looplet {
        Looplet::Run(leaf) => leaf_fill(leaf),
        Looplet::Lookup { coord: _, leaf } => leaf_fill(leaf),
        _ => None,
    }
}

fn leaf_fill(leaf: &Leaf) -> Option<i64>
    ensures { result ≡ spec.leaf_fill leaf.now }
{
    match leaf {
        Leaf::Fill(fill) => Some(*fill),
        _ => None,
    }
}

fn truth_told(looplet: &Looplet) -> Option<bool>
    ensures { result ≡ spec.truth_told looplet.now }
{
    match looplet {
        Looplet::Run(leaf) => leaf_truth(leaf),
        _ => None,
    }
}

fn leaf_truth(leaf: &Leaf) -> Option<bool>
    ensures { result ≡ spec.leaf_truth leaf.now }
{
    match leaf {
        Leaf::Value(value) => truth_of_expr(value),
        _ => None,
    }
}

fn truth_of_expr(value: &IExpr) -> Option<bool>
    ensures { result ≡ spec.truth_of_expr value.now }
{
    match value {
        IExpr::Num(n) => truth_of_number(*n),
        _ => None,
    }
}

fn truth_of_number(n: i64) -> Option<bool>
    ensures { result ≡ spec.truth_of_number n }
{
    if n == 1 {
        return Some(true);
    }
    if n == 0 {
        return Some(false);
    }
    None
}

fn fill_at(drives: &[bool], reads: &[Numbered], number: u32) -> Option<i64>
    ensures { result ≡ spec.fill_at drives.now reads.now number }
{
    if drives.is_empty() {
        return None;
    }
    if reads.is_empty() {
        return None;
    }
    if drives[0] && reads[0].number == number {
        return fill_told(&reads[0].looplet);
    }
    fill_at(&drives[1..], &reads[1..], number)
}

fn truth_at(masks: &[Numbered], number: u32) -> Option<bool>
    ensures { result ≡ spec.truth_at masks.now number }
{
    for mask in masks {
        if mask.number == number {
            return truth_told(&mask.looplet);
        }
    }
    None
}

/// The gaps that are known around, and those that the looplets of reads tell, of which the loop drives some.
pub fn with_gaps(
    alloc: Global,
    around: &[Gap],
    drives: &[bool],
    reads: &[Numbered],
) -> Result<Vec<Gap>, AllocError>
    ensures { IfOk result (λ v. v.items ≡ around.now ++ spec.gaps_told (spec.fill_at drives.now reads.now) reads.now) }
{
    let mut all = gaps(alloc, around)?;
    for read in reads {
        if let Some(fill) = fill_at(drives, reads, read.number) {
            all.push(Gap {
                read: read.number,
                fill,
            })?;
        }
    }
    Ok(all)
}

fn gaps(alloc: Global, around: &[Gap]) -> Result<Vec<Gap>, AllocError>
    ensures { IfOk result (λ v. v.items ≡ around.now) }
{
    let mut all = Vec::new(alloc);
    for gap in around {
        all.push(*gap)?;
    }
    Ok(all)
}

/// The tests that are known around, and those that the looplets of masks tell.
pub fn with_tests(
    alloc: Global,
    around: &[Known],
    masks: &[Numbered],
) -> Result<Vec<Known>, AllocError>
    ensures { IfOk result (λ v. v.items ≡ around.now ++ spec.tests_told (spec.truth_at masks.now) masks.now) }
{
    let mut all = tests(alloc, around)?;
    for mask in masks {
        if let Some(holds) = truth_at(masks, mask.number) {
            all.push(Known {
                test: mask.number,
                holds,
            })?;
        }
    }
    Ok(all)
}

fn tests(alloc: Global, around: &[Known]) -> Result<Vec<Known>, AllocError>
    ensures { IfOk result (λ v. v.items ≡ around.now) }
{
    let mut all = Vec::new(alloc);
    for known in around {
        all.push(*known)?;
    }
    Ok(all)
}
