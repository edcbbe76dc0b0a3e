//! Which index of an access a loop drives, and which accesses.
ghost use Rattle.std.specs.Prelude.{◌≡◌, ◌<◌, IfOk, IfSome, length};
ghost use Rattle.fin_simp.specs.Sights as sights;
ghost use Rattle.fin_enter.specs.PushedReads as spec;

use fin_ast::Index;
use fin_simp::Access;
use std::alloc::{AllocError, Global};

fn behind_var(var: Option<u32>) -> u64
    ensures { result ≡ sights.behind_var var }
{
    match var {
        None => 0,
        Some(var) => var as u64 + 1,
    }
}

fn behind_index(index: Index) -> u64
    ensures { result ≡ sights.behind_index index }
{
    let first = behind_var(index.first);
    let second = behind_var(index.second);
    if first < second { second } else { first }
}

/// The index of an access that the loop over a variable drives, with its level: the first one with this or a later
/// variable, where it has no later one.
pub fn driven_index(var: u32, at: &[Index]) -> Option<(usize, Index)>
    ensures is { result ≡ sights.driven_index var at.now }
    ensures level { IfSome result (λ d. d.0 < length at.now) }
{
    if at.is_empty() {
        return None;
    }
    let index = at[0];
    let behind = behind_index(index);
    if behind <= var as u64 {
        return match driven_index(var, &at[1..]) {
            None => None,
            Some((level, index)) => Some((level + 1, index)),
        };
    }
    if behind == var as u64 + 1 {
        Some((0, index))
    } else {
        None
    }
}

/// Which of these reads the loop over a variable drives.
pub fn drives(alloc: Global, var: u32, reads: &[Access]) -> Result<Vec<bool>, AllocError>
    ensures { IfOk result (λ v. v.items ≡ spec.drives var reads.now) }
{
    let mut all = Vec::new(alloc);
    for access in reads {
        let is_driven = driven_index(var, access.at.as_slice()).is_some();
        all.push(is_driven)?;
    }
    Ok(all)
}

/// How many of them.
pub fn driven_count(var: u32, reads: &[Access]) -> usize
    ensures { result ≡ spec.driven_among var reads.now }
{
    let mut count = 0;
    for access in reads {
        if driven_index(var, access.at.as_slice()).is_some() {
            count += 1;
        }
    }
    count
}
