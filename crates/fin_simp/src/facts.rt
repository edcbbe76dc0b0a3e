//! What is known of a body.
ghost use Rattle.std.specs.Prelude.{◌≡◌, ◌+◌, ◌∷◌, IfOk};
ghost use Rattle.fin_simp.specs.Facts.{gap_in, test_in, var_in};

use std::alloc::{AllocError, Global};

/// A read that is a gap, by its number in the order of the text, with the fill.
#[derive(Clone, Copy, Debug)]
pub struct Gap {
    pub read: u32,
    pub fill: i64,
}

/// A test that is known, by its number.
#[derive(Clone, Copy, Debug)]
pub struct Known {
    pub test: u32,
    pub holds: bool,
}

/// A variable that a loop or `let` around binds, with its number where it is known.
#[derive(Clone, Copy, Debug)]
pub struct Bound {
    pub var: u32,
    pub number: Option<i64>,
}

/// What is known at a place.
#[derive(Clone, Copy)]
pub struct Facts<'a> {
    pub gaps: &'a [Gap],
    pub known: &'a [Known],
    pub bound: &'a [Bound],
}

pub fn gap_of(gaps: &[Gap], read: u32) -> Option<i64>
    ensures { result ≡ gap_in gaps.now read }
{
    for gap in gaps {
        if gap.read == read {
            return Some(gap.fill);
        }
    }
    None
}

pub fn test_of(known: &[Known], test: u32) -> Option<i64>
    ensures { result ≡ test_in known.now test }
{
    for one in known {
        if one.test == test {
            return Some(i64::from(one.holds));
        }
    }
    None
}

pub fn var_of(bound: &[Bound], var: u32) -> Option<i64>
    ensures { result ≡ var_in bound.now var }
{
    for one in bound {
        if var == one.var {
            return one.number;
        }
    }
    None
}

/// The variables that are bound, and one more.
pub fn with_bound(
    alloc: Global,
    bound: &[Bound],
    var: u32,
    number: Option<i64>,
) -> Result<Vec<Bound>, AllocError>
    ensures { IfOk result (λ v. v.items ≡ record { var = var; number = number } ∷ bound.now) }
{
    let mut all = Vec::new(alloc);
    all.push(Bound { var, number })?;
    for one in bound {
        all.push(*one)?;
    }
    Ok(all)
}

/// The number of the next read or test. There is no memory for as many as a `u32` can't count.
pub fn next_number(number: u32) -> Result<u32, AllocError>
    ensures { IfOk result (λ n. n ≡ number + 1) }
{
    if number == u32::MAX {
        return Err(AllocError);
    }
    Ok(number + 1)
}
