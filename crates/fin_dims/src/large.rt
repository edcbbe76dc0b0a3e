//! Numbers that are too large, and empty ranges.
ghost use Rattle.std.specs.Prelude.{◌≡◌};
ghost use Rattle.std.specs.List.{list_any};
ghost use Rattle.fin_ast.specs.Sizes.{first_of};
ghost use Rattle.fin_ast.specs.Sizes as sizes;

use crate::breach::broken;
use fin_ast::{Header, Place};
use fin_base::{Refusal, Rule};
use fin_tensor::Nums;

/// The first range that doesn't end above its beginning, or number over 2^40.
pub fn first_large(headers: &[Header], places: &[Place]) -> Option<Refusal>
    ensures { result ≡ sizes.first_large headers.now places.now }
{
    large_in_headers(headers).or(large_in_places(places))
}

fn large_in_headers(headers: &[Header]) -> Option<Refusal>
    ensures { result ≡ first_of sizes.large_in_header headers.now }
{
    for header in headers {
        if let Some(refusal) = large_in_header(header) {
            return Some(refusal);
        }
    }
    None
}

fn large_in_header(header: &Header) -> Option<Refusal>
    ensures { result ≡ sizes.large_in_header header.now }
{
    broken(has_large(&header.shape), Rule::M5, header.line)
}

fn has_large(shape: &Option<Nums>) -> bool
    ensures { result ≡ sizes.has_large shape.now }
{
    match shape {
        Some(shape) => any_large(shape.as_slice()),
        None => false,
    }
}

fn any_large(numbers: &[u64]) -> bool
    ensures { result ≡ list_any sizes.is_large numbers.now }
{
    for n in numbers {
        if is_large(*n) {
            return true;
        }
    }
    false
}

fn large_in_places(places: &[Place]) -> Option<Refusal>
    ensures { result ≡ first_of sizes.large_in_place places.now }
{
    for place in places {
        if let Some(refusal) = large_in_place(place) {
            return Some(refusal);
        }
    }
    None
}

fn large_in_place(place: &Place) -> Option<Refusal>
    ensures { result ≡ sizes.large_in_place place.now }
{
    match place {
        Place::Loop {
            var: _,
            range: Some(range),
            line,
        } => broken(range.1 <= range.0, Rule::M4, *line).or(broken(
            is_large(range.0) || is_large(range.1),
            Rule::M5,
            *line,
        )),
        Place::Loop {
            var: _,
            range: None,
            line: _,
        } => None,
        Place::Let => None,
        Place::Use {
            dimension: _,
            index,
            line,
        } => broken(is_large(index.offset.unsigned_abs()), Rule::M5, *line),
    }
}

fn is_large(n: u64) -> bool
    ensures { result ≡ sizes.is_large n }
{
    n > 1_099_511_627_776
}
