//! The coordinates that lead to one place of a level.
ghost use Rattle.std.specs.Prelude.{◌≡◌, ◌+◌, ◌-◌, ◌^◌, ◌<◌, ◌≤◌, length, slice_index, if◌then◌else◌, nat_eq};
ghost use Rattle.fin_tensor.specs.Levels.{IsAt, fibre_from, fibre_to};
ghost use Rattle.fin_freeze.specs.Thawing.{IsSpan};

use fin_tensor::Part;

/// The coordinates from..to.
#[derive(Clone, Copy)]
pub struct Span {
    pub from: u64,
    pub to: u64,
}

/// The coordinates of a place in the fibre at a position: those of a run, or one.
pub fn span_of(part: &Part, extent: u64, pos: u64, place: u64) -> Span
    requires at { IsAt extent part.now pos }
    requires low { fibre_from extent part.now pos ≤ place }
    requires high { place < fibre_to extent part.now pos }
    ensures { IsSpan extent part.now pos place result.from result.to }
{
    match part {
        Part::Dense => one(place - pos * extent),
        Part::Keys { ptr: _, idx } => one(*idx.get(place as usize)),
        Part::Runs { ptr, stop } => Span {
            from: run_start(*ptr.get(pos as usize), stop.as_slice(), place),
            to: *stop.get(place as usize),
        },
        Part::Band { ptr, start } => {
            one(*start.get(pos as usize) + (place - *ptr.get(pos as usize)))
        }
    }
}

fn one(at: u64) -> Span
    requires { at < 2 ^ 40 }
    ensures from { result.from ≡ at }
    ensures to { result.to ≡ at + 1 }
{
    Span {
        from: at,
        to: at + 1,
    }
}

// A run begins where the one before it ends.
fn run_start(first: u64, stop: &[u64], place: u64) -> u64
    requires low { first ≤ place }
    requires high { place ≤ length stop.now }
    ensures { result ≡ (if nat_eq place first then 0 else slice_index stop.now (place - 1)) }
{
    if place == first {
        0
    } else {
        stop[place as usize - 1]
    }
}
