//! The point styles: the steps that leave no looplets but runs, and of a region one coordinate after another.
//!
//! `specs/Steps.antt` says each step as a function from a nest to its parts and to the code between them. A spike
//! becomes two runs by a cut at its region's end; all shifts are pushed inside at once; the first switch is its first
//! case or the others; runs and lookups are a loop over the coordinates, with each lookup a run at its coordinate, or
//! code that does a fixed thing at once; and of a nest whose body does nothing no part is left.
//!
//! The laws say of each step, in both senses of nests, when code that means the parts, with the code between them,
//! means the nest: a loop's part with a turn counted behind it. Where the condition on jumpers holds of the nest, it
//! holds of each part when the code between them comes to it. Where a nest has a looplet of the step's style, or of
//! runs and lookups weighs something, each part weighs less; and no part depends on what its code changes. What a
//! part's body does is left to its code.
//!
//! `Nest` and `Parts` are those of the program. `step` makes the parts of a nest by the first style that one of its
//! looplets has, and the frame for their codes (`specs/Parts.antt`); whatever stands behind the nest, codes that mean
//! the parts, in the frame, mean it (`specs/Splits.antt`), and `join` puts them there. Where the body is one update,
//! the same at each coordinate of runs and lookups, `at_once` is its code for all of them (`specs/Changes.antt`): one
//! update by the value that does what so many do, at cost 2.
#![tactic(auto)]

mod changing;
mod codes;
mod heads;
mod joining;
mod laws;
mod nest;
mod reads;
mod sides;
mod stepping;

pub use changing::{Change, at_once};
pub use codes::{either_code, within_code};
pub use joining::join;
pub use laws::{
    fixed_is_at_once, loops_split, nothing_is_skipped, parts_are_stepped, shifts_split,
    spikes_split, statements_are_updates, switches_split, updates_are_at_once,
};
pub use nest::{Branch, Frame, Nest, Parts};
pub use stepping::step;
