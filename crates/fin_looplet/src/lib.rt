//! Looplets: what a read sees along the coordinates of a loop, as data.
//!
//! A `Looplet` says in one value how the leaves of a fibre, a mask or a shifted fibre follow one another: runs, spikes,
//! lookups, sequences, walkers, choices and shifts. `specs/` says what it means: at each coordinate of a region what is
//! seen there, whether that varies, and whether a part or a walker's child ends behind it; when it is sound; which locals
//! and tensors it depends on; and what it weighs. Here stand the types, with equal copies; `cut`, for a region that ends
//! before, and `moved`, for coordinates that are shifted, with what both keep; and whether looplets weigh nothing.
#![tactic(auto)]

mod copy;
mod cut;
mod laws;
mod looplet;
mod moved;
mod parts;
mod point;

pub use laws::{cut_keeps, frame_holds, moved_keeps, reach_is_near};
pub use looplet::{Case, Leaf, Looplet, Phase, Walker};
pub use moved::put;
pub use parts::{before, minus, plus};
pub use point::{is_point, is_same, weighs_nothing};
