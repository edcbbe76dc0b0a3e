//! Builders: tensors while they are updated.
//!
//! Contracts see a `Builder` as its format, the tensor function that it holds, and the coordinates of the last update
//! where some level is filled in order. An update changes one coordinate's value. After want of memory a builder is
//! unchanged, unless its call says otherwise.
#![tactic(auto)]

mod builder;
mod places;
mod rows;

pub use builder::Builder;
