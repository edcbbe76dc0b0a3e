//! A tensor function in code: an ordered map from coordinates to the values other than the fill.
//!
//! Contracts see a `Grid` as the tensor function that it holds. Each entry lies in the box and has a word other than the
//! fill. A value is found in as many steps as the map is deep, and only entries other than the fill take memory.
#![tactic(auto)]

mod grid;
mod places;

pub use grid::Grid;
pub use places::is_in_box;
