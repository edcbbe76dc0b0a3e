//! Tensors: what one is as a function, how it is stored, and the small list types of all plain data.
//!
//! A `Storage` is always valid, and its format is bare and keeps the placement. It stands for one tensor function, whose
//! values `at` gives; `child`, `fibre` and `search` go down its levels. None of the four takes memory. Where a loop along
//! one fibre breaks, where the fibre varies and how many places it has stands in `specs/`.
#![tactic(auto)]

mod coords;
mod draft;
mod duplicate;
mod format;
mod laws;
mod lines;
mod order;
mod outputs;
mod part;
mod placement;
mod places;
mod seq;
mod storage;

pub use coords::Coords;
pub use draft::Draft;
pub use duplicate::Duplicate;
pub use format::{Format, Level, Levels, Wrap};
pub use laws::{
    agreeing_are_equal, ends_are_breaks, gives_one_place, keeps_tensors, stored_are_few,
    tabulated_gives, valid_by_lines,
};
pub use lines::is_shape;
pub use order::ordered_levels;
pub use outputs::{Outputs, StoreFail};
pub use part::Part;
pub use placement::{has_small_dense_size, keeps_placement};
pub use places::Fibre;
pub use seq::{Name, Nums, Seq, Vals};
pub use storage::Storage;
