//! Syntax trees of tensor programs, whose names are numbers: a tensor by its header, a variable in order of binding.
//!
//! A `Program` keeps what the reader tests: names are bound, accesses have as many indices as the format has levels,
//! formats are well placed, a declaration gives the fill, and nesting stays within its limits.
#![tactic(auto)]

mod checked;
mod copy;
mod gather;
mod header;
mod mode;
mod place;
mod program;
mod spine;
mod tree;

pub use checked::{Checked, Dims, LoopWays, Ways};
pub use header::{Header, Kind};
pub use mode::Mode;
pub use place::{Place, Tie};
pub use program::Program;
pub use spine::{Head, Spine};
pub use tree::{Expr, Index, Stmt};
