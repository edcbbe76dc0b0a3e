//! Accesses and expressions as loop code.
//!
//! `push_value` appends the code of an expression's accesses, and gives an expression of loop code over what they
//! leave. An access goes from level to level of its tensor by positions: through a dense level by product and sum,
//! through others by a search in the fibre. It leaves its value in a local of its own; a variable has the local of its
//! number.
//!
//! The code is that of `specs/`, term for term, and the laws say what that code means. Where code sees each tensor that
//! can be read as a storage of its function, the code of an expression has the value that the language gives it, and
//! the locals before its first free one stay as they were. It names locals and tensors of the layout alone. The code of
//! a count has the number of values that a storage holds.
#![tactic(auto)]

mod counts;
mod laws;
mod parts;
mod reads;
mod values;

pub use counts::count_expr;
pub use laws::{counts_mean, reads_mean, values_are_named, values_mean};
pub use parts::{Place, push};
pub use reads::{in_box, push_first, push_levels};
pub use values::{Heads, Value, format_of, index_codes, push_value, shape_of};
