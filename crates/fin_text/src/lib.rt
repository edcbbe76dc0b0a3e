//! The text of tensors: lines of words, numbers in decimal.
//!
//! `write_tensor` puts exactly the text of a storage of any format. `read_tensors` reads a text of tensors line by line: each
//! line is taken where it is what is due there, or refused by the first of the rules `X1` to `X5` that it breaks.
#![tactic(auto)]

mod due;
mod forms;
mod laws;
mod names;
mod numbers;
mod pieces;
mod read;
mod take;
mod tensors;
mod words;
mod write;

pub use laws::{no_text_is_a_prefix, reads_back, reads_on};
pub use names::{is_name, name_from};
pub use numbers::{read_size, read_value};
pub use read::{Given, read_tensors};
pub use tensors::write_tensor;
pub use words::{read_sizes, read_values};
pub use write::WriteFail;
