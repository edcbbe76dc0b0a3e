//! From the tokens of a program's text to its trees: the grammar, and the rules on names, formats and fills.
//!
//! The grammar is a table of forms, each a row of symbols. `read_trees` gives the trees that the tokens stand for, and
//! these are the only ones; or it refuses by the first of three steps that has a breach, at its first breach in the order
//! of the text: the first token with which no text of the grammar goes on (`S2`), or that nests too deep (`S3`); a name
//! that stands for nothing that may stand there, is taken, or has another count of indices than levels (`N1` to `N3`); a
//! misplaced format, or a declaration with another value than the fill (`F1`, `F2`).
#![tactic(auto)]

mod breaches;
mod choice;
mod class;
mod counts;
mod cursor;
mod expressions;
mod fills;
mod format_words;
mod formats;
mod grammar;
mod header_trees;
mod headers;
mod heads;
mod indices;
mod laws;
mod names;
mod naming;
mod numbers;
mod program;
mod reader;
mod reserved;
mod roles;
mod scope;
mod statements;
mod syntax;
mod terms;
mod text;
mod text_forms;
mod text_names;
mod tree;
mod trees;
mod verdict;

pub use grammar::Form;
pub use laws::{program_or_breach, words_stand_for};
pub use program::parse;
pub use tree::Tree;
pub use trees::Text;
pub use verdict::read_trees;
