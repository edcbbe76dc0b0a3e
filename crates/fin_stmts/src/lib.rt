//! Statements of a program as loop code that skips what isn't stored.
//!
//! `lower_body` gives the codes of a program's statements and how many locals they need. A statement of which nothing is
//! left by what is known has no code. A loop has the codes of its entry, and behind them that of its nest: it is laid flat
//! (`fin_descend`), and each leaf has the codes of the loop's body under what is known at its coordinate, or those of the
//! one update that is left along it, at once where that names nothing of the loop, or none.
//!
//! The codes are made wherever a statement stands (`specs/Places.antt`). `specs/Lowering.antt` says what they are: they mean
//! the statement, leave what is around it as it was in any machine, and declare only tensors that its text declares.
#![tactic(auto)]

mod at_once;
mod entered;
mod fixed;
mod leaves;
mod names;
mod nests;
mod only;
mod place;
mod statements;
mod unbodied;

pub use place::Codes;
pub use statements::lower_body;
