//! Loop code: what it is, and what it does.
//!
//! A `Plan` is code with the layout of the tensors and locals that it names. Its meaning is a total function on a machine
//! of locals, tensors, charges and turns, which `specs/` defines; `fin_run` runs it. Here stand the types, with equal
//! copies, and in `proofs/` what crates above need of the meaning: an equation for each kind of node, how loops go on,
//! and that charges and turns only rise.
#![tactic(auto)]

mod code;
mod copy;
mod expression;
mod layout;

pub use code::Code;
pub use expression::{IExpr, Table};
pub use layout::{Layout, Plan, RunError};
