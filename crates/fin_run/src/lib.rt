//! Running loop code.
//!
//! `run_code` runs code within a budget over the input storages and a `State`, which it changes. Together these stand for
//! a machine of `fin_ir`; a run that ends leaves exactly the machine that the meaning of the code leaves, with its charges
//! as the work. It is spent exactly where these exceed the budget. Its turns are counted in a ledger, and no more of them
//! than the code has. Every loop ends by its form. After an error a state is only dropped.
#![tactic(auto)]

mod chunks;
mod declared;
mod loads;
mod places;
mod run;
mod state;
mod statements;
mod storages;
mod value;
mod whole;

pub use state::{Held, State};
pub use storages::storage_at;
pub use whole::run_code;
