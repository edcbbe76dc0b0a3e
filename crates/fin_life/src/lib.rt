//! Modes of tensors: puts freeze and thaw into a program, and the rules on the life of tensors and on the order of
//! their updates.
#![tactic(auto)]

mod breach;
mod insertion;
mod life;
mod loops;
mod mentions;
mod modes;
mod order;
mod tracks;

pub use insertion::complete;
pub use life::check_life;
pub use order::check_order;
