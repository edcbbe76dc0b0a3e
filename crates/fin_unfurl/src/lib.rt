//! The looplets of fibres, of masks and of shifted indices.
//!
//! `unfurl` makes the looplet of one fibre of a level: in locals in which the fibre stands at a position of a storage
//! it shows at each coordinate what the storage has there, breaks where the fibre does, and is sound; where it stands
//! at no position it shows the fill. `mask` makes the looplet of a comparison with a bound. `shift` moves a looplet,
//! into a box where one is given, with the fill outside of it.
#![tactic(auto)]

mod fibre;
mod masks;
mod parts;
mod shifts;
mod walks;

pub use masks::mask;
pub use shifts::shift;
pub use walks::unfurl;
