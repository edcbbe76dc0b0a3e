//! Freezing and thawing: from a builder to the canonical storage of its function, and from a storage to a builder of
//! the function that it stands for.
//!
//! A freeze goes through the builder's entries. A thaw goes over what the storage stores, level by level: a coordinate
//! that is not stored is not visited.
#![tactic(auto)]

mod freezes;
mod spans;
mod thaws;

pub use freezes::freeze;
pub use thaws::thaw;
