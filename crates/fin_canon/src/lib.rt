//! Canonical storages: `store` makes them, and what is true of them.
//!
//! `store` gives the canonical storage of the function that entries name, or says that it is too large. It goes over the
//! entries level by level: each kept prefix is a range of them. Entries that have the fill are passed over. Its work is
//! proportional to the entries and to the numbers that are stored: no prefix is gone over where dense levels alone stand
//! before an extent of 0. The sizes are counted before memory is taken.
//!
//! The canonical storage of a tensor function stands for it, is valid where its size allows, and is the only storage of
//! its form. That of the function of a storage is valid in the storage's format.
#![tactic(auto)]

mod blocks;
mod build;
mod counts;
mod cuts;
mod entry;
mod groups;
mod laws;
mod levels;
mod lists;
mod runs;

pub use build::store;
pub use laws::{
    canonical_is_unique, canonical_is_valid, canonical_stands, canonical_stays_valid, entries_name,
    named_by_entries,
};
