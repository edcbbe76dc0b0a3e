//! Tests of the lower crates: what no clause says of their public calls, as tables.
//!
//! That a call succeeds in ample memory, that texts and storages that were worked out by hand come out as they stand, and that
//! two threads may share the tables of workers.
#![tactic(auto)]

#[cfg(test)]
mod builders;
#[cfg(test)]
mod canonical;
#[cfg(test)]
mod claims;
#[cfg(test)]
mod command_line;
#[cfg(test)]
mod freezes;
#[cfg(test)]
mod grids;
#[cfg(test)]
mod lists;
#[cfg(test)]
mod plans;
#[cfg(test)]
mod ports;
#[cfg(test)]
mod storages;
#[cfg(test)]
mod texts;
#[cfg(test)]
mod tokens;
#[cfg(test)]
mod trees;
#[cfg(test)]
mod turns;
#[cfg(test)]
mod words;
