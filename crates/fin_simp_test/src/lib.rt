//! Tests of simplification: bodies that were simplified by hand, and updates that are done many times at once.
#![tactic(auto)]

#[cfg(test)]
mod bodies;
#[cfg(test)]
mod repeats;
