//! Tests of running loop code: codes whose outcome was worked out by hand, one for each kind of expression and statement.
#![tactic(auto)]

#[cfg(test)]
mod regularity;
#[cfg(test)]
mod runs;
