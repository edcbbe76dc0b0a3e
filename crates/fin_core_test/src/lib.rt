//! Tests of effects: that what chunks add ends alike in several orders of events, and through shards.
#![tactic(auto)]

#[cfg(test)]
mod ends;
