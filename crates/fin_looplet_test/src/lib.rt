//! Tests of looplets: what those of fibres, masks and shifts show at each coordinate, worked out by hand.
#![tactic(auto)]

#[cfg(test)]
mod looplets;
