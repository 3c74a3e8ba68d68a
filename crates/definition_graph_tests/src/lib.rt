//! Tests of `definition_graph`: small graphs with flags, depths, orders and totals that were worked out by hand.
//!
//! They are a crate of their own, since a crate with tests is proved once more with them.
#![tactic(auto)]

#[cfg(test)]
mod tests;
