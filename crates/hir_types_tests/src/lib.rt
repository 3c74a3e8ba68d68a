//! Tests of `hir_types`: what positions have, lifetimes and queries of types, receivers and
//! returns, and copies, against values that were worked out by hand.
//!
//! They are a crate of their own, since a crate with tests is proved once more with them.
#![tactic(auto)]

#[cfg(test)]
mod tests;
