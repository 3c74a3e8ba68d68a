//! Tests of `hir_elide`: the numbers of lifetimes in signatures and definitions, and what returns borrow for.
//!
//! They are a crate of their own, since a crate with tests is proved once more with them.
#![tactic(auto)]

#[cfg(test)]
mod tests;
