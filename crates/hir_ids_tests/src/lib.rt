//! Tests of `hir_ids`: names of primitive types, owners, and ids with their conversions and order,
//! as tables that were made by hand.
//!
//! They are a crate of their own, since a crate with tests is proved once more with them.
#![tactic(auto)]

#[cfg(test)]
mod tests;
