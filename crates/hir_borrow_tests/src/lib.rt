//! Tests of `hir_borrow` and the visitors below it: contexts that are made by hand, with what may
//! be borrowed in them.
//!
//! They are a crate of their own, since a crate with tests is proved once more with them.
#![tactic(auto)]

#[cfg(test)]
mod tests;
