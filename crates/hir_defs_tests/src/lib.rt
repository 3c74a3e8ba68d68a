//! Tests of `hir_context` and `hir_defs`: contexts that are made by hand, right ones and wrong ones,
//! and what is asked of them.
//!
//! They are a crate of their own, since a crate with tests is proved once more with them.
#![tactic(auto)]

#[cfg(test)]
mod tests;
