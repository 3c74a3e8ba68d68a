//! Tests of `hir_life`: walks, visits and flags against rows worked out by hand, substitution, names, copies, and declared lifetimes. And
//! of `hir_explain`, over the same environments: explanations, and what is said of right and wrong ones.
//!
//! They are a crate of their own, since a crate with tests is proved once more with them.
#![tactic(auto)]

#[cfg(test)]
mod tests;
