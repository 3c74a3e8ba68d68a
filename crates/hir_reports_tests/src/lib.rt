//! Tests of `hir_reports`: the texts of all rules, places and lines, and what a store of reports holds.
//!
//! They are a crate of their own, since a crate with tests is proved once more with them.
#![tactic(auto)]

#[cfg(test)]
mod tests;
