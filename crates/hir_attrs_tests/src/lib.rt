//! Tests of `hir_attrs`: tables of marks, written by hand, against what the calls answer.
//!
//! Marks are written as in Rust, with a space around each part of a condition, and what they come to as the fields that are set, and
//! the rules that are broken, each with its arguments:
//!
//! ```text
//! ("*, disable; any( js auto ), disable", "disable !MarkRepeated(disable) !AutoIneligible(disable)")
//! ```
//!
//! The crate is one of its own, since a crate with tests is proved once more with them.
#![tactic(auto)]

#[cfg(test)]
mod tests;
