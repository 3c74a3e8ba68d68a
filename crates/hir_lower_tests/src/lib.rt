//! Tests of `hir_lower`: tables of declarations with what is told of them, or with the context that they make, worked out by hand.
//!
//! Declarations are written in Rust's notation, and what is told as places with rules and their arguments:
//!
//! ```text
//! ("opaque O impl { fn m(x: &Q) -> &O }", "O::m UnresolvedPath(Q)")
//! ```
//!
//! The notation is expanded to the input that `bridge_read` reads, so the tests begin where a program does. The crate is one of its own,
//! since a crate with tests is proved once more with them.
#![tactic(auto)]

#[cfg(test)]
mod tests;
