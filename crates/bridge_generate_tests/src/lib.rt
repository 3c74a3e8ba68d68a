//! Tests of `bridge_generate`: the declarations for small numbers, as texts, and that many are made.
//!
//! They are a crate of their own, since a crate with tests is proved once more with them, and the declarations are large.
#![tactic(auto)]

#[cfg(test)]
mod tests;
