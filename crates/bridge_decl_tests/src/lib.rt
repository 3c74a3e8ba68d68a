//! Tests of `bridge_text` and `bridge_decl`: copies, identifiers, the index of names, patterns of names, and texts as keys.
//!
//! They are a crate of their own, since a crate with tests is proved once more with them, and the declarations are large.
#![tactic(auto)]

#[cfg(test)]
mod tests;
