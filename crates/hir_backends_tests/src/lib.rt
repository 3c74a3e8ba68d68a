//! Tests of `hir_backends`, `hir_docs` and `bridge_links`: conditions, flags and validators, documents with their links, and lines of links.
//!
//! They are a crate of their own, since a crate with tests is proved once more with them.
#![tactic(auto)]

#[cfg(test)]
mod tests;
