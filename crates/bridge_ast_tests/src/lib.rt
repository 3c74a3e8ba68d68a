//! Tests of `bridge_ast`: the first faults of modules, what paths name, and long chains of aliases.
//!
//! They are a crate of their own, since a crate with tests is proved once more with them, and the declarations are large.
#![tactic(auto)]

#[cfg(test)]
mod tests;
