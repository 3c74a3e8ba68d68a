//! Tests of `bridge_tool`: `run` over tables of inputs with what it answers, and over sources and sinks that fail.
//!
//! They are a crate of their own, since a crate with tests is proved once more with them.
#![tactic(auto)]

#[cfg(test)]
mod tests;
