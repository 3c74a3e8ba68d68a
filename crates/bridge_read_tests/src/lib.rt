//! Tests of `bridge_read`: tables of inputs with what is answered, and inputs read part by part.
//!
//! They are a crate of their own, since a crate with tests is proved once more with them, and the reader is large.
#![tactic(auto)]

#[cfg(test)]
mod tests;
