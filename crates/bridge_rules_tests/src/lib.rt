//! Tests of `bridge_rules` and `bridge_grid`: the table of positions row by row, written by hand, against what the calls answer.
//!
//! A row is a type in Rust's notation and what it breaks at each position, with all features of the backend off and with all on:
//!
//! ```text
//! ("&'a S", "struct_refs*2 CallbackReturnShape ReferenceTarget*3", "ok*2 CallbackReturnShape ReferenceTarget*3")
//! ```
//!
//! The crate is one of its own, since a crate with tests is proved once more with them.
#![tactic(auto)]

#[cfg(test)]
mod tests;
