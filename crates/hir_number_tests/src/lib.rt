//! Tests of `hir_number`: signatures and definitions with the numbers of their lifetimes, worked out by hand.
#![tactic(auto)]

#[cfg(test)]
mod tests;
