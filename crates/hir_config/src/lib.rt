//! How declarations are lowered.
//!
//! Named as in the crate `diplomat_core`, whose module `hir::lowering` this restates.
#![tactic(auto)]

mod config;

pub use config::LoweringConfig;

#[cfg(test)]
mod tests;
