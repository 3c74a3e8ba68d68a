//! How structs nest: which contain themselves, and which nest too deep to be laid out.
//!
//! A struct contains the structs that its fields are, by value, in options or by reference. One
//! example runs through this crate, of one out-struct and three structs:
//!
//! ```text
//! #[diplomat::out] pub struct Found { pair: Pair }
//! pub struct Pair { left: Line, right: Option<Line>, rest: Chain }
//! pub struct Line { color: Color }
//! pub struct Chain { next: DiplomatOption<Chain> }
//! ```
//!
//! # The graph
//!
//! Structs are numbered, out-structs before the others, each kind in its own order. An edge leads
//! from each to those that it contains (`specs/Structs`):
//!
//! | number | struct | contains |
//! |---|---|---|
//! | 0 | `Found` | 1 |
//! | 1 | `Pair` | 2, 2, 3 |
//! | 2 | `Line` | |
//! | 3 | `Chain` | 3 |
//!
//! The elements of slices aren't contained, and no more is what stands in an opaque, so a struct may
//! hold a slice of itself.
//!
//! # What is wrong
//!
//! [`nesting_faults`] answers for each struct, in the order of the numbers (`specs/Faults`):
//! - [`NestingFault::ContainsItself`] where a chain leads from it back to it: here of `Chain` alone.
//!   `Found` and `Pair` lead to such a struct, but don't contain themselves;
//! - [`NestingFault::NestsTooDeep`] where its chains end, but one has more than [`MOST_LEVELS`]
//!   structs, with itself;
//! - none else.
//!
//! [`nesting_misfit`] answers with the first that has a fault: here with `Chain`. Where it answers
//! with none, every chain of structs ends after 256 of them at most, so that whoever goes from a
//! struct to those that it contains comes to an end.
//!
//! The rules are this repository's own: the crate `diplomat_core` lets the Rust compiler refuse what
//! contains itself, and knows no limit.
#![tactic(auto)]

mod containment;
mod fault;
mod laws;
mod nesting;

pub use fault::NestingFault;
pub use laws::what_nests_well_has_no_fault;
pub use nesting::{MOST_LEVELS, nesting_faults, nesting_misfit};
