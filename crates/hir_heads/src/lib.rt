//! What the heads of declarations come to: names, lifetimes, marks and documents.
//!
//! One example runs through this crate:
//!
//! ```text
//! /// A line of text.
//! #[diplomat::attr(auto, rename = "Row")]
//! pub struct Line<'a, 'fn> { .. }
//! ```
//!
//! Much of a declaration has nothing to do with the types in it: whether its names are identifiers, what its marks say for a
//! backend, and what documents it there. This crate lowers these parts; a declaration's types are lowered by the crates that know
//! positions.
//!
//! # What is told and what is made
//!
//! All that is wrong is told, and nothing ends the walk through a declaration but want of memory. So each call here has the same
//! three clauses. `told` has the exact list of what the store gains, in order, at the place where it stands. `made` has what the
//! part stands for, which is made wherever nothing is told of it. `kept` says that what the store held is still the front of what
//! it holds, also where memory ends.
//!
//! In the example the lifetime `'fn` has a name that is no identifier, so that is told and there is no environment
//! ([`lower_lifetimes`]), while the name `Line` is made ([`lower_ident`]). The marks start from those of the module, as far as it hands
//! them on ([`lower_notes`]).
//!
//! # Which names are identifiers
//!
//! `bridge_text` says it as a relation, for readers. Lists of what is told need a test, `is_ident` of `specs/Names`; that the two
//! agree is a law ([`identifiers_are_tested`]).
//!
//! As in the crate `diplomat_core`, module `hir::lowering`, where each kind of definition does this on its way.
#![tactic(auto)]

mod laws;
mod lifetimes;
mod names;
mod notes;

pub use laws::identifiers_are_tested;
pub use lifetimes::{lower_lifetimes, tell_lifetimes};
pub use names::lower_ident;
pub use notes::{Notes, lower_notes};
