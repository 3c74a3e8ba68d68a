//! What a declaration gives: its numbered signature, and the stage to which its types come.
//!
//! One example runs through this crate:
//!
//! ```text
//! #[diplomat::opaque] pub struct Page<'a>(..);
//! fn find<'a, 'b>(page: &'a Page<'b>) -> &'a Page<'b>;
//! ```
//!
//! # Numbers, filled in
//!
//! `hir_number` says by a relation which numbered signature is that of a declaration: it has the declaration's types, but for lifetimes, and its
//! numbers are those of the uses of lifetimes, in order. Here it is a function: the types without lifetimes, `&'_ Page<'_>` twice, into which the
//! lists of numbers are filled one after another: 0; 1; 0; 1. That both agree is the law [`a_declaration_is_numbered_once`]. So no declaration
//! is numbered in two ways.
//!
//! # The stage
//!
//! `hir_signatures` says by a relation to which stage the types of a declaration come: with breaches, with a declared name that is no identifier,
//! without numbers, or judged. Here it is a function too: first by the breaches, then by the names, then by the numbers. `find` has no breach, its
//! names are identifiers, and its uses have numbers: it is judged, with the signature above. That both agree is the law
//! [`stages_are_given`]. So what is told of a declaration, and what is made of it, is given by the declaration alone.
//!
//! This crate has definitions and their laws, and no code.
#![tactic(auto)]

mod laws;

pub use laws::{a_declaration_is_numbered_once, stages_are_given};
