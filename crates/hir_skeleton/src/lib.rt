//! From where something may be borrowed: leaves, lists of them, and edges.
//!
//! What a method returns may borrow from what the method was given. Which parts of an input these
//! are is read off its lifetimes, and all that counts of its type is its skeleton. One example
//! runs through this crate:
//!
//! ```text
//! #[diplomat::opaque] pub struct Page<'a>(..);
//! pub struct Mark<'x, 'y> { page: &'x Page<'y>, line: u32 }
//! fn open<'a, 'b: 'a>(mark: DiplomatOption<Mark<'a, 'b>>) -> &'a Page<'b>;
//! ```
//!
//! # Skeletons
//!
//! A skeleton is nothing, a carrier with its lifetimes, or a struct with those that it is given.
//! The skeleton of `mark` is `Mark` with `'a` and `'b`: the option is left out. The fields of
//! `Mark` are a carrier of `'x` and `'y`, and nothing. Which types have which skeletons is said
//! apart from the rest, so that the laws hold of types however they are read.
//!
//! # Leaves and lists
//!
//! The leaves of an input are its carriers, at any depth, each with what it carries in terms of
//! the method: `mark.page` with `'a` and `'b`. The list under a returned lifetime has the leaves
//! of which a carried lifetime outlives it. `mark.page` stands in the list under `'a` and in that
//! under `'b`.
//!
//! # Edges
//!
//! Backends don't look into structs from outside. Each input has shallow edges, of which those of
//! a struct are one for each of its lifetimes that counts: of `mark` under `'a` they are for `'x`
//! and `'y`, under `'b` for `'y`. The struct itself knows what it borrows for each of its own
//! lifetimes. That both ways lead to the same leaves is [`edges_unfold_to_lists`].
//!
//! # Structs that are disabled
//!
//! A disabled struct is a struct without fields: it has edges, but no leaves, and nothing is found
//! where its edges are followed.
//!
//! This crate has definitions and their laws, and no code. What is said here restates the modules
//! `hir::methods::borrowing_field` and `hir::methods::borrowing_param` of the crate
//! `diplomat_core`.
#![tactic(auto)]

mod laws;

pub use laws::{
    disabled_structs_have_no_leaves, edges_unfold_to_lists, lists_are_what_outlives,
    lists_test_through_arguments, receivers_are_types, substitution_composes_along_nesting,
};
