//! What a callable's inputs may be borrowed through, read off declarations, and that this is what is
//! read off what they are lowered to.
//!
//! A method may return what it borrows from its inputs. Which parts of them these are is read twice:
//! readers of an interface read it off declarations, and backends off the definitions that a context
//! has. This crate says the first, and that both agree. One example runs through it:
//!
//! ```text
//! #[diplomat::opaque] pub struct Page<'a>(..);
//! pub struct Mark<'x, 'y> { page: &'x Page<'y>, line: u32 }
//! fn open<'a, 'b: 'a>(mark: DiplomatOption<Mark<'a, 'b>>) -> &'a Page<'b>;
//! ```
//!
//! # Read off declarations
//!
//! The types of a declaration have numbers as lifetimes: 'x and 'y are 0 and 1 in `Mark`, and 'a and
//! 'b are 0 and 1 in `open`. Each has a skeleton, which keeps of it only what counts
//! (`specs/NumberedSkeletons`):
//!
//! | type | skeleton |
//! |---|---|
//! | a reference to an opaque, also in an option: `page` | a carrier of its lifetime and then of the opaque's generics: 0, 1 |
//! | a slice with lifetimes | a carrier of its own, then its elements' reference's and generics |
//! | a struct by value or by reference | the struct at its place, with the generics that it is given |
//! | an option: `mark` | that of what is inside: the struct `Mark` with 0 and 1 |
//! | anything else, as `line` or a list of texts | nothing |
//!
//! Which fields the struct at a place has, and which methods and functions there are, is read off the
//! items of modules (`specs/Declared`): a disabled struct has no fields. Leaves and edges of the
//! inputs of a numbered signature are then those that `hir_skeleton` defines (`specs/Inputs`): the
//! leaf of `mark` is at 0, 0 and carries 0 and 1, and its edges are for 'x and 'y of `Mark`.
//!
//! # Read off what they are lowered to
//!
//! Lowered types know structs by ids: `Mark` is the struct 0. The skeleton of what a type stands for
//! is that of the type, where each place has its id (`specs/Knowing`),
//! [`forms_have_the_skeletons_of_their_types`]. By what structs are known makes no difference to
//! leaves, and none to edges but for that, [`readings_know_structs_by_anything`]. The definitions of
//! all items have the declared fields, [`lowered_structs_have_the_declared_fields`].
//!
//! # What is asked of leaves
//!
//! Lists are made for the lifetimes that a return names: of `open` these are 'a and 'b. They are read
//! off the numbered type (`specs/NamedLifetimes`), and what it stands for names the same,
//! [`returns_name_the_lifetimes_of_their_types`].
//!
//! # Both agree
//!
//! So the lowered methods of a type are its enabled methods in order, each with the same lifetimes,
//! the same leaves, and the same edges by any test of lifetimes; and so are functions
//! (`specs/Readings`), [`lowered_definitions_are_read_as_declared`]. A context keeps their fields and
//! methods as they are, [`contexts_are_read_as_declared`]. A list of leaves under a lifetime is made
//! of leaves and of the bounds between lifetimes, so it is the same too.
//!
//! This crate has definitions and their laws, and no code. What is said here restates the modules
//! `hir::methods::borrowing_field` and `hir::methods::borrowing_param` of the crate
//! `diplomat_core`, for declarations.
#![tactic(auto)]

mod contexts;
mod laws;

pub use contexts::contexts_are_read_as_declared;
pub use laws::{
    forms_have_the_skeletons_of_their_types, lowered_definitions_are_read_as_declared,
    lowered_structs_have_the_declared_fields, readings_know_structs_by_anything,
    returns_name_the_lifetimes_of_their_types,
};
