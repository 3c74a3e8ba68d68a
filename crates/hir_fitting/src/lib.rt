//! Whether all that definitions name is there.
//!
//! A definition names others by their ids, gives them lifetimes, and borrows for lifetimes. One
//! example runs through this crate:
//!
//! ```text
//! #[diplomat::opaque] pub struct Page<'a>(..);
//! pub struct Line<'a> { text: &'a DiplomatStr }
//! pub struct Pair<'a> { left: Line<'a>, right: Option<Line<'a>>, color: Color }
//! impl<'a> Page<'a> {
//!     pub fn find<'p>(&'p self, test: impl Fn(Line<'p>) -> bool) -> Option<Box<Page<'a>>>;
//! }
//! ```
//!
//! # The census
//!
//! An id is the place of a definition among those of its kind, so a number that is too large names
//! nothing. A [`Census`] knows how many definitions there are of each kind, and how many lifetimes
//! each has: here two structs with one lifetime each, one opaque with one, and one enum.
//! [`Census::arity_of`] answers for one id in one step.
//!
//! # What fits
//!
//! | what is named | it fits where |
//! |---|---|
//! | `Line` with `'a` | there is a struct of this id, it has one lifetime, and `'a` is known |
//! | `Color` | there is an enum of this id |
//! | the lifetime `'p` | `'p` is known |
//!
//! A lifetime is known where it is `'static` or one of the environment that it stands in, and that
//! is another for each part of a definition:
//!
//! | part | its environment |
//! |---|---|
//! | the fields of `Pair` | the lifetimes of `Pair`: `'a` |
//! | the method `find`, or a function | the lifetimes of its signature: `'a` and `'p` |
//! | the methods of a trait | none is kept, so their lifetimes may be any |
//! | how a type is used, and its special methods | none is kept either |
//!
//! # What doesn't fit
//!
//! [`struct_misfit`], [`opaque_misfit`], [`enum_misfit`], [`trait_misfit`] and [`function_misfit`]
//! go through the parts of one definition. They answer `None` exactly where all fits, and else an
//! [`Unfit`], which says what holds it and what is told of it:
//!
//! | what is wrong | what is told |
//! |---|---|
//! | `Pair` names a struct of place 2, and there are two | that struct |
//! | `Pair` names `Line` with no lifetime | `Line` |
//! | the fields of `Pair` have a second lifetime | `Pair` |
//!
//! A law, [`what_has_no_misfit_fits`], says that these three are all that can be wrong.
//!
//! The definitions are those of the crate `diplomat_core`, modules `hir::defs`, `hir::types` and
//! `hir::methods`.
#![tactic(auto)]

mod census;
mod definitions;
mod fitting;
mod laws;
mod parts;

pub use census::{Census, TakesLifetimes};
pub use definitions::{
    Unfit, enum_misfit, function_misfit, opaque_misfit, struct_misfit, trait_misfit,
};
pub use laws::what_has_no_misfit_fits;
