//! The store of all definitions of an interface: a [`TypeContext`], in which all fits together.
//!
//! # From parts to a context
//!
//! [`ContextParts`] has the definitions of each kind in their order, each beside the path of its
//! module. An id is the place of a definition among those of its kind. One example runs through this
//! crate:
//!
//! ```text
//! mod book {
//!     #[diplomat::opaque] pub struct Page<'a>(..);
//!     pub struct Line<'a> { page: &'a Page<'a>, next: Option<Rest<'a>> }
//!     pub struct Rest<'a> { text: &'a DiplomatStr }
//! }
//! ```
//!
//! It has one opaque and two structs: the ids of `Line` and `Rest` are the structs 0 and 1.
//!
//! [`TypeContext::new`] takes the parts, copies nothing, and answers with a context only where they
//! fit (`specs/Fitness`):
//! - each id that a definition names is one of a definition: `Line` names the opaque 0 and the
//!   struct 1;
//! - each path has as many lifetimes as the definition that it names: one;
//! - each lifetime is one of the environment that it stands in;
//! - structs nest well: `Line`, with `Rest` inside, is a chain of two, and each chain of structs
//!   ends after 256 at most.
//!
//! Else it answers with an [`Unfit`](hir_fitting::Unfit): what holds it, and what is named. Were the
//! field `page` to name the opaque 1, that would be the struct 0 and the opaque 1; were `Rest` to
//! hold a `Line`, it would be the struct 0 twice.
//!
//! # What a context offers
//!
//! | call | answer |
//! |---|---|
//! | `structs`, `opaques` and their kin | the definitions of a kind, in the order of their ids |
//! | `all_types`, `all_traits`, `all_free_functions` | the definitions with their ids: `Line` with the struct 0, `Rest` with the struct 1, `Page` with the opaque 0 |
//! | `contains_symbol` | whether there is a definition of an id |
//! | `resolve_struct`, `resolve_opaque` and their kin | the definition of an id, which is there |
//!
//! That everything fits is part of what a context is: its ghost field `fits` says so, and whoever
//! follows an id that stands in a definition needs no test.
//!
//! Named as in the crate `diplomat_core`, whose module `hir::type_context` this restates.
#![tactic(auto)]

mod context;
mod fitting;
mod iterating;
mod laws;
mod lookups;
mod parts;

pub use context::{ContextFault, TypeContext};
pub use iterating::{AllFunctions, AllTraits, AllTypes};
pub use laws::{ids_resolve_to_their_definitions, what_fits_has_nothing_unfit};
pub use parts::{ContextParts, Definitions, Listed, Placed};
