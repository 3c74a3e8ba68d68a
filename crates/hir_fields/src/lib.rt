//! All that is wrong with the fields of a struct or the variants of an enum, or else what these are lowered to.
//!
//! One example runs through this crate:
//!
//! ```text
//! #[diplomat::opaque] pub struct Page(..);
//! pub struct Line<'a> {
//!     /// What is written.
//!     #[diplomat::attr(auto, rename = "words")]
//!     pub text: DiplomatStrSlice<'a>,
//!     pub next: Option<u8>,
//!     pub fn: Page,
//! }
//! pub enum Side { Left = 1, Right = 2 }
//! ```
//!
//! # Fields
//!
//! A field has a name, marks and documents, and a type. The first three have nothing to do with other fields, and are told first,
//! field by field: here that the last is called `fn`, which is no identifier. The marks of a field start from the empty set, not
//! from those of its struct.
//!
//! The types of all fields of one struct are numbered together, by the lifetimes that the struct declares. So they come to a stage,
//! as the types of a method do in `hir_signatures`, and only what is wrong there is told:
//!
//! - *Paths and lifetimes by themselves*: a path that names nothing, a lifetime that isn't declared. `Line` has none of these.
//! - *Numbers for lifetimes*: a definition must name its lifetimes. Were the first field a slice without `'a`, that would be told.
//! - *Types where they stand*: `next` is an option of the standard library, which has no layout for another language and isn't
//!   allowed there, and the last field is an opaque by value. All three are told.
//!
//! Nothing ends the walk but want of memory. Where nothing is told the fields are made, in order ([`lower_fields`]). Out-structs differ
//! in two things: their fields stand at another position, and nothing is asked of their layout ([`lower_out_fields`]).
//!
//! A declared lifetime that has a name that is no identifier is told with the names, by `hir_heads`. Then nothing is told here of
//! types that have no breach, and nothing is made.
//!
//! # Variants
//!
//! A variant has a number in place of a type. `Left` and `Right` are made with theirs. Their marks start from what an enum hands
//! on to its variants ([`lower_variants`]).
//!
//! # Which types are laid out safely
//!
//! `bridge_grid` says by a relation which types a field of a struct may have for the sake of its layout. Lists of what is told need
//! a test, `is_safe` of `specs/Safety`; that the two agree is a law ([`layouts_are_tested`]).
//!
//! As in the crate `diplomat_core`, module `hir::lowering`, where the walk through a definition does all of this on its way.
#![tactic(auto)]

mod fields;
mod gathering;
mod heads;
mod idents;
mod joining;
mod kinds;
mod laws;
mod types;
mod variants;

pub use fields::{lower_fields, lower_out_fields};
pub use laws::layouts_are_tested;
pub use variants::lower_variants;
