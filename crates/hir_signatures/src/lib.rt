//! All that is wrong with the types of a method or a function, or else what these types are lowered to.
//!
//! One example runs through this crate:
//!
//! ```text
//! #[diplomat::opaque] pub struct Page(..);
//! impl Page {
//!     pub fn pick<'a>(&'a self, y: &'c Line, z: Page) -> &'a Page;    there is no Line
//!     pub fn first(x: &Page, y: &Page) -> &Page;
//!     pub fn join(&self, other: Page) -> Box<Page>;
//!     pub fn next(&self) -> Option<&Page>;
//! }
//! ```
//!
//! # Three passes
//!
//! Types are tested in three passes, which stand in other crates, and each needs that the one before found nothing. This crate runs
//! them for one declaration, and tells what they find as reports.
//!
//! - *Paths and lifetimes by themselves.* `hir_number` finds the breaches: in `pick` the lifetime `'c` isn't declared, and the path
//!   `Line` names nothing. Both are told, in the order in which they stand, and nothing else of its types: that `z` is an
//!   opaque by value isn't told before they are mended.
//! - *Numbers for lifetimes.* `first` has no breach, but its return leaves a lifetime out, and either parameter has one: its source is
//!   ambiguous. A signature has one such fault at most.
//! - *Types where they stand.* `join` has numbers, and `other` is an opaque by value. `bridge_grid` finds all faults of the types,
//!   and all are told.
//!
//! In `next` nothing is wrong. So it is lowered, as `hir_form` says: to a borrowed receiver, and a borrowed opaque that may be absent.
//! The lifetimes that it leaves out are numbers after those that it declares ([`SignatureTypes`]).
//!
//! # How far the types come
//!
//! How far the types of a declaration come is a [stage](crate::lower_method_signature) of `specs/Stages`: with breaches, without numbers
//! or judged. Which stage it is follows from the declaration (`ComesTo`), and by the stage one definition says what is told
//! (`stage_errors`) and one what is made (`IsMade`).
//!
//! The name of a declared lifetime that is no identifier is a fault too. It is told with the other names, by `hir_heads`, and not here; but
//! what has such a name isn't numbered. So its breaches are told, and nothing else of its types.
//!
//! # Reports
//!
//! A breach is a report of the rule of its name ([`breach_error`]). Its argument is the path as it is written, without lifetimes and with
//! `::` between its segments, or the name of the lifetime, without the apostrophe. A fault of numbers has no argument
//! ([`tell_number_fault`]).
//!
//! As in the crate `diplomat_core`, module `hir::lowering`, where one walk through a signature does all of this, and ends a type at its
//! first fault.
#![tactic(auto)]

mod breaches;
mod faults;
mod idents;
mod signatures;

pub use breaches::{breach_error, tell_breaches};
pub use faults::tell_number_fault;
pub use signatures::{SignatureTypes, lower_function_signature, lower_method_signature};
