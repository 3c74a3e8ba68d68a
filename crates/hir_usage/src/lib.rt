//! How definitions are used: in slices, in options, and in results.
//!
//! Most types are used as they are. Some uses want more of a backend: a view for slices, a struct
//! for options, and a union for each result. So a backend asks of each definition how it is used,
//! and makes these for those alone that need one. One example runs through this crate:
//!
//! ```text
//! #[diplomat::opaque] pub struct Page(..);
//! pub struct Line { number: u32 }
//! pub enum Color { Red, Blue }
//! pub struct Pair { left: DiplomatOption<Line>, right: Line }
//! impl Page {
//!     pub fn open() -> Option<Box<Page>>;
//!     pub fn find<'p>(
//!         pages: &'p [Option<&'p Page>],
//!         lines: &'p [Line],
//!         test: impl Fn() -> Result<Line, ()>,
//!     ) -> Result<Line, Color>;
//! }
//! ```
//!
//! # Uses
//!
//! A [`Use`] is one use of one definition. Each part of a definition has a list of them:
//!
//! | part | uses, in order |
//! |---|---|
//! | the fields of `Pair` | `Line` in an option |
//! | what `open` returns | `Page` in an option |
//! | `pages` | `Page` in an option, `Page` sliced |
//! | `lines` | `Line` sliced |
//! | `test` | `Line` in a result that comes in |
//! | what `find` returns | `Line` in a result that goes out, `Color` in the same |
//! | the method `find` | those of `pages`, `lines`, `test` and what it returns |
//!
//! What stands inside comes before what it stands in, parameters before what is returned, and the
//! types of a result before the result, which is a use of what its success names and then of what
//! its error names.
//!
//! # Options
//!
//! What is directly in an option of Diplomat's, or in what is returned and may be nothing, is in
//! an option. An opaque that may be absent is in one by itself: one that comes in where it is
//! borrowed, as in `pages`, and one that goes out where it is owned, as what `open` returns. A
//! borrowed opaque that goes out and may be absent is in none.
//!
//! [`method_usages`], [`field_usages`] and [`trait_usages`] give the lists. A list lends the results
//! that it names, copies none of them, and takes one step and one place a use.
//!
//! # Tables
//!
//! A [`UseTable`] has for each definition all that is known of how it is used. Uses are noted in
//! it one after the other, and results are kept in that order. After all parts above it says:
//!
//! | definition | sliced | in an option | results |
//! |---|---|---|---|
//! | `Page` | yes | yes | none |
//! | `Line` | yes | yes | one that comes in, one that goes out |
//! | `Color` | no | no | one that goes out |
//! | `Pair` | no | no | none |
//!
//! Upstream, the crate `diplomat_core`, notes this on definitions as it lowers them, in its module
//! `hir::lowering`.
#![tactic(auto)]

mod callbacks;
mod definitions;
mod positions;
mod returns;
mod tables;
mod types;
mod uses;

pub use callbacks::method_usages;
pub use definitions::{field_usages, trait_usages};
pub use positions::{PositionUses, ReturnPosition};
pub use tables::UseTable;
pub use uses::{LentId, Use};
