//! The rules that declarations have to keep, and the reports of those that are broken.
//!
//! Declarations that other languages can't have are refused, and each cause is told: which [`Rule`] is broken, at which declaration,
//! and what its text speaks of. One example runs through this crate:
//!
//! ```text
//! mod maps {
//!     pub struct Map(..);                          // an opaque
//!     impl Map { fn find(&self, key: &Kex) -> u8 } // names nothing: it should be `Key`
//! }
//! ```
//!
//! The rule is [`Rule::UnresolvedPath`], its argument the path `Kex`, and its place the module `maps`, the item `Map` and the method
//! `find`. A [`LoweringError`] is the rule with its arguments, an [`ErrorContext`] the place, and a [`LoweringReport`] both:
//!
//! ```text
//! Lowering error in maps::Map::find
//!   UnresolvedPath: Kex names nothing
//! ```
//!
//! An [`ErrorStore`] is a list of reports that grows while declarations are walked over. It keeps the place that the walk has come to,
//! lent from the declarations, so that what finds an error has only to say which.
//!
//! Named as in the crate `diplomat_core`, whose module `hir::lowering` has the store and whose errors are texts alone.
#![tactic(auto)]

mod places;
mod report;
mod rule;
mod store;

pub use places::ErrorContext;
pub use report::{ErrorAndContext, LoweringError, LoweringReport};
pub use rule::Rule;
pub use store::ErrorStore;
