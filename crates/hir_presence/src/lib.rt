//! Which special methods a type has.
//!
//! Generators treat a type that compares, that steps through values or that can be stepped through in a way of its own. So its definition keeps
//! which of its methods do so. One example runs through this crate:
//!
//! ```text
//! impl Version {
//!     #[diplomat::attr(auto, comparison)]
//!     fn compare(&self, other: &Version) -> Option<Ordering>
//!     #[diplomat::attr(auto, iterable)]
//!     fn parts(&self) -> Box<Parts>
//! }
//! impl Parts {
//!     #[diplomat::attr(auto, iterator)]
//!     fn next(&mut self) -> Option<Box<Part>>
//! }
//! ```
//!
//! By [`special_methods`], `Version` has a comparison that may answer that neither of two versions comes first, and is iterable by `Parts`. `Parts`
//! is an iterator, and each step gives a `Box<Part>`: `next` says by its absence that none is left, so the value of a step is always there.
//!
//! A type has one method of each of these kinds at most: the rule `SpecialRepeated`. Disabled methods aren't lowered, and so aren't asked.
//!
//! As in the crate `diplomat_core`, `SpecialMethodPresence` of the module `hir::attrs`.
#![tactic(auto)]

mod marked;
mod presence;
mod stepping;

pub use presence::special_methods;
