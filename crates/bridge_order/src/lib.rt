//! The order in which modules are gone through, and what is known of their items by place.
//!
//! ```text
//! mod crate          { struct Line; }   // module 0
//! mod crate::ui::dev { enum Color; }    // module 1
//! mod crate::ui      { struct Page; }   // module 2
//! ```
//!
//! [`module_order`] goes by the number of segments first, and by the place in the list then: `crate`, `crate::ui`,
//! `crate::ui::dev`, so that a module comes before those inside it wherever they stand in the list.
//!
//! A [`Catalog`] has an [`Entry`] for each item: what it is, with its number among the items of its kind in this order. `Line` and
//! `Page` are the structs 0 and 1, though `Color` stands between them in the list. Paths are resolved to places before anything is
//! looked up, so an entry is found without a search.
//!
//! Upstream, the crate `diplomat_core`, goes through modules in the order of its `Env`, and finds an item's id by its content.
#![tactic(auto)]

mod catalog;
mod order;

pub use catalog::{Catalog, Entry};
pub use order::module_order;
