//! Modules have one catalog.
//!
//! A catalog has an entry for each item of modules: what it is, with its number among the items of its kind (`bridge_places`). Each place
//! stands once among the places of a kind, so an item has one number, and by [`modules_have_one_catalog`] modules have no two catalogs: what
//! is said by one is said of the modules.
#![tactic(auto)]

mod laws;

pub use laws::{modules_have_one_catalog, places_stand_once};
