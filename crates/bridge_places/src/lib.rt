//! Where the items of each kind stand, and the numbers that items get by it: the catalog of an environment.
//!
//! One example runs through this crate:
//!
//! ```text
//! mod app {
//!     struct Page { width: u8 }         item 0 of module 0
//!     enum Color { .. }                 item 1 of module 0
//!     mod io {
//!         struct File { .. }            item 0 of module 1
//!     }
//! }
//! mod text {
//!     struct Line { .. }                item 0 of module 2
//!     out struct Cut {}                 item 1 of module 2
//!     fn shorter();                     item 2 of module 2
//! }
//! ```
//!
//! # The order of modules
//!
//! `module_order` of `bridge_order` has the modules by the number of the segments of their paths, and then by their places: here 0, 2,
//! 1, since `app` and `text` have one segment and `app::io` has two. So each module comes after those around it.
//!
//! # Places and ids
//!
//! What is lowered is kept in one list for each [`Kind`] of items: out-structs, which only come out of the interface, other structs,
//! opaques, enums, traits, functions. In each list the items stand in the order of their modules, and in a module in order. The number of
//! an item in the list of its kind, from 0 on, is its *id*:
//!
//! | id | out-structs | structs | enums | functions |
//! |---|---|---|---|---|
//! | 0 | `Cut`, item 1 of module 2 | `Page`, item 0 of module 0 | `Color`, item 1 of module 0 | `shorter`, item 2 of module 2 |
//! | 1 | | `Line`, item 0 of module 2 | | |
//! | 2 | | `File`, item 0 of module 1 | | |
//!
//! [`ItemOrder::of`] works all of this out in one pass, and keeps it both ways. [`KindPlaces::of_kind`] is a column of the table: where the
//! items of a kind stand, by their ids. `Catalog::entry` of `bridge_order` goes from a place to an `Entry`: `Line`, at item 0 of module 2, is
//! `Struct(1, true)`, a struct with the id 1 that has fields, and `Cut` is `OutStruct(0, false)`. So what a path names is known from
//! its place alone, with the id that it is going to have, before anything is lowered.
//!
//! [`an_id_names_one_item`] and [`a_listed_place_has_its_kind`] are laws: functions without a body, whose contracts say that entries and
//! lists agree.
#![tactic(auto)]

mod entries;
mod kinds;
mod laws;
mod numbering;
mod places;

pub use entries::entry_of;
pub use kinds::Kind;
pub use laws::{a_listed_place_has_its_kind, an_id_names_one_item};
pub use numbering::ItemOrder;
pub use places::KindPlaces;

#[cfg(test)]
mod tests;
