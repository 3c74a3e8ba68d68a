//! How many leaves the inputs of callables have, and which have too many.
//!
//! A leaf is what something may be borrowed from: a borrowed opaque or a slice, wherever it stands in an input. Structs that hold structs
//! may have very many: of
//!
//! ```text
//! #[diplomat::opaque] pub struct Page(..);
//! pub struct Pair<'a> { left: &'a Page, right: &'a Page }
//! pub struct Four<'a> { first: Pair<'a>, second: Pair<'a> }
//! fn join<'a>(both: Four<'a>) -> &'a Page;
//! ```
//!
//! `Pair` has two leaves and `Four` has four, and twenty such steps come to 2^20. So no list of leaves is made before it is known to be short.
//! [`LeafCounts`] counts them: the structs of a context are a graph (`graph`), in which an edge leads from each to those that its fields are,
//! and each has so many leaves of its own. What a struct holds is a sum over what it leads to, and each struct is gone through once, after
//! all that it leads to (`definition_graph`). Sums end one past what a callable may have (`counts`). Then [`LeafCounts::has_too_many`] says of
//! a callable whether its inputs have more leaves than 2^20 (`limits`). Such a callable breaks the rule `TooManyLeaves`, which
//! `bridge_validation` tells.
//!
//! The limit is this repository's own: the crate `diplomat_core` knows none.
#![tactic(auto)]

mod counts;
mod graph;
mod limits;

pub use limits::LeafCounts;
