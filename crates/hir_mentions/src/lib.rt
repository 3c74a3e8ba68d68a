//! What definitions name: other definitions, and lifetimes.
//!
//! A definition names others by their ids, gives them lifetimes, and borrows for lifetimes. One
//! example runs through this crate:
//!
//! ```text
//! #[diplomat::opaque] pub struct Page<'a>(..);
//! pub struct Line<'a> { text: &'a DiplomatStr }
//! pub struct Pair<'a> { left: Line<'a>, right: Option<Line<'a>>, color: Color }
//! impl<'a> Page<'a> {
//!     pub fn find<'p>(&'p self, test: impl Fn(Line<'p>) -> bool) -> Option<Box<Page<'a>>>;
//! }
//! ```
//!
//! # Mentions
//!
//! A [`Mention`] is one thing that is named. Each part of a definition has a list of them:
//!
//! | part | mentions, in order |
//! |---|---|
//! | the fields of `Line` | the lifetime `'a` |
//! | the fields of `Pair` | `Line` with `'a`, `Line` with `'a`, `Color` |
//! | the method `find` | `Page` with `'a`, the lifetime `'p`, `Line` with `'p`, `Page` with `'a` |
//!
//! A path stands before the reference that it is behind, the elements of a slice before the slice,
//! and a receiver before parameters and these before what is returned. An enum has no lifetimes, so
//! it is named alone. Lifetimes are lent and never copied, and a list takes one step and one place
//! a mention.
//!
//! [`field_mentions`], [`method_mentions`], [`trait_mentions`], [`usage_mentions`] and
//! [`special_mentions`] are the parts of definitions. Whoever knows of how many definitions there
//! are, and how many lifetimes each has, can tell from the mentions whether all of them name what
//! there is. Parts are apart since the lifetimes of each are those of another place: a field's are
//! those of its struct, and a method's those of its signature.
//!
//! # Structs in structs
//!
//! [`contained_structs`] lists the structs that fields contain, by value, in options or by
//! reference: for `Pair` it is `Line` twice. A struct that contains itself so can't be laid out.
//!
//! The definitions are those of the crate `diplomat_core`, modules `hir::defs`, `hir::types` and
//! `hir::methods`.
#![tactic(auto)]

mod callbacks;
mod containing;
mod definitions;
mod mentions;
mod positions;
mod types;

pub use containing::contained_structs;
pub use definitions::{
    field_mentions, method_mentions, special_mentions, trait_mentions, usage_mentions,
};
pub use mentions::Mention;
pub use positions::PositionMentions;
