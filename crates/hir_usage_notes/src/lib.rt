//! How each definition of an interface is used, noted at the definition.
//!
//! Generators make code for a slice of a struct, for an option of an enum or for a result only where one is used. So each definition keeps
//! how all others use it. One example runs through this crate:
//!
//! ```text
//! pub struct Line { start: u32, end: u32 }
//! pub enum Missing { Page, Line }
//! #[diplomat::opaque] pub struct Page(..);
//! impl Page { pub fn longest(&self, lines: &[Line]) -> Result<Line, Missing>; }
//! ```
//!
//! `hir_usage` lists what one part uses: the method `longest` uses `Line` as an element of a slice, and `Line` and `Missing` in one result.
//! Here all definitions are gone through once, kind by kind and in the order in which they are lowered, and what is known of each is noted at
//! it ([`note_usages`]):
//!
//! | definition | sliced | in an option | results |
//! |---|---|---|---|
//! | `Line` | yes | no | that of `longest` |
//! | `Missing` | no | no | that of `longest` |
//! | `Page` | no | no | none |
//!
//! [`LoweredDefinitions`] are the definitions of an interface while they are made: what is noted is written into them. Traits and functions aren't used so.
//!
//! Upstream, the crate `diplomat_core`, notes this on definitions as it lowers types, in its module `hir::lowering`.
#![tactic(auto)]

mod definitions;
mod notes;
mod uses;

pub use definitions::LoweredDefinitions;
pub use notes::note_usages;
