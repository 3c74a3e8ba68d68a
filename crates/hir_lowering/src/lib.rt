//! All declarations of an environment: told with all that is wrong in them, or lowered to the definitions of an interface.
//!
//! Modules come first, and then the items kind by kind, each kind in the order in which modules are gone through. One example runs
//! through this crate:
//!
//! ```text
//! mod crate        { enum Color { Red }  fn shorter(a: &ui::Page, b: &ui::Page) -> Color; }
//! mod crate::ui    { #[diplomat::opaque] struct Page(..);  impl Page { fn print(&self, out: Kex); } }
//! mod crate::data  { struct Line { start: u32 }  #[diplomat::out] struct Cut { line: Line } }
//! ```
//!
//! | kind | items, by their ids | what is told |
//! |---|---|---|
//! | out-structs | `Cut` | |
//! | structs | `Line` | |
//! | opaques | `Page` | `Kex names nothing`, at `ui::Page::print` |
//! | enums | `Color` | |
//! | traits | | |
//! | functions | `shorter` | |
//!
//! [`lower_in_order`] tells each at its place and goes on: nothing ends the walk but want of memory. `Page` isn't made, since something is
//! told of it, and all others are. Where nothing is told at all, every item is made, and an item's place among the definitions of its kind
//! is the id by which paths name it.
//!
//! A [`DefinitionKind`] says of one kind what is told and made of an item; the walk over its places is one for all six.
//!
//! As in the crate `diplomat_core`, module `hir::lowering`, where items are looked up by their content and methods are told at the last of them.
#![tactic(auto)]

mod items;
mod kinds;
mod laws;
mod nesting;
mod walk;

pub use kinds::{DefinitionKind, Enums, Functions, Opaques, OutStructs, Structs, Traits};
pub use laws::what_is_fine_is_all_made;
pub use nesting::tell_nesting;
pub use walk::lower_in_order;
