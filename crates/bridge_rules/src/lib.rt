//! Which types may stand where: the table of positions.
//!
//! A foreign interface can't have every type of Rust at every place. What comes in from the other language is made there, so it can be no
//! box of Rust's; what goes out to it can be a box, but no callback. The rules are one table, with a row for each shape of a type and a
//! column for each position. One example runs through this crate and through `bridge_grid` above it:
//!
//! ```text
//! pub struct Line<'a> { text: &'a str, page: Option<u8> }        // fields of a struct
//! impl Line<'_> {
//!     fn each(&self, f: impl Fn(&Page)) -> Result<Box<Page>, ()> // parameters, and what is returned
//! }
//! ```
//!
//! # Positions
//!
//! `text` and `page` stand at [`Position::Field`], `f` at [`Position::Param`], what `f` takes at [`Position::CallbackParam`] and what it
//! returns at [`Position::CallbackReturn`], and what `each` returns at [`Position::Return`]; a field of an out-struct, which only comes
//! out, stands at [`Position::OutField`].
//!
//! # Shapes
//!
//! [`shape_of`] sorts a type into a row, a [`Shape`]. It looks up what the type names in a [`Catalog`], by place: `&Page` is a reference to
//! an opaque where `Page` is one, and to a struct where it is that. `Option<u8>` is an option of a value, and `Box<Page>` a box of an opaque.
//!
//! # Cells
//!
//! [`cell_of`] is the table: what is asked of a shape at a position. `Option<u8>` in a field is to be Diplomat's and needs the feature
//! `option`, which is the cell [`Cell::OfValue`]; a callback that takes `&Page` is [`Cell::Fine`]; a box that comes in is
//! [`Cell::Broken`]. The table stands in `specs/Table`, a line a row, and in docs/GRID.md for readers. What breaks what a cell asks is
//! told by `bridge_grid`.
//!
//! Upstream, the module `hir::lowering` of the crate `diplomat_core`, has no table: there each function that lowers types at a position
//! tests them on its way.
#![tactic(auto)]

mod position;
mod shape;
mod sorting;
mod table;

pub use bridge_order::{Catalog, Entry};
pub use position::Position;
pub use shape::{Element, FlatSlice, Shape, Value};
pub use sorting::shape_of;
pub use table::{Cell, cell_of, refs_flag};
