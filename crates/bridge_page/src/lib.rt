//! The page that is printed of the reports of a context.
//!
//! The result of a callable may borrow from what was passed to it. A report says what (see
//! `bridge_report`), by the numbers of inputs, fields and lifetimes; the page says the same to a
//! reader, with names. One example runs through this crate:
//!
//! ```text
//! #[diplomat::opaque] pub struct Page<'a>(..);
//! pub struct Mark<'x, 'y> { page: &'x Page<'y>, line: u32 }
//! impl Page<'_> {
//!     pub fn open<'a, 'b: 'a>(mark: DiplomatOption<Mark<'a, 'b>>) -> &'a Page<'b>;
//! }
//! ```
//!
//! # What is printed
//!
//! Of the report of `open`, which is all that there is to tell, this page is printed:
//!
//! ```text
//! callable Page::open
//!   lifetime 0 a: mark.page
//!   edges: struct mark 0 optional, struct mark 1 optional
//!   lifetime 1 b: mark.page
//!   edges: struct mark 1 optional
//! ok 1
//! ```
//!
//! A callable has a line with its place, and two lines for each lifetime that its return names: one
//! with the number and the name of the lifetime and the leaves under it, and one with the edges. The
//! last line has the number of callables.
//!
//! # Where names come from
//!
//! Everything that is printed stands in the context or in the reports, and is lent: no text is built.
//!
//! - The place is the path of the module, the type and the method, with `::` between them. What is
//!   declared in the root module begins with the type.
//! - A leaf is the name of its input, `mark`, and then that of each field on the way. The number 0
//!   is looked up in the struct that the input is, `Mark`, where it is `page`; a further number would
//!   be looked up in the struct that this field is.
//! - An edge has the name of its input alone: a generated wrapper holds `mark`, and doesn't look into
//!   it.
//! - A lifetime without a name is `anon_` and the number of those before it.
#![tactic(auto)]

mod callables;
mod edges;
mod inputs;
mod lines;
mod paths;

pub use callables::print_page;
