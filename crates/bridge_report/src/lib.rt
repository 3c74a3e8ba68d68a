//! What the result of a callable may borrow, as it is told: by reports and by a page.
//!
//! Code of another language that calls a function gets a result that may borrow from what it passed,
//! and has to keep that alive as long as the result. This crate says what there is to tell, in words
//! that serve a context and declarations alike, and lists the callables of a context. One example
//! runs through it:
//!
//! ```text
//! #[diplomat::opaque] pub struct Page<'a>(..);
//! pub struct Mark<'x, 'y> { page: &'x Page<'y>, line: u32 }
//! impl Page<'_> {
//!     pub fn open<'a, 'b: 'a>(mark: DiplomatOption<Mark<'a, 'b>>) -> &'a Page<'b>;
//! }
//! ```
//!
//! # Callables
//!
//! A callable is an enabled method of a type, or an enabled function (`specs/Callables`). Of it only
//! that counts from which its borrowings follow: its lifetimes with the bounds between them, those
//! that its return names, its inputs, and its leaves. Of `open` these are 'a and 'b, both of them
//! named; the input `mark`, a struct in an option; and one leaf.
//!
//! The callables of a context are those of its structs, out-structs, opaques and enums, in this
//! order, and then its functions (`specs/InContext`). [`callable_ids`] gives their ids: of `open` the
//! opaque 0 and the method 0. [`method_of`] gives the method of an id, and [`place_of`] where it is
//! declared, which is `Page::open`.
//!
//! # Leaves and lists
//!
//! A leaf is a part of an input that carries lifetimes itself, at any depth: `mark.page`, which
//! carries 'a and 'b. For each lifetime that the return names there is a list of the leaves that the
//! result may borrow from: those that carry the lifetime, or one that outlives it
//! (`specs/Borrowings`). Under 'a and under 'b it has the one leaf.
//!
//! # Edges
//!
//! A generated wrapper holds whole inputs, and structs by their own lifetimes: edges say what it
//! holds, one level deep. Under 'a it holds what `mark` borrows for 'x and for 'y, since both 'a and
//! 'b outlive 'a; under 'b what it borrows for 'y alone.
//!
//! # Reports and the page
//!
//! A [`CallableReport`] has for each lifetime that the return names the list and the edges, by the
//! numbers of inputs, fields and lifetimes. The page has the same with names (`specs/Page`):
//!
//! ```text
//! callable Page::open
//!   lifetime 0 a: mark.page
//!   edges: struct mark 0 optional, struct mark 1 optional
//!   lifetime 1 b: mark.page
//!   edges: struct mark 1 optional
//! ok 1
//! ```
//!
//! A list is printed whole, so a callable may have 2^20 leaves at most: `bridge_leaves` finds those
//! that have more.
#![tactic(auto)]

mod callables;
mod report;

pub use callables::{CallablePlace, callable_ids, method_of, place_of};
pub use report::{
    BridgeReport, CallableId, CallableReport, InputPlace, LeafPath, ReportEdge, ReportEdgeKind,
    ReturnedLifetime,
};
