//! What the results of the callables of a context may borrow.
//!
//! One example runs through this crate:
//!
//! ```text
//! #[diplomat::opaque] pub struct Page<'a>(..);
//! pub struct Mark<'x, 'y> { page: &'x Page<'y>, line: u32 }
//! impl Page<'_> { pub fn open<'a, 'b: 'a>(mark: DiplomatOption<Mark<'a, 'b>>) -> &'a Page<'b>; }
//! ```
//!
//! [`borrowings`] goes over the callables of a context in order, and answers with a report of each. That of `open` has the lifetimes `'a`
//! and `'b`, which its return names. Under each stand the leaves that carry it or a lifetime that outlives it: under both this is
//! `mark.page`, which carries `'a` and `'b`, since `'b` outlives `'a`. And the edges by which a generator keeps inputs alive: under `'a` one
//! for each lifetime of `Mark`, under `'b` one for `'y` alone.
//!
//! The leaves of a callable are found once, and so is what outlives each lifetime that its return names (`hir_borrow`). Then each leaf and
//! each input is asked once for each of these lifetimes.
#![tactic(auto)]

mod callables;
mod edges;
mod leaves;
mod outliving;

pub use callables::{borrowings, fitting_method};
