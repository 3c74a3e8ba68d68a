//! Why something is listed under a lifetime that a callable returns, or why it isn't, asked for by names.
//!
//! A page lists under each lifetime that a callable's return names what the result may borrow. A reader of the page asks why a leaf stands
//! there, or why another doesn't, by the names that the page prints. One example runs through this crate:
//!
//! ```text
//! #[diplomat::opaque] pub struct Page<'a>(..);
//! pub struct Mark<'x, 'y> { page: &'x Page<'y>, line: u32 }
//! impl Page<'_> {
//!     pub fn open<'a, 'b: 'a>(mark: DiplomatOption<Mark<'a, 'b>>, other: &'b Page<'b>) -> &'a Page<'a>;
//! }
//! ```
//!
//! | callable | leaf | lifetime | answer |
//! |---|---|---|---|
//! | `Page::open` | `other` | 0 | `chain 1 0`: it carries `'b`, the number 1, which is declared to outlive `'a`, the number 0 |
//! | `Page::open` | `mark.line` | 0 | no leaf has this name: a number borrows nothing |
//! | `Page::open` | `other` | 1 | the return doesn't name `'b` |
//! | `Page::shut` | `other` | 0 | no callable has this name |
//!
//! # How names are found
//!
//! [`explain`] takes the first callable that is printed so, and the first of its leaves that is. Names are compared piece by piece
//! (`bridge_comparing`): of a callable the path of its module, the type and the method, of a leaf the names of its input and of the fields on
//! the way. Nothing is built for that. `specs/Explained` says which these are.
//!
//! # What is answered
//!
//! An explanation of `hir_explain`, which anybody can check against the declared bounds: the chain of bounds that lists the leaf, or the
//! lifetimes that may be long while all that the leaf carries is short. [`print_explanation`] prints it as a line.
#![tactic(auto)]

mod callables;
mod explaining;
mod leaves;
mod lines;
mod question;

pub use explaining::explain;
pub use hir_explain::Explanation;
pub use lines::print_explanation;
pub use question::Question;
