//! Declarations lowered, with what the results of their callables may borrow: all that a generator of bindings asks of them, in one call.
//!
//! ```text
//! #[diplomat::opaque] pub struct Book(..);
//! #[diplomat::opaque] pub struct Page<'a>(&'a Book);
//! impl<'a> Page<'a> { pub fn open(book: &'a Book) -> Box<Page<'a>>; }
//! ```
//!
//! [`lower_and_borrow`] makes the context of these declarations (`hir_lower`), sees that no type, trait or function of it breaks a rule as
//! what it is lowered to (`bridge_validation`), and says of each callable what its result may borrow (`bridge_borrow`): of `Page::open`, under `'a`, the leaf `book`
//! with one edge to an opaque. Were `open` to take a `Book` by value, the answer would be `LowerFault::Refused` with the one report
//! `OpaqueByValue` at `Page::open`.
//!
//! Which callables declarations have is defined of the declarations alone (`bridge_callables`), and so is what breaks a rule; that the
//! context has the same is what is proved here.
#![tactic(auto)]

mod borrowed;

pub use borrowed::lower_and_borrow;
pub use hir_lower::LowerFault;
