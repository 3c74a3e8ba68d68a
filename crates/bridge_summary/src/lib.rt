//! A summary of what the results of callables may borrow: how many callables there are, and how much is listed in all.
//!
//! A page of `bridge_page` has, for each callable and each lifetime that its return names, the leaves that the result may borrow. Where
//! declarations are made in order to measure, that page is too long to be read; what is told of it is two numbers. One example:
//!
//! ```text
//! #[diplomat::opaque] pub struct Page<'a>(..);
//! pub struct Mark<'x, 'y> { page: &'x Page<'y>, line: u32 }
//! impl Page<'_> {
//!     pub fn open<'a, 'b: 'a>(mark: DiplomatOption<Mark<'a, 'b>>) -> &'a Page<'b>;
//! }
//! ```
//!
//! The return of `open` names `'a` and `'b`, and under each of them `mark.page` is listed. So this is printed:
//!
//! ```text
//! callables 1
//! listed 2
//! ok
//! ```
//!
//! A number above 2^64 - 1, which no memory holds the reports of, would be told as 2^64 - 1.
#![tactic(auto)]

mod summary;

pub use summary::print_summary;
