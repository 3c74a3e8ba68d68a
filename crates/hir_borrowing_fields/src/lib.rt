//! All from which something may be borrowed in the inputs of a method, at any depth.
//!
//! What a method returns may borrow from what it was given. Backends that keep alive what is
//! borrowed from have to know of each part of an input that carries lifetimes: where it stands,
//! and which lifetimes of the method it carries. These parts are the leaves. One example runs
//! through this crate:
//!
//! ```text
//! #[diplomat::opaque] pub struct Page<'a>(..);
//! pub struct Mark<'x, 'y> { page: &'x Page<'y>, line: u32 }
//! fn open<'a, 'b: 'a>(mark: DiplomatOption<Mark<'a, 'b>>) -> &'a Page<'b>;
//! ```
//!
//! # Leaves
//!
//! A leaf is a borrowed opaque or a slice: an input, or a field of a struct that is an input or
//! stands in one. Options are looked through. `open` has one leaf: it stands at `mark.page`, and
//! carries `'a` and `'b`. There `'x` and `'y` are lifetimes of `Mark`, and for the method what
//! `mark` is given stands for them. `line` carries nothing and is no leaf, and a disabled struct
//! has none.
//!
//! # The visitor
//!
//! [`BorrowingFieldVisitor::new`] finds all leaves of a method that fits its context. They stand
//! in the order of the inputs, the receiver first, and inside a struct in that of its fields.
//!
//! | call | for `open` |
//! |---|---|
//! | `len` | 1 |
//! | `get(0)` | the leaf, as a [`BorrowingField`]; `get(1)` is none |
//! | `lifetimes` of the leaf | `'a`, `'b` |
//! | `path` of the leaf | 0, 0: `mark` is the first input, and `page` the first field of `Mark` |
//! | `backtrace` of the leaf | calls its function at 0 and `mark`, then at 1 and `page` |
//! | `Display` of the leaf | `mark.page` |
//! | `visit_borrowing_fields` | calls its function at `'a` and the leaf, then at `'b` and it |
//!
//! # What it costs
//!
//! Leaves share the names and numbers of what they stand in, so a leaf takes the room of its own
//! name and number and of what it carries. Structs nest 256 deep at most, and no walk goes deeper.
//! Where structs hold many others and no leaf, each is looked into once for each number of levels,
//! and not each time that it is held.
//!
//! Named as in the crate `diplomat_core`, whose module `hir::methods::borrowing_field` this
//! restates.
#![tactic(auto)]

mod carried;
mod fields;
mod found;
mod inputs;
mod parts;
mod places;
mod visitor;
mod walk;

pub use fields::BorrowingField;
pub use visitor::BorrowingFieldVisitor;
