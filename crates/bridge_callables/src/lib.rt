//! The callables of declarations, and that a context which stands for them has the same.
//!
//! A `Callable` of `bridge_report` says of an enabled method or function what a report or a page needs:
//! which lifetimes its return names, its inputs, and the leaves of these, each with the names that lead
//! to it. Code reads callables off a context. This crate says which there are by declarations alone, and
//! that both are the same list. So what is reported of a context is true of the declarations that it
//! stands for. One example runs through it:
//!
//! ```text
//! mod book {
//!     #[diplomat::opaque] pub struct Page<'a>(..);
//!     pub struct Mark<'x, 'y> { page: &'x Page<'y>, line: u32 }
//!     impl Page<'_> {
//!         #[diplomat::attr(*, disable)] pub fn tear(&self);
//!         pub fn open<'a, 'b: 'a>(mark: DiplomatOption<Mark<'a, 'b>>) -> &'a Page<'b>;
//!     }
//!     pub fn longer<'a>(one: &'a DiplomatStr, other: &'a DiplomatStr) -> &'a DiplomatStr;
//! }
//! ```
//!
//! # Which there are
//!
//! Types come first, kind by kind: structs, structs that only come out, opaques, enums. Each is known by
//! its number among those of its kind, in the order in which modules are gone through, and each of its
//! enabled methods by its number among them. Then come the enabled functions, which keep the numbers
//! that they have among all functions (`specs/Declared`):
//!
//! | id | place | inputs | leaves |
//! |---|---|---|---|
//! | `Method(Opaque(0), 0)` | `book`, `Page::open` | `mark`: a struct with 'a and 'b, in an option | `mark`, `page`: carries 'a and 'b |
//! | `Function(0)` | `book`, `longer` | `one` and `other`: slices of 'a | `one` and `other`: each carries 'a |
//!
//! The method `tear` is disabled, and is none. A disabled type has no callables.
//!
//! # What each says
//!
//! Lifetimes, inputs, leaves and what the return names are those of the declaration's numbered signature,
//! as `hir_readings` says. Beside them stand the names that are declared: of the module, the item, the
//! method and its parameters. A receiver is called `this`, and the trailing writer is no input.
//!
//! # Names along a path
//!
//! The leaf of `open` has the path 0, 0. The first number is that of an input, here `mark`. That is the
//! struct at the place of `Mark`, whose field 0 is called `page` (`specs/Names`).
//!
//! # Both are the same
//!
//! The callables of a context are these, [`callables_are_read_as_declared`].
//!
//! This crate has definitions and their law, and no code.
#![tactic(auto)]

mod laws;

pub use laws::callables_are_read_as_declared;
