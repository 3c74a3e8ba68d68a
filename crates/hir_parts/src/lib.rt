//! What of the type of an input decides from where something may be borrowed through it.
//!
//! A result may borrow from what its inputs are lent for. One example runs through this crate:
//!
//! ```text
//! #[diplomat::opaque] pub struct Page<'a>(..);
//! pub struct Mark<'x, 'y> { page: &'x Page<'y>, line: u32 }
//! fn open<'a, 'b: 'a>(mark: DiplomatOption<Mark<'a, 'b>>) -> &'a Page<'b>;
//! ```
//!
//! Of an input that is borrowed itself, an opaque or a slice, count the lifetimes that it carries, and of a struct which one it is, and the
//! lifetimes that it is given. So the [`input_part`] of `mark` is the struct `Mark` with `'a` and `'b`, for options are looked through. That of the
//! field `page` is a carrier, of the lifetime `'x` of its elements and of `'y`, which these give their definition; an opaque is its own
//! element. `line` carries nothing. A receiver has a [`receiver_part`].
//!
//! The part has the skeleton of the type, as `hir_skeleton` defines it. Visitors of inputs go on with it.
#![tactic(auto)]

mod parts;

pub use parts::{InputPart, input_part, receiver_part};
