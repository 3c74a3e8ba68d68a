//! From which inputs of a method something may be borrowed, one level deep.
//!
//! What a method returns may borrow from what it was given, and so keep it in use. Backends that
//! make wrappers have to hold such inputs while the returned value lives. They don't look into
//! structs from outside: each struct tells for itself what it borrows for each of its lifetimes.
//! One example runs through this crate:
//!
//! ```text
//! #[diplomat::opaque] pub struct Page<'a>(..);
//! pub struct Mark<'x, 'y> { page: &'x Page<'y>, line: u32 }
//! fn open<'a, 'b: 'a>(mark: DiplomatOption<Mark<'a, 'b>>) -> &'a Page<'b>;
//! ```
//!
//! # Edges
//!
//! `open` returns something for `'a` and for `'b`. An input is held for a returned lifetime where
//! a lifetime of the input outlives it: `'b` outlives `'a`, and each outlives itself. What is held
//! is an edge: an opaque or a slice itself, or all that a struct borrows for one of its lifetimes.
//!
//! | for | edges of `mark` | why |
//! |---|---|---|
//! | `'a` | at `'x`, and at `'y` | `'a` stands for `'x`, and `'b` for `'y`: both outlive `'a` |
//! | `'b` | at `'y` | of these only `'b` outlives `'b` |
//!
//! All are marked as those of an option.
//!
//! # The visitor
//!
//! A [`BorrowingParamVisitor`] keeps for each returned lifetime those that outlive it, and the
//! edges so far. `new` makes one for the lifetimes that a method's return names, of `open` for `'a`
//! and `'b`. Where it is told to include slices it keeps also each named lifetime of a slice among
//! the inputs, at any depth: backends that copy slices for a call have to know how long each copy
//! is needed, whether or not something that is returned borrows from it.
//!
//! `visit_param` visits an input: it adds the edges of this input, and answers what is told of it,
//! as a [`ParamBorrowInfo`]. Of `mark` it is a [`StructBorrowInfo`], which maps `'x` to `'a`, and
//! `'y` to `'a` and `'b`. At the end `borrow_map` hands out what was kept.
//!
//! # Fields
//!
//! [`StructBorrowInfo::compute_for_struct_field`] tells the same of a field that is a struct, for
//! the lifetimes of the struct around it. For `struct Shelf<'s> { mark: Mark<'s, 'static> }` it
//! maps `'x` to `'s`. Bounds don't count there: the methods, which know what outlives what they
//! return, follow each lifetime to the fields.
//!
//! Named as in the crate `diplomat_core`, whose module `hir::methods::borrowing_param` this
//! restates.
#![tactic(auto)]

mod answers;
mod candidates;
mod edges;
mod fields;
mod included;
mod infos;
mod keeping;
mod own;
mod params;
mod searching;
mod sets;
mod slices;
mod starts;
mod store;
mod visitor;
mod visits;

pub use edges::{BorrowedLifetimeInfo, LifetimeEdge, LifetimeEdgeKind};
pub use infos::{ParamBorrowInfo, StructBorrowInfo};
pub use visitor::BorrowingParamVisitor;
