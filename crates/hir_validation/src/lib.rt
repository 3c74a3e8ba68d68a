//! Which rules lowered types, methods, functions and methods of traits break.
//!
//! Some rules are asked of what declarations are lowered to, once all of it is there. One example runs through this crate:
//!
//! ```text
//! #[diplomat::opaque] pub struct Book(..);
//! #[diplomat::opaque] pub struct Page<'b>(&'b Book);
//! pub struct Mark { line: u32 }
//! pub struct Place<'m> { of: &'m Mark }
//! impl Book {
//!     pub fn open<'a, 'p: 'a>(&'a self, of: &'a Page<'p>) -> Box<Page<'p>>;
//!     pub fn turn<'a>(at: &'a Mark) -> &'a Book;
//!     pub fn bind<'a>(pages: &'a [&'a Book]) -> &'a Book;
//!     pub fn mark(all: &[Mark]);
//! }
//! ```
//!
//! # Visited types
//!
//! Backends visit the types of fields, of parameters and of what is returned, each as a whole (`specs/WholeTypes`). A slice lends memory as Rust lays it out,
//! which structs and enums have to allow by a mark: so `mark` breaks `AbiUnmarked`. In the same way `&mut` of a struct wants a mark, a tuple isn't passed by
//! reference, there are no slices of structs that only go out, and callbacks may have to be able to fail (`specs/Visited`).
//!
//! # Structs
//!
//! A wrapper copies structs, so no field may refer to one: `Place` breaks `FieldBorrow`. A struct that is marked as laid out as in Rust holds nothing that isn't
//! (`specs/Structs`).
//!
//! # Methods of types
//!
//! Functions may do more than methods of types. A type may imply a bound between lifetimes: what a reference leads to outlives it, so `of` of `open` implies
//! `'p: 'a`, and a definition may write bounds between its lifetimes. A method declares each such bound, where the shorter lifetime has a name: so `open` is
//! right, and without `'p: 'a` it breaks `ImpliedBound`. A reference to a struct can't be kept alive by a wrapper, so `turn`, which returns its lifetime,
//! breaks `StructRefReturned`; and neither can the slice of opaques of `bind`, which breaks `OpaqueSliceBorrowed`.
//!
//! A [`Validation`] tells all that a type, a signature, a method of a type or a method of a trait breaks so. `specs/rules/` has a file for each rule; that what
//! is told is exactly this is shown in `proofs/`, which crates above cite.
//!
//! As in the crate `diplomat_core`, `TypeContext::validate`, `validate_ty` and their kin of the module `hir::type_context`.
#![tactic(auto)]

mod bounds;
mod callbacks;
mod direct;
mod methods;
mod returned;
mod shorter;
mod signatures;
mod structs;
mod validation;
mod visited;
mod whole;

pub use validation::{Validation, tell_if};
