//! Special methods: what a method that is marked as a constructor, an accessor, an operator or the like has to be.
//!
//! A backend turns a method with such a mark into something of its own language, so the method has to fit: a getter takes nothing, a
//! comparison compares two values of one type, an iterator gives the next value or nothing. One example runs through this crate, for a
//! backend without the flag `partial_comparators`:
//!
//! ```text
//! impl Version {
//!     #[diplomat::attr(auto, comparison)]
//!     fn compare(&self, other: &Version) -> Option<Ordering>
//!     #[diplomat::attr(auto, add)]
//!     fn join(&self)
//! }
//! ```
//!
//! # Receivers, parameters and returns
//!
//! Tables say what each kind has: which receiver (`specs/Receivers`), how many parameters, and what it returns (`specs/Returns`). So
//! `join` breaks `SpecialParams`, since an operator has one parameter, and `SpecialReturn`, since it gives something. What a
//! comparison compares is said by `specs/Operands`: with `other: u8` the method `compare` would break `SpecialOperand`.
//!
//! # What a backend supports
//!
//! A mark of this kind counts whatever flags the backend has, but some forms of a method need one (`specs/Support`). `compare` may say that neither of two versions comes
//! first, so it breaks `SpecialSupport` with the flag `partial_comparators`.
//!
//! [`validate_special`] tests all this of a lowered method (`specs/Told`).
//!
//! # One of a kind
//!
//! A type has one comparison, one iterator and one iterable, and one constructor where the backend doesn't overload methods
//! (`specs/Repeated`): [`test_repeated`] tells of a later one, after those that were seen, [`SeenSpecials`].
//!
//! As in the crate `diplomat_core`, `Attrs::validate` of the module `hir::attrs`.
#![tactic(auto)]

mod operands;
mod partial;
mod receivers;
mod repeated;
mod returns;
mod support;
mod testing;

pub use partial::{is_partial, with_partial};
pub use repeated::{SeenSpecials, test_repeated};
pub use testing::validate_special;
