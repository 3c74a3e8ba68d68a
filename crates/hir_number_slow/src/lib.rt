//! The definitions of `hir_number` as functions that run, for tests: each is written as its definition is, and its contract is the
//! equation with it.
//!
//! # The example
//!
//! ```text
//! impl<'a> Foo<'a> {
//!     fn f(&self, x: &'a Opaque, y: Pair<'a>) -> Option<&Opaque>;      where Pair has two lifetimes
//! }
//! ```
//!
//! # Uses
//!
//! [`method_uses`] and its kin give the flat list of a signature's uses of lifetimes and paths, lent by the declaration ([`PlacedUse`]), which is
//! `method_uses` of `hir_number`'s `specs/Signatures`. All else is a function of that list:
//!
//! | part | use | occurs | numbers |
//! |---|---|---|---|
//! | `Borrow` | of one lifetime | left out, the receiver's borrow | 1 |
//! | `Input` | of `Self`, `Foo<'a>` | `'a`, one of `Self`'s generics | 0 |
//! | `Input` | of one lifetime | `'a`, which counts for elision | 0 |
//! | `Input` | of the path `Opaque` | | none |
//! | `Input` | of the path `Pair<'a>` | `'a` and one left out, which count | 0, 2 |
//! | `Output` | of one lifetime | | 1 |
//! | `Output` | of the path `Opaque` | | none |
//!
//! # Three functions
//!
//! [`slow_occurrences`] gives the third column (`occurrences`), [`slow_count`] how many lifetimes have a number after it (`count_of`), here
//! three, and [`slow_answers`] the fourth (`answers`): of each use its numbers, or the rule that it breaks. [`slow_numbers`] has all numbers, or the
//! first fault (`signature_numbers`). For a declaration [`slow_occurrences_of_method`], [`slow_numbers_of_method`] and their kin do both steps.
//!
//! # Slow
//!
//! Nothing is kept from one use to the next: each answer is computed anew from the uses before it, a name is looked for from the front,
//! and a count is counted again. So time grows by the cube of a signature's uses at worst, and no fault of `hir_number`'s lowerers or indexes can be
//! repeated here.
//!
//! Restates nothing of the crate `diplomat_core` beyond what `hir_number` does.
#![tactic(auto)]

mod before;
mod declared;
mod finding;
mod flat;
mod numbers;
mod occurrences;
mod signatures;
mod uses;

pub use before::slow_count;
pub use declared::{
    slow_numbers_of_fields, slow_numbers_of_function, slow_numbers_of_method,
    slow_numbers_of_trait_method, slow_occurrences_of_function, slow_occurrences_of_method,
    slow_occurrences_of_trait_method,
};
pub use numbers::{Answer, slow_answers, slow_numbers};
pub use occurrences::{Occurrence, Role, Written, slow_occurrences};
pub use signatures::{field_uses, function_uses, method_uses, trait_method_uses};
pub use uses::{Found, Part, PlacedUse, Use};
