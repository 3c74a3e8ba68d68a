//! Elision: the lifetimes of a signature or a definition as numbers, and what a return borrows where it leaves a lifetime out.
//!
//! # The example
//!
//! ```text
//! impl<'a> Foo<'a> {
//!     fn f(&self, x: &'a Opaque, y: &Opaque) -> &Opaque;
//! }
//! ```
//!
//! Four lifetimes are used before the return, and one of the declared ones among them twice. In the order in which they stand:
//!
//! | where | written | number | role |
//! |---|---|---|---|
//! | the borrow of the receiver | left out | 1 | the receiver's borrow |
//! | the receiver's type, `Foo<'a>` | `'a` | 0 | one of `Self`'s generics |
//! | the borrow of `x` | `'a` | 0 | counts for elision |
//! | the borrow of `y` | left out | 2 | counts for elision |
//!
//! Such a list of written lifetimes and roles is all that the definitions know of a signature (`specs/Occurrences`); numbers and
//! elision are functions of it.
//!
//! # Numbers
//!
//! A named lifetime's number is its place among the declared ones. Each anonymous one is a lifetime of its own, and gets the next
//! number after the names and the anonymous ones before it (`specs/Numbering`). There are 4,095 at most.
//!
//! # What a return borrows for that leaves its lifetime out
//!
//! As in Rust (`specs/Elision`):
//! 1. the receiver's borrow, where there is one: in the example the return's lifetime is 1;
//! 2. else the only lifetime that counts. In `fn f(self, y: &Opaque) -> &Opaque` that is the borrow of `y`;
//! 3. else there is none to borrow for, and the return has to name one. Several lifetimes are several, also where they are equal.
//!
//! The generics of `Self` never count: in `fn f(self) -> &Opaque` the `'a` of `Foo<'a>` isn't taken, as Rust doesn't take it. They
//! are numbered once, at `Self`'s first occurrence in the signature, and have these numbers wherever else `Self` stands.
//!
//! # Three phases
//!
//! A lifetime that is left out means something else in each part of a signature, so there is one type for each part, and each
//! makes the next:
//! - [`SelfParamLifetimeLowerer`] takes the receiver's borrow, if it has one;
//! - [`ParamLifetimeLowerer`] takes the receiver's type and the parameters, in order. What is left out is a new lifetime;
//! - [`ReturnLifetimeLowerer`] takes the return. What is left out is elided. At the end it gives the environment of all lifetimes.
//!
//! The fields of a definition have to name all their lifetimes: [`DefinitionLowerer`] refuses what is left out.
//!
//! [`LifetimeLowerer`] is what the last three have in common. Its `stands` says which signature, as far as it was gone through, a
//! lowerer stands for. What it is made of is the lowerer's own affair: `SelfParamLifetimeLowerer::new` gives a lowerer that stands
//! for the beginning of a signature, each call says what it makes of that, and `finish` what the environment is.
//!
//! Named as in the crate `diplomat_core`, whose module `hir::elision` this restates.
#![tactic(auto)]

mod definition;
mod fault;
mod generics;
mod lowerer;
mod numbering;
mod params;
mod returns;
mod self_param;
mod source;

pub use definition::DefinitionLowerer;
pub use fault::ElideFault;
pub use lowerer::{LifetimeLowerer, LowerLifetime, StandsFor};
pub use numbering::MOST_LIFETIMES;
pub use params::ParamLifetimeLowerer;
pub use returns::ReturnLifetimeLowerer;
pub use self_param::SelfParamLifetimeLowerer;
