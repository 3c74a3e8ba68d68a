//! Signatures and definitions with their paths resolved and their lifetimes numbered, and what is wrong with their paths and lifetimes
//! before that.
//!
//! # The example
//!
//! ```text
//! impl<'a> Foo<'a> {
//!     fn f(&self, x: &'a Opaque, y: Pair<'a>) -> Option<&Opaque>;      where Pair has two lifetimes
//! }
//! ```
//!
//! # Uses
//!
//! All that either pass asks of a signature stands in one flat list: its uses of lifetimes and of paths, from left to right, the
//! outer before the inner (`specs/Uses`, `specs/Signatures`). A use is of one lifetime, or of the generics of a path with the
//! definition that it names:
//!
//! | part | use | lifetimes | numbers |
//! |---|---|---|---|
//! | the receiver's borrow | of one | left out | 1 |
//! | the receiver's type | of `Self`, `Foo<'a>` | `'a` | 0 |
//! | `x` | of one | `'a` | 0 |
//! | `x` | of the path `Opaque` | none | none |
//! | `y` | of the path `Pair<'a>` | `'a`, and one that isn't written | 0, 2 |
//! | the return | of one | left out | 1, that of the receiver's borrow |
//! | the return | of the path `Opaque` | none | none |
//!
//! Neither tests nor numbers look into the tree of a type again: they are functions of this list.
//!
//! # Tested first
//!
//! [`method_breaches`] and its kin tell all that is wrong with the uses by themselves, in order (`specs/Breaches`): a path that names nothing,
//! one that writes more lifetimes than its definition declares, a `Self` that isn't the declaring type, a lifetime that isn't declared. Where
//! more than 4,095 lifetimes are declared, that alone is told.
//!
//! # Then numbered
//!
//! [`number_method`] and its kin give the same signature with a number for each lifetime and an item for each path
//! ([`NumberedType`]). The numbers of a use are a function of the declared names and of the uses before it (`specs/Numbers`); what is
//! left out in a return is elided as `hir_elide` says. One recursion over types serves all: it is generic in the lowerer, so receivers,
//! parameters, returns, fields and the methods of traits differ in that alone. What passed the tests is refused for elision, for a definition that
//! leaves a lifetime out, for more than 4,095 lifetimes, or for want of memory, and for nothing else; and each path in it comes back with as many
//! numbers as its definition declares lifetimes (`specs/Arity`).
//!
//! # What paths name
//!
//! The definitions read paths through a [naming](crate::paths_have_a_meaning): a function from paths to items that agrees with the cases of the
//! Rust Reference (`specs/Naming`). There is one for each module of an environment.
//!
//! Restates the part of the crate `diplomat_core`'s `hir::lowering` that resolves paths and lowers lifetimes, apart from what positions
//! allow.
#![tactic(auto)]

mod breach;
mod breaches;
mod fault;
mod fields;
mod generics;
mod indexed;
mod names;
mod numbered;
mod same;
mod scope;
mod signature;
mod tested;
mod trait_methods;
mod types;
mod writer;

pub use breach::Breach;
pub use breaches::{field_breaches, function_breaches, method_breaches, trait_method_breaches};
pub use fault::NumberFault;
pub use fields::number_fields;
pub use names::paths_have_a_meaning;
pub use numbered::{Kind, NumberedType, Target, TraitTarget};
pub use signature::{NumberedSignature, number_function, number_method};
pub use trait_methods::{NumberedTraitMethod, number_trait_method};
pub use writer::before_writer;
