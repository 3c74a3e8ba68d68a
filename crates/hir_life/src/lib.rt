//! Lifetimes as numbers: what they are called, which bounds are declared between them, and which of them outlive which.
//!
//! # What lifetimes say of a returned value
//!
//! A binding for another language has to keep alive whatever a returned value borrows from. Rust's lifetimes say what that is:
//!
//! ```text
//! fn pick<'a, 'b: 'a, 'c: 'b>(x: &'c Opaque, y: &Opaque) -> &'a Opaque
//! ```
//!
//! The answer lives for `'a`. It may borrow from an input whose lifetime lasts at least as long: that of `x` does, since `'c`
//! outlives `'b` and `'b` outlives `'a`. That of `y`, which has no name, has no bound at all, and nothing is borrowed from `y`.
//! So all that is asked of lifetimes is which outlive which, and that follows from the declared bounds.
//!
//! # Numbers in place of names
//!
//! A [`Lifetime`] is a number beside the [`LifetimeEnv`] that it belongs to. The named lifetimes come first, in the order of their
//! declaration, and the anonymous ones after them:
//!
//! | written | number | called | declared longer | declared shorter |
//! |---|---|---|---|---|
//! | `'a` | 0 | `a` | 1 | |
//! | `'b` | 1 | `b` | 2 | 0 |
//! | `'c` | 2 | `c` | | 1 |
//! | the borrow of `y` | 3 | `anon_0` | | |
//!
//! Each bound stands at both of its ends, so that a walk may go either way: `'b: 'a` puts 1 among the longer of 0, and 0 among the
//! shorter of 1. Bounds are between named lifetimes alone. [`LifetimeEnv::of_declared`] makes such an environment of declared
//! lifetimes, and [`LifetimeEnv::add_anonymous`] adds to it the lifetimes that a signature leaves without a name.
//!
//! `'static` is no number of an environment: where it may stand, the type is [`MaybeStatic`].
//!
//! # Outliving
//!
//! A lifetime outlives another where a chain of declared bounds leads from it to the other, or where both are the same. In the
//! example 0, 1 and 2 outlive 0, and only 3 outlives 3. Bounds may form a cycle, as `'a: 'b, 'b: 'a`: then both outlive each other.
//! `specs/Outlives` has these words as definitions, and the contracts speak of nothing else.
//!
//! - [`LifetimeEnv::all_longer_lifetimes`] walks from a lifetime over those that outlive it: from 0 it gives 0, 1, 2. It gives each
//!   once and follows each bound once, whatever the bounds look like. [`LifetimeEnv::all_shorter_lifetimes`] walks the other way.
//! - [`LifetimeEnv::longer_of`] gives the same as a list, with a bound on the steps that this takes.
//! - [`LifetimeEnv::outliving_flags`] gives it as one flag for each lifetime.
//! - [`SubtypeLifetimeVisitor`] calls a function at each named lifetime that outlives one of several, once over all its visits.
//!
//! # Lifetimes of a definition where it is used
//!
//! A definition has lifetimes of its own. Where it is used, arguments stand for them: for `struct Foo<'a, 'b> { bar: Bar<'b> }` and
//! `fn g<'x>(foo: Foo<'static, 'x>)` the `'b` of `bar` is the `'x` of `g`. [`Lifetimes::as_method_lifetimes`] puts the arguments in
//! their places, and a law says that doing so twice is doing so once with the substituted arguments.
//!
//! Named as in the crate `diplomat_core`, whose module `hir::lifetimes` this restates.
#![tactic(auto)]

mod all_lifetimes;
mod bounds;
mod declared;
mod environment;
mod laws;
mod lifetime_index;
mod lifetimes;
mod longer;
mod maybe_static;
mod naming;
mod outliving;
mod reaching;
mod steps;
mod visiting;
mod walker;
mod walks;

pub use all_lifetimes::AllLifetimes;
pub use bounds::{BoundedLifetime, LifetimeList};
pub use environment::LifetimeEnv;
pub use laws::{
    order_equality_and_hash_agree, outlives_is_a_preorder, shorter_is_the_converse_of_longer,
    substitution_composes,
};
pub use lifetime_index::Lifetime;
pub use lifetimes::{Lifetimes, LifetimesIter};
pub use maybe_static::MaybeStatic;
pub use naming::LifetimeName;
pub use steps::Steps;
pub use visiting::SubtypeLifetimeVisitor;
pub use walks::{Direction, LifetimeTransitivityIterator};
