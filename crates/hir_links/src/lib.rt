//! Which lifetimes stand for those of a definition where it is used.
//!
//! A definition declares lifetimes of its own, and a path that names it gives a lifetime for each
//! of them. An opaque is used behind a pointer besides, which has a lifetime that the definition
//! knows nothing of:
//!
//! ```text
//! #[diplomat::opaque] pub struct Page<'a, 'b>(..);
//! fn read<'x>(page: &'x Page<'static, 'x>) -> ..
//! ```
//!
//! | at the definition | at the use |
//! |---|---|
//! | `'a`, the number 0 | `'static` |
//! | `'b`, the number 1 | `'x` |
//! | | `'x`, the lifetime of the reference |
//!
//! [`LinkedLifetimes`] is this table. [`LinkedLifetimes::def_to_use`] reads one row of it, and
//! [`LinkedLifetimes::self_lifetime`] the last, which a struct doesn't have.
//! [`LinkedLifetimes::lifetimes_def_only`] gives the rows of the definition in order, and
//! [`LinkedLifetimes::lifetimes_all`] the last one before them. A law says that rows and single
//! questions agree.
//!
//! Named as in the crate `diplomat_core`, whose module `hir::lifetimes` has this too.
#![tactic(auto)]

mod laws;
mod links;
mod pairs;

pub use laws::links_agree_with_pairs;
pub use links::LinkedLifetimes;
pub use pairs::{AllPairsIter, DefOnlyIter};

#[cfg(test)]
mod tests;
