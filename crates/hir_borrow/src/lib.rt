//! From what the result of a method may borrow: both visitors of its inputs, and explanations.
//!
//! What a method returns may borrow from what it was given. Backends that keep alive what is
//! borrowed from ask this in one of two ways, and reviewers ask why. One example runs through this
//! crate:
//!
//! ```text
//! #[diplomat::opaque] pub struct Page<'a>(..);
//! pub struct Mark<'x, 'y> { page: &'x Page<'y>, line: u32 }
//! fn open<'a, 'b: 'a>(mark: DiplomatOption<Mark<'a, 'b>>) -> &'a Page<'b>;
//! ```
//!
//! # Two visitors
//!
//! [`MethodVisitors`] makes both from a method and its context.
//!
//! | visitor | looks | tells of `open` |
//! |---|---|---|
//! | [`BorrowingFieldVisitor`] | into structs, at any depth | that `mark.page` carries `'a` and `'b` |
//! | [`BorrowingParamVisitor`] | at inputs alone | that for `'a` `mark` is held at `'x` and at `'y`, and for `'b` at `'y` |
//!
//! The first serves backends whose structs are plain values: they keep each leaf alive. The second
//! serves those whose structs know for themselves what they borrow for each of their lifetimes: of
//! these [`StructBorrowInfo::compute_for_struct_field`] tells how they go on to their fields. That
//! both ways lead to the same leaves is a law of `hir_skeleton`.
//!
//! # Explanations
//!
//! Why something is held for a lifetime, or why it isn't, tells [`explain_leaf`], and
//! [`check_explanation`] tells whether an explanation is right. `mark.page` is held for `'a` since
//! `'a` outlives itself: the chain has `'a` alone.
//!
//! # Methods that fit
//!
//! The visitors follow what a method names through its context, where it has to fit. All methods
//! and functions that stand in a context fit it, as [`methods_of_contexts_fit`] says.
//!
//! Named as in the crate `diplomat_core`, whose calls of `hir::methods::Method` this restates.
#![tactic(auto)]

mod laws;
mod visitors;

pub use hir_borrowing_fields::{BorrowingField, BorrowingFieldVisitor};
pub use hir_borrowing_params::{
    BorrowedLifetimeInfo, BorrowingParamVisitor, LifetimeEdge, LifetimeEdgeKind, ParamBorrowInfo,
    StructBorrowInfo,
};
pub use hir_explain::{Explanation, check_explanation, explain_leaf};
pub use laws::methods_of_contexts_fit;
pub use visitors::MethodVisitors;
