//! Types as backends see them, at the positions where they stand.
//!
//! A bridge is lowered before bindings are made of it: paths have become ids, lifetimes numbers,
//! and a type is one of few variants. One example runs through this crate:
//!
//! ```text
//! #[diplomat::opaque] pub struct Page<'a>(..);
//! pub struct Line<'a> { text: &'a DiplomatStr }
//! #[diplomat::out] pub struct Found<'a> { page: Box<Page<'a>>, line: Line<'a> }
//! impl<'a> Page<'a> {
//!     pub fn find<'p>(&'p self, test: impl Fn(Line<'p>) -> bool) -> Option<Found<'p>>;
//! }
//! ```
//!
//! # Positions
//!
//! What may stand in a type depends on where the type stands. `Box<Page>` is only handed out,
//! since another language might go on using what it handed in; and a callback is only handed in.
//! So a type has a parameter, its position, and what isn't allowed there can't be written down:
//!
//! | position | callbacks | opaques | structs | traits | status |
//! |---|---|---|---|---|---|
//! | [`Everywhere`] | none | borrowed | `Line` | none | both |
//! | [`InputOnly`] | [`Callback`] | borrowed | `Line` | [`TraitPath`] | input |
//! | [`OutputOnly`] | none | borrowed or owned | `Line`, `Found` | none | output |
//! | [`CallbackReturn`] | none | borrowed | `Line` | [`TraitPath`] | input |
//!
//! The fields of `Line` stand everywhere; `test` is at an input; what `find` returns, what `test`
//! takes and the fields of `Found` are outputs; and what `test` returns is a callback's return.
//!
//! [`TyPosition`] is the table, one associated type a column. [`PositionTypes`] makes of a
//! callback or of a path to a trait what it is at a position, where the position has them. The
//! fourth position is apart from the second so that no callback holds a callback.
//!
//! # Types
//!
//! A [`HirType`] is one of eight variants. The `&'p self` of `find` is a [`SelfType`], `Page`
//! borrowed for `'p`. What `find` returns is a [`ReturnType`]: `Nullable` with the success
//! `Found<'p>`, by a path of which the one lifetime is the number of `'p`.
//!
//! # What is asked of types
//!
//! - [`HirType::lifetimes`] gives the lifetimes in a type: of `&'p Page<'a>` first `'a` and then
//!   `'p`.
//! - [`ReturnType::used_method_lifetimes`] gives the numbers of those that a method's return
//!   names: for `find` the number of `'p`. These are the lifetimes under which a page lists what
//!   the returned value may borrow.
//! - [`HirType::id`] is the definition that a type names, and [`HirType::unwrap_option`] what is
//!   inside an option.
//! - [`HirType::is_immutably_borrowed`] and its kin say how an opaque or a struct is held.
//!
//! Contracts see a type as plain data, in which a list is a list and a box is what is in it. So a
//! copy of a type is equal to it.
//!
//! Named as in the crate `diplomat_core`, whose modules `hir::types`, `hir::paths`,
//! `hir::ty_position` and parts of `hir::methods` this restates.
#![tactic(auto)]

mod callbacks;
mod copies;
mod iterating;
mod laws;
mod named;
mod paths;
mod position_types;
mod positions;
mod returns;
mod self_types;
mod slices;
mod types;
mod writers;

pub use callbacks::{
    Callback, CallbackInstantiationFunctionality, CallbackParam, NoCallback, TraitParamSelf,
};
pub use copies::CopiesSome;
pub use iterating::TypeLifetimes;
pub use laws::{callbacks_come_in, statuses, traits_come_in};
pub use paths::{
    EnumPath, NoTraitPath, OpaquePath, OutStructPath, ReturnableStructPath, StructPath,
    StructPathLike, TraitIdGetter, TraitPath,
};
pub use position_types::PositionTypes;
pub use positions::{CallbackReturn, Everywhere, InputOnly, OutputOnly, TyPosition};
pub use returns::{ReturnType, SuccessType};
pub use self_types::SelfType;
pub use slices::Slice;
pub use types::{HirType, OutType};
pub use writers::WriteType;
