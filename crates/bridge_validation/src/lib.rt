//! Which rules the types, the callables and the traits of a context break.
//!
//! Where nothing is wrong in declarations by themselves, they are tested as what they are lowered to. One example runs through this crate:
//!
//! ```text
//! #[diplomat::opaque] pub struct Page(..);
//! pub struct Mark { line: u32 }
//! pub struct Sheet<'a> { mark: &'a Mark }
//! impl Page {
//!     pub fn open(of: &Page) -> &Page;
//!     pub fn turn<'a>(&'a self, marks: &[Mark]) -> &'a Page;
//! }
//! pub trait Reader { fn read(&self, line: u32) -> bool; }
//! pub fn first(of: &Page) -> &Page;
//! ```
//!
//! A context is gone through type by type, then trait by trait, then function by function (`contexts`).
//!
//! Of a type it is asked what it is itself, and then what each of its methods takes and returns (`hir_validation`). The field of `Sheet` is a
//! reference to a struct, so `Sheet` breaks `FieldBorrow`; and `Mark` isn't marked `abi_compatible`, so `turn`, which takes a slice of such,
//! breaks `AbiUnmarked`. Of the methods of a type more is asked than of functions (`callables`): one that returns a lifetime writes its name, so
//! `open` breaks `ElidedReturn`, and `turn` doesn't. Functions may leave it out, as `first` does. A callable whose inputs have too many leaves
//! (`bridge_leaves`) breaks `TooManyLeaves`, method or function. A trait is asked for its methods: `read` can't fail, so it breaks
//! `CallbackReturn` for a backend whose callbacks must be able to.
//!
//! A report stands at the path of the module, at the type, the trait or the function in it, and at the method where it is of one (`places`): of
//! `Sheet`, of `Page::turn`, of `Reader::read`.
//!
//! [`context_reports`] tells all that is broken so, in this order; [`lowered_contexts_are_told_by_their_rules`] says that this is exactly what
//! breaks a rule (a file a rule in `specs/rules/`, here and in `hir_validation`).
//!
//! As in the crate `diplomat_core`, `TypeContext::validate` of the module `hir::type_context`; the limit of leaves is this
//! repository's own.
#![tactic(auto)]

mod callables;
mod contexts;
mod laws;
mod places;

pub use contexts::context_reports;
pub use laws::lowered_contexts_are_told_by_their_rules;
