//! Definitions as backends see them: structs, opaques, enums and traits, with their methods.
//!
//! What a bridge declares is lowered to definitions, which name each other by ids. One example
//! runs through this crate:
//!
//! ```text
//! #[diplomat::opaque] pub struct Page<'a>(..);
//! pub struct Line<'a> { text: &'a DiplomatStr }
//! #[diplomat::out] pub struct Found<'a> { page: Box<Page<'a>>, line: Line<'a> }
//! impl<'a> Page<'a> {
//!     pub fn find<'p>(&'p self, skip: u8, test: impl Fn(Line<'p>) -> bool) -> Option<Found<'p>>;
//! }
//! ```
//!
//! # Definitions
//!
//! `Line` is a [`StructDef`] with one [`StructField`], whose type stands everywhere. `Found` is an
//! [`OutStructDef`]: the same, but its types are those of outputs. `Page` is an [`OpaqueDef`],
//! which has no fields that a backend sees; its [`Method`] is `find`. An [`EnumDef`] has variants
//! in place of fields, and a [`TraitDef`] has callbacks for methods. [`TypeDef`] is any of the four
//! that are types, lent, with what is asked of all of them alike.
//!
//! # Methods
//!
//! A [`Method`] has the lifetimes of its signature, the anonymous ones counted too:
//! [`Method::method_lifetimes`] lists them all, `'a` and `'p` of `find`. Its receiver is a
//! [`ParamSelf`], the other parameters are [`Param`]s, without a trailing writer: that is part of
//! what is returned.
//!
//! # What is kept beside a definition
//!
//! [`TypingUseInfo`] tells how a type is used elsewhere: in slices, in options, and in which
//! results. [`SpecialMethodPresence`] tells which of its methods are more than methods: a
//! comparison, an iterator, something to iterate over. [`AttributeContext`] is what a mark stands
//! at, so that marks can be tested by where they stand.
//!
//! Named as in the crate `diplomat_core`, whose modules `hir::defs`, `hir::methods` and parts of
//! `hir::attrs` this restates.
#![tactic(auto)]

mod contexts;
mod definitions;
mod methods;
mod special;
mod type_defs;
mod usage;

pub use contexts::AttributeContext;
pub use definitions::{
    EnumDef, EnumVariant, OpaqueDef, OutStructDef, OutStructField, StructDef, StructField, TraitDef,
};
pub use methods::{Method, Param, ParamSelf};
pub use special::SpecialMethodPresence;
pub use type_defs::TypeDef;
pub use usage::{ResultUsage, ResultUsageInfo, TypingUseInfo};
