//! What lowered types are made of: primitive types, borrows and owners, names, and the ids of
//! definitions.
//!
//! A bridge declares types and functions, and its signatures speak of them:
//!
//! ```text
//! pub struct Line<'a> { text: &'a DiplomatStr, number: u32 }
//! #[diplomat::opaque] pub struct Page(..);
//! impl Page { pub fn line<'p>(&'p self, n: u32) -> Option<Line<'p>>; }
//! ```
//!
//! # Primitive types
//!
//! The `u32` of `number` is `PrimitiveType::Int(IntType::U32)`, whose [`PrimitiveType::as_str`] is
//! `u32`. Primitive types are grouped as backends treat them: integers of up to 64 bits, those of
//! the machine's size, those of 128 bits, floats, and the rest.
//!
//! # Owners
//!
//! The receiver of `line` is a [`Borrow`]: for the lifetime `'p`, and not to be written through.
//! What may be owned instead, as a struct or a box, is a [`MaybeOwn`]. Both are an
//! [`OpaqueOwner`], so that a path to an opaque can be had with either: inputs have opaques by
//! reference alone, outputs also in a box. Likewise an opaque that may be absent has the marker
//! [`Optional`], and a receiver [`NonOptional`].
//!
//! # Ids
//!
//! A path names its definition by an id: the place of the definition among those of its kind.
//! `Page` is the first opaque, so its id is `OpaqueId::new(0)`. Each kind has a type of its own,
//! so that no place of one kind is taken for one of another. A [`TypeId`] is any of the four that
//! types have, and a [`SymbolId`] also that of a trait or a function. `From` goes from the
//! narrower to the wider, and `TryFrom` back where the id is of that kind. Ids can be keys: their
//! order, equality and hash agree.
//!
//! Named as in the crate `diplomat_core`, whose module `hir::primitives` and parts of
//! `hir::paths`, `hir::ty_position`, `hir::defs` and `hir::type_context` this restates.
#![tactic(auto)]

mod conversions;
mod idents;
mod ids;
mod laws;
mod owners;
mod primitives;

pub use idents::Ident;
pub use ids::{EnumId, FunctionId, OpaqueId, OutStructId, StructId, SymbolId, TraitId, TypeId};
pub use laws::{a_borrow_is_never_owned, ids_agree, symbols_convert_back};
pub use owners::{Borrow, InputOrOutput, MaybeOwn, NonOptional, OpaqueOwner, Optional};
pub use primitives::{FloatType, Int128Type, IntSizeType, IntType, PrimitiveType};
