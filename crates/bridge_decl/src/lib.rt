//! The declarations of a foreign interface as plain data.
//!
//! A *bridge* is a module of Rust whose types and functions other languages may use. This crate has what stands in
//! one, word for word as it is written and without judging it: one type per kind of declaration, named as in the crate
//! `diplomat_core`, whose `ast` layer this restates. One example runs through it:
//!
//! ```text
//! mod ffi {                                      Module: a path, items, aliases
//!     pub struct Cut<'a> { text: &'a str }       Item::Struct: its lifetimes, fields, methods
//!     impl<'a> Cut<'a> {
//!         pub fn shorter<'b: 'a>(&'b self, n: u8) -> Cut<'a>      Method
//!     }
//! }
//! ```
//!
//! # Types as they are written
//!
//! A [`TypeName`] is a tree: `&'a str` is `StrReference(Some(Named("a")), Utf8, ..)`, the receiver's `&'b self` a
//! [`SelfParam`] with the lifetime `b`, and `Cut<'a>` a [`PathType`] of one segment and one lifetime. What a path
//! names is not known here: that takes all modules, and is `bridge_ast`'s.
//!
//! # Lifetimes and their bounds
//!
//! A [`LifetimeEnv`] lists what a declaration declares: for `shorter` first the `'a` of its impl, then its own `'b`. A
//! bound stands at both of its ends: `'b: 'a` puts the number of `b` among those that are longer at the node of `a`,
//! and that of `a` among those that are shorter at the node of `b`. `specs/Lifetimes` says when the lifetimes of a
//! declaration fit together (`IsSoundEnvironment`), for this crate and for all above it.
//!
//! # Names
//!
//! The names in declarations are texts, seen by contracts as the lists of their bytes. What they are, which of them are
//! identifiers and how patterns change them is `bridge_text`'s, all of which this crate hands on: a [`Text`], an
//! [`IdentBuf`], a [`RenameAttr`], a [`NameIndex`]. [`index_lifetimes`] gives the number of each lifetime's name, so
//! that nothing above searches a list: of `shorter` it has `a` at 0 and `b` at 1.
//!
//! # Copies
//!
//! Each declaration has a `try_clone`, whose contract says that the copy is equal to it: every text, list and box in
//! it is a type that contracts see by its value.
#![tactic(auto)]

mod attrs;
mod docs;
mod enums;
mod functions;
mod index;
mod lifetimes;
mod methods;
mod modules;
mod paths;
mod structs;
mod traits;
mod types;

pub use attrs::{Assign, Attrs, DiplomatBackendAttr, DiplomatBackendAttrCfg, Lit, Meta, MetaValue};
pub use bridge_text::{
    AttrInheritContext, IdentBuf, IdentFault, NameIndex, NoMemory, RenameAttr, RenameFault, Text,
    clone_items, clone_option, clone_texts, is_ident, take_name,
};
pub use docs::{DocBlock, DocType, Docs, RustLink, RustLinkDisplay};
pub use enums::{Enum, Variant};
pub use functions::Function;
pub use index::index_lifetimes;
pub use lifetimes::{Lifetime, LifetimeEnv, LifetimeNode};
pub use methods::{Method, Param, SelfParam};
pub use modules::{Alias, Item, Module};
pub use paths::PathType;
pub use sqlite_items::{Boxed, Items};
pub use structs::{Field, OpaqueType, Struct};
pub use traits::{Trait, TraitMethod, TraitSelfParam};
pub use types::{Mutability, PrimitiveType, StdlibOrDiplomat, StringEncoding, TypeName, WriteType};
