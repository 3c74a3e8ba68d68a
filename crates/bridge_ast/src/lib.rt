//! Modules of declarations that fit together, and what paths name in them.
//!
//! `bridge_decl` has declarations as they are written; this crate tests that they fit together, and finds what their
//! paths name. What `bridge_decl` offers is offered here too. Both restate the `ast` layer of the crate
//! `diplomat_core`, whose names they keep. One example runs through both:
//!
//! ```text
//! mod ffi {                                      module 0, the root: its path is empty
//!     use text::Cut as Piece;                    an alias of module 0 with the target `text::Cut`
//!     fn longest<'a>(x: &'a Piece) -> &'a Piece  item 0 of module 0
//!     mod text {                                 module 1, with the path `text`
//!         struct Cut<'a> { .. }                  item 0 of module 1
//!         impl<'a> Cut<'a> { fn shorter<'b: 'a>(&'b self, n: u8) -> Cut<'a> }      its method 0
//!     }
//! }
//! ```
//!
//! # What fits together
//!
//! An [`Env`] is made by [`Env::new`] of a list of modules that fit together (`specs/Sound`): no two have one path;
//! each stands after its parent, as `text` after the root; no two items or aliases of a module, and no submodule, have
//! one name, so nothing else in the root may be called `Piece` or `text`; and the lifetimes of each declaration fit
//! together. That is the environment of `Cut`, of `longest` and of `shorter` apart: the names are distinct, and the
//! bound `'b: 'a` of `shorter` is listed at both of its ends.
//!
//! # The first fault
//!
//! Modules that don't fit together are refused with the first of their faults (`specs/EnvFaults`), with its place and,
//! where something stands twice, the earlier place. Modules are looked through in order: a path, then the items (the
//! name, the item's lifetimes, those of its methods), then the aliases. Were there a second alias `Piece`, it would be
//! told as alias 1 of module 0, and alias 0 with it.
//!
//! # What a path names
//!
//! The cases are those of the Rust Reference (`specs/Paths`): `crate`, `self` and `super` lead to a module, a name to
//! a submodule, to an alias, or to an item, which stands last. From module 0 the path `Piece` names the item 0 of
//! module 1: an alias is replaced by its target, and the path that comes of it, `text::Cut`, is read where the alias
//! stands. From module 1 it is `super::Piece`. Aliases may lead in circles, so as many of them are followed as there
//! are in the environment and segments in the path: such a path names nothing.
//!
//! No path is searched for. Where each alias leads is found once, when the environment is made, and [`Env::resolve`]
//! goes along the segments alone.
#![tactic(auto)]

mod alias_ends;
mod bounds;
mod environment;
mod fault;
mod items;
mod names;
mod nodes;
mod place;
mod resolution;
mod scopes;
mod trail;

pub use bridge_decl::{
    Alias, Assign, AttrInheritContext, Attrs, Boxed, DiplomatBackendAttr, DiplomatBackendAttrCfg,
    DocBlock, DocType, Docs, Enum, Field, Function, IdentBuf, IdentFault, Item, Items, Lifetime,
    LifetimeEnv, LifetimeNode, Lit, Meta, MetaValue, Method, Module, Mutability, NameIndex,
    NoMemory, OpaqueType, Param, PathType, PrimitiveType, RenameAttr, RenameFault, RustLink,
    RustLinkDisplay, SelfParam, StdlibOrDiplomat, StringEncoding, Struct, Text, Trait, TraitMethod,
    TraitSelfParam, TypeName, Variant, WriteType, clone_items, clone_option, clone_texts,
    index_lifetimes, is_ident, take_name,
};
pub use environment::Env;
pub use fault::{EnvFault, EnvFaultKind, EnvPart, EnvPlace};
pub use items::name_of;
pub use place::ItemPlace;
pub use resolution::{CustomType, TraitAt};
