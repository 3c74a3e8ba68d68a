//! Texts that contracts see by their bytes, the identifiers of Rust, patterns that change names, and what names stand for.
//!
//! All that stands in a declaration is in the end made of names. This crate has what can be said of them without knowing any
//! declaration, and `bridge_decl` above it hands all of it on. The examples are the names in
//!
//! ```text
//! impl<'a> Cut<'a> {
//!     pub fn shorter<'b: 'a>(&'b self, n: u8) -> Cut<'a>
//! }
//! ```
//!
//! # Texts
//!
//! A [`Text`] owns its bytes, and contracts see it as the list of them: two texts made apart, both `shorter`, are one
//! value, so a copy is equal to what it was made of and a text can be the key of a map. [`clone_items`],
//! [`clone_option`] and [`clone_texts`] carry this over to lists and to what may be absent. A short one, as most names
//! are, lies in the value itself and takes no memory of its own. A call that only takes memory has [`NoMemory`] as its
//! one error.
//!
//! # Identifiers
//!
//! [`is_ident`] says whether a text is an identifier by the rule of the Rust Reference, and an [`IdentBuf`] is a text
//! that is one. `shorter` is one; `match` is none, since it is a keyword, and `r#match` is one again. `r#self` is none:
//! no raw identifier is a keyword that may begin a path. `1a`, `_` and the empty text are none.
//!
//! # Patterns of names
//!
//! A [`RenameAttr`] is a pattern that makes a new name of one, where `{0}` stands for the name: `Cut_{0}` makes
//! `Cut_shorter` of `shorter`, and `cut`, which has no place for it, makes `cut` of every name. So where a module is
//! marked with `Cut_{0}`, its types and submodules take that over, and `cut` is taken over by none
//! ([`AttrInheritContext`]). `{0}_{0}` is refused.
//!
//! # What names stand for
//!
//! A [`NameIndex`] is an ordered map from names to what they stand for, filled by [`take_name`], so that nothing above
//! searches a list: the first time `a` is taken for 0, and when it is taken for 1 the answer is that it stands for 0
//! already, and it keeps that.
#![tactic(auto)]

mod clones;
mod idents;
mod index;
mod rename;
mod text;

pub use clones::{clone_items, clone_option, clone_texts};
pub use idents::{IdentBuf, IdentFault, is_ident};
pub use index::{NameIndex, take_name};
pub use rename::{AttrInheritContext, RenameAttr, RenameFault};
pub use text::{NoMemory, Text};
