//! Where marks may stand: what the set of a declaration breaks by the kind of what is marked.
//!
//! Which marks a declaration has for a backend says `hir_attrs`. Not every one of them makes sense everywhere. One example runs
//! through this crate, for a backend that has no custom bindings:
//!
//! ```text
//! #[diplomat::opaque]
//! #[diplomat::attr(auto, default)]
//! #[diplomat::attr(*, custom_extra_code(source = "..", location = "def_block"))]
//! pub struct Map(..);
//! ```
//!
//! # Contexts
//!
//! An [`MarkContext`] is the kind of what is marked; that of `Map` is `Opaque`. A table says which marks may stand in which
//! context (`specs/Contexts`): `default` on the variants of enums alone, so it is misplaced on `Map`. Included code may stand on an
//! opaque; but the backend doesn't support it.
//!
//! # What is told
//!
//! [`validate_attrs`] tells first of each misplaced mark in the order of the table of marks, then of a special method, then of
//! `abi_rename` (rule `MarkMisplaced`), and last of included code that the backend doesn't support (rule `IncludeUnsupported`). So of
//! `Map` two things are told. Fields of out-structs aren't tested, nor is a disabled method.
//!
//! [`tested_attrs`] reads the marks of a declaration and tests the set that they make: what the marks break comes first.
//!
//! As in the crate `diplomat_core`, `Attrs::validate` of the module `hir::attrs`.
#![tactic(auto)]

mod contexts;
mod sets;
mod testing;

pub use contexts::MarkContext;
pub use testing::{tested_attrs, validate_attrs};
