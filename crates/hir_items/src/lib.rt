//! Whole items of modules: structs, out-structs, opaques, enums and functions, told with all that is wrong in them, or else lowered.
//!
//! One example runs through this crate:
//!
//! ```text
//! #[diplomat::attr(auto, namespace = "text")]
//! mod fonts {
//!     /// The letters of one style.
//!     #[diplomat::opaque] pub struct Face<'a>(..);
//!     impl<'a> Face<'a> {
//!         pub fn name(&self, w: &mut DiplomatWrite);
//!         pub fn glyph(&self, at: Corner) -> u32;                       there is no Corner
//!         #[diplomat::attr(kotlin, disable)] pub fn hint(self);         an opaque by value
//!     }
//!     pub struct Nothing {}
//!     impl Nothing { pub fn new() -> u8; }
//!     #[diplomat::attr(kotlin, disable)] pub enum Weight { fn = 0, Bold = 1 }
//!     impl Weight { pub fn of(at: Corner) -> Weight; }
//!     pub fn open() -> u8;
//! }
//! ```
//!
//! # All that is wrong, each at its place
//!
//! `hir_methods` knows what is wrong with one method or function, and `hir_fields` what with the fields of a struct and the variants of
//! an enum. This crate goes through one item whole. What is wrong with the item itself is told at the item; then each of its methods is
//! gone through, and what is wrong in one is told at that method. A fault in one part ends nothing: want of memory alone does. Of `Face`
//! one thing is told for `kotlin`, at `Face::glyph`: that `Corner` names nothing. Where nothing is told, the definition is made
//! ([`lower_opaque`], [`lower_enum`], [`lower_struct`], [`lower_out_struct`], [`lower_free_function`]), and that there is one is a law
//! ([`what_is_fine_is_made`]).
//!
//! Of the item itself all calls tell in one order: what its marks break, the conditions of its documents, its name, the names of its
//! lifetimes, the name of an opaque's destructor, and then what its kind has: that an opaque declares too many lifetimes, the variants of
//! an enum, the fields of a struct. A struct without fields may have no methods, so that is told of `Nothing`; an out-struct may.
//!
//! # Special methods
//!
//! Whether a method is what its mark as a special one asks is told at the method, by `hir_methods`. That a type has two of a kind that
//! stands once is no matter of one method: after all methods were gone through, it is told at the later one. So if `name` and `glyph`
//! were both marked as a `comparison`, it would be told at `Face::glyph`.
//!
//! # Where marks start
//!
//! The marks of `Face` start from what a type takes over of the marks of `fonts`: the namespace is one of it. Those of its methods start
//! from the module too, from what a method takes over: that is no namespace, and nothing of the marks of `Face`. Functions are items as
//! types are. The variants of an enum start from the enum's own marks.
//!
//! # What is disabled
//!
//! For `kotlin` the method `hint` is left out, so nothing is told of it. `Weight` is disabled as a whole: it stays as a definition, since
//! a type has a number among those of its kind, but its methods aren't looked at, and nothing is told of `Corner` there. Of a disabled
//! item these things alone are tested: its marks, the conditions of its documents, its name and the names of its lifetimes, the name of
//! an opaque's destructor, and the variants of an enum. So it is told that `fn` is no name for a variant. A disabled struct has no
//! fields. What a disabled function keeps, `hir_methods` says.
//!
//! # What is filled in later
//!
//! Which methods are special and how a type is used are known once all items are lowered. So each definition starts without special
//! methods, and as one that nobody uses.
//!
//! As in the crate `diplomat_core`, module `hir::lowering`.
#![tactic(auto)]

mod choosing;
mod defining;
mod enums;
mod functions;
mod heads;
mod laws;
mod loans;
mod opaques;
mod repeated;
mod structs;
mod telling;
mod type_methods;

pub use enums::lower_enum;
pub use functions::lower_free_function;
pub use laws::what_is_fine_is_made;
pub use loans::Lowering;
pub use opaques::lower_opaque;
pub use structs::{lower_out_struct, lower_struct};
