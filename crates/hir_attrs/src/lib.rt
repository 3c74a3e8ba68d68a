//! The marks of declarations: what they come to for a backend, which rules they break, and what is taken over from them.
//!
//! A declaration carries marks, each under a condition on backends. One example runs through this crate:
//!
//! ```text
//! #[diplomat::attr(auto, namespace = "maps")]
//! mod ffi {
//!     #[diplomat::opaque]
//!     #[diplomat::attr(not(kotlin), rename = "Flat{0}")]
//!     pub struct Map(..);
//!     impl Map {
//!         #[diplomat::attr(auto, getter = "size")]
//!         pub fn len(&self) -> u32 { .. }
//!     }
//! }
//! ```
//!
//! # One mark
//!
//! A mark is read in this order, and the first step that says so skips it (`specs/Reading`):
//!
//! 1. its condition is tested, with `auto` allowed; a fault is told, and what isn't met is left aside;
//! 2. a name of another number of segments than one is left aside;
//! 3. a name for which [`BackendAttrSupport::check_string`] says no is told as unsupported, but not under `auto`;
//! 4. the names of special methods, here `getter`, give a [`SpecialMethod`]; the first one stays;
//! 5. any other name has one row in the table of marks (`specs/Marks`): the flag that it needs, what it takes, and what it sets.
//!
//! So for a backend without accessors `getter` isn't refused by step 3, since the key is `accessors` and the name `getter`: whether the
//! method can be had is asked where it is lowered.
//!
//! # All marks of a declaration
//!
//! [`Attrs::from_ast`] starts from what is taken over of the parent ([`Attrs::for_inheritance`]), and takes the marks in order. For `cpp`,
//! `Map` comes to the namespace `maps`, taken over, and the pattern `Flat{0}`; for `kotlin` to the namespace alone. `len` takes neither
//! over, and is a getter. The rules that marks break are told in order, into an [`ErrorStore`].
//!
//! The rules and their reports are those of `hir_reports`, and backends and conditions those of `hir_backends`; both are re-exported here.
//! Named as in the crate `diplomat_core`, whose module `hir::attrs` this restates.
#![tactic(auto)]

mod attrs;
mod change;
mod includes;
mod marks;
mod names;
mod reading;
mod special;
mod values;

pub use attrs::Attrs;
pub use hir_backends::{
    AttributeValidator, BackendAttrSupport, BasicAttributeValidator, CfgFault, Met, Names, Pairs,
    SupportFlag, meets, satisfies_cfg,
};
pub use hir_reports::{
    ErrorAndContext, ErrorContext, ErrorStore, LoweringError, LoweringReport, Rule,
};
pub use includes::{IncludeLocation, IncludeSource};
pub use names::MarkName;
pub use special::{MarkFault, SpecialKind, SpecialMethod};
pub use values::DefaultArgValue;
