//! All declarations of an environment as one context, or what is broken in them.
//!
//! One example runs through this crate:
//!
//! ```text
//! mod crate::data  { struct Line { start: u32 }  #[diplomat::out] struct Cut { line: Line } }
//! mod crate::ui    { #[diplomat::opaque] struct Page(..);  impl Page { fn longest(&self, lines: &[Line]) -> Cut; } }
//! ```
//!
//! Nothing is wrong here, so `TypeContext::from_env`, by the trait [`FromEnv`], answers with the context of all items, kind by kind and in
//! order, of which none is left out: an out-struct `Cut`, a struct `Line` and an opaque `Page`. Each has how all others use it, as that `Line` is
//! sliced, and the path of the module that its item stands in. Where a rule is broken, it answers with reports, one at least at each such place,
//! in two steps of which the first that tells anything is the last:
//!
//! | what is looked at | what may be told |
//! |---|---|
//! | modules, then items kind by kind | `Kex names nothing`, at `ui::Page::print` |
//! | how structs nest | `Line` contains itself, at `data::Line` |
//!
//! That all definitions fit together is a law, [`what_is_accepted_fits`]: a function whose contract says so.
//!
//! As in the crate `diplomat_core`, module `hir::type_context`; the rules on nesting are this repository's own.
#![tactic(auto)]

mod fault;
mod from_env;
mod laws;
mod placing;
mod refusing;

pub use fault::LowerFault;
pub use from_env::FromEnv;
pub use hir_config::LoweringConfig;
pub use hir_context::TypeContext;
pub use laws::what_is_accepted_fits;
