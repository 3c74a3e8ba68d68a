//! The marks of modules.
//!
//! One example runs through this crate:
//!
//! ```text
//! #[diplomat::attr(js, disable)]
//! mod app {
//!     #[diplomat::attr(auto, namespace = "text")]
//!     mod fonts { struct Face { .. } }
//!     mod files { .. }
//! }
//! ```
//!
//! # From the root down
//!
//! A module is marked as a type is: whether a backend leaves it out, in which namespace it is, how what stands in it is renamed. What is marked at
//! a module holds for all that stands in it, so its marks start from those of the module around it, and those of the root start from none. For the
//! backend `js` all three modules are disabled, and only what stands in `fonts` has the namespace. The items of a module start from what it
//! hands on (`Attrs::for_inheritance` of `hir_attrs`), which is for the crates above.
//!
//! # What is told
//!
//! [`lower_modules`] reads the marks of all modules, and gives them by the modules' numbers. It goes through the modules in the order of
//! `bridge_order`, by the number of the segments of their paths, so that the module around another comes before it. What a module's marks
//! break is told at the module, with no item. A second `disable` at `fonts` would be one too many, since `app` hands its own on.
//!
//! As in the crate `diplomat_core`, module `hir::lowering`, where the marks of a module are read when its items are.
#![tactic(auto)]

mod modules;

pub use modules::lower_modules;
