//! The lines that tell the links of declarations to the documentation of Rust items.
//!
//! Each link of an item, and then each of its methods, has a line with the place and the URL, or a dash where the path is too short for
//! its kind. One example runs through this crate:
//!
//! ```text
//! mod ffi {
//!     #[diplomat::rust_link(std::foo::bar::batz, StructField)]
//!     #[diplomat::rust_link(std, EnumVariantField)]
//!     pub struct O(..);
//! }
//! ```
//!
//! ```text
//! ffi::O https://docs.rs/std/latest/std/foo/struct.bar.html#structfield.batz
//! ffi::O -
//! links 2
//! ```
//!
//! [`LinkLines`] takes modules one after another, in the order in which its caller goes through them, and [`LinkLines::into_text`] ends
//! with the number of lines. No rule is tested: what is disabled is told too.
#![tactic(auto)]

mod items;
mod lines;

pub use lines::LinkLines;
