//! Whole methods and functions: told with all that is wrong in them, or else lowered.
//!
//! One example runs through this crate:
//!
//! ```text
//! #[diplomat::opaque] pub struct Page(..);
//! impl Page {
//!     /// Writes the line.
//!     pub fn print<'fn>(&'fn self, line: u8, #[diplomat::attr(auto, colour)] last: Page, w: &mut DiplomatWrite);
//!     pub fn turn(&self, by: u8) -> bool;
//!     #[diplomat::attr(kotlin, disable)] pub fn fold(self, at: Corner);         there is no Corner
//! }
//! #[diplomat::attr(kotlin, disable)] pub fn open(at: Corner) -> Box<Page>;
//! ```
//!
//! # All that is wrong, in one order
//!
//! A method has parts: its marks, its heading, its receiver, its parameters and its types. `hir_heads` knows how a name, marks and
//! documents are read, and `hir_signatures` what is wrong with types and what they are lowered to. This crate goes through the parts of one
//! declaration, in one order, and what is wrong in one part keeps no other from being told. Two things are told of `print`: its
//! lifetime `'fn` has a name that is no identifier, and `last` has a mark that doesn't exist. Since a lifetime has no name, its types aren't
//! judged beyond their paths, and that `last` is an opaque by value isn't told yet. In `turn` nothing is wrong: it is lowered to a
//! method with a receiver, one parameter, and a return.
//!
//! The last parameter of `print` is its trailing writer. It stands for the return, and is no parameter: neither its name nor its
//! marks are tested, and what is made of `print` would have two parameters.
//!
//! # Where marks start
//!
//! The marks of a method start from those that its caller hands in: what the module hands on. Those of a receiver and of a parameter start
//! from none, so what is said of a method is never said of its parameters.
//!
//! # What is disabled
//!
//! For `kotlin` the method `fold` and the function `open` are disabled. Of `fold` the marks are read, and nothing else of it is looked at;
//! it is left out, so nothing is told of `Corner` and nothing is made ([`lower_method`]). A disabled function stays, for a function has
//! a number among the functions: its heading is tested too, and it is made without lifetimes, parameters and a return
//! ([`lower_function`]). An enabled one needs a backend that has functions outside types.
//!
//! # Special methods
//!
//! Marked as a `getter`, `turn` would break `SpecialParams`, since it takes something. What a method is marked as is tested by
//! `hir_special`, of what was made of it: so it is told last, and only where nothing else is told of the method.
//!
//! # What is made
//!
//! Where nothing is told, what is enabled is made, and for no other reason is it left out ([`what_is_fine_is_made`]). The names and the
//! marks of the parameters are read before the types are, and the two lists are joined at the end, one by one.
//!
//! As in the crate `diplomat_core`, module `hir::lowering`.
#![tactic(auto)]

mod choosing;
mod functions;
mod headings;
mod joining;
mod laws;
mod methods;
mod params;
mod reading;
mod required;
mod special;
mod types;
mod whole;
mod writers;

pub use choosing::{beside, keep, kept_if, paired};
pub use functions::lower_function;
pub use joining::{Lacking, join_beside};
pub use laws::what_is_fine_is_made;
pub use methods::lower_method;
pub use reading::{read_docs, read_marks};
