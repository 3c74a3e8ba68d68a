//! Declarations of any size, made from a number.
//!
//! What reading, lowering and borrowing take is measured on inputs that grow. Those of this crate are an environment ([`Env`](bridge_ast::Env))
//! as it would be read, without any text being read. [`generated`] makes for 9:
//!
//! ```text
//! struct O;                                  an opaque
//! struct S0<'a> { x: &'a O }
//! struct S1<'a> { x: &'a O, s: S0<'a> }
//! struct S2<'a> { x: &'a O, s: S1<'a> }
//! ..
//! struct S7<'a> { x: &'a O, s: S6<'a> }
//! struct S8<'a> { x: &'a O }
//! fn f0<'a, 'b: 'a>(p: S0<'a>, q: &'b O) -> &'a O
//! ..
//! fn f8<'a, 'b: 'a>(p: S8<'a>, q: &'b O) -> &'a O
//! ```
//!
//! The first of each eight structs has no other in it, so they nest eight deep at most: `f7` may return any of eight `x` within `p`, and `f8`
//! only one. By the bound `'b: 'a` each may return `q` as well.
//!
//! All else is as where it is left out of an input: there are no documents, marks, aliases and methods, and a symbol has the name of its item.
//! `specs/Generated` says what each declaration is.
#![tactic(auto)]

mod functions;
mod generating;
mod laws;
mod names;
mod parts;
mod structs;
mod types;

pub use generating::generated;
pub use laws::{generated_declarations_fit_together, generated_paths_name_types};
