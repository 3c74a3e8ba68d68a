//! Declarations of any size, lowered, and what their callables may borrow: an input to measure with, of which nothing is read.
//!
//! `bridge_generate` makes the declarations. For a backend that has functions outside of types ([`measured`]) they break no rule, and each of
//! eight functions after another lists one leaf more: the first of the eight may return the `x` within its `p`, or its `q`, and the last one of
//! eight `x`, or its `q`. For eight the summary is
//!
//! ```text
//! callables 8
//! listed 44
//! ok
//! ```
//!
//! That is proved for each number of them, and not only for those that were tried: [`generated_declarations_break_no_rule`] and
//! [`generated_functions_are_the_callables`].
#![tactic(auto)]

mod laws;
mod measuring;

pub use laws::{generated_declarations_break_no_rule, generated_functions_are_the_callables};
pub use measuring::{measured, print_measured};
