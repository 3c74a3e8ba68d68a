//! Why a leaf is listed under a lifetime, or why it isn't.
//!
//! # What is explained
//!
//! A value that a call returns may borrow from its inputs. Under each lifetime `t` of the returned value stand the leaves that
//! have to be kept alive for it: those that carry a lifetime which outlives `t`. So the two questions of a reader are why a leaf
//! is listed there, and why another isn't:
//!
//! ```text
//! fn pick<'a, 'b: 'a, 'c: 'b, 'd>(x: &'c Opaque, y: &'d Opaque) -> &'a Opaque
//! ```
//!
//! | leaf | carries | listed under `'a` | explanation |
//! |---|---|---|---|
//! | `x` | `'c`, the number 2 | yes | the chain 2, 1, 0: each is declared to outlive the next |
//! | `y` | `'d`, the number 3 | no | the lifetimes 0, 1, 2 may be long and `'d` short: no bound forbids it |
//!
//! # Two kinds of explanation
//!
//! An [`Explanation`] is a list of numbers that anybody can check against the declared bounds, without trusting who made it.
//!
//! - A [`Explanation::Chain`] begins with a carried lifetime and ends with `t`, and each of its lifetimes is a direct bound of
//!   its successor.
//! - [`Explanation::Separating`] names lifetimes that may be called long, and all others short: with each long lifetime those that
//!   are declared to outlive it are long too. `t` is long, and nothing that the leaf carries is.
//!
//! [`explain_leaf`] makes the one that fits, and [`check_explanation`] tells whether an explanation is right. The laws say what a
//! right one means: with a chain some carried lifetime outlives `t`, and with separating lifetimes none does. `specs/Explanations`
//! has these words as definitions.
#![tactic(auto)]

mod checking;
mod explaining;
mod explanations;
mod laws;
mod reading;
mod search;

pub use checking::check_explanation;
pub use explaining::explain_leaf;
pub use explanations::Explanation;
pub use laws::{explanations_hold, listed_is_long_in_every_steady_way};
