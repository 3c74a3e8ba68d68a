//! What a backend says of itself, and the conditions that ask it.
//!
//! A declaration may stand under a condition, and may need a feature that not every target language has:
//!
//! ```text
//! #[diplomat::attr(any(kotlin, supports = callbacks), rename = "apply")]
//! fn map(&self, f: impl Fn(i32) -> i32) -> Self;
//! ```
//!
//! Whether the condition holds, and whether the method can be had at all, depends on the backend. A [`BasicAttributeValidator`] is a
//! backend as plain data: here one named `kotlin`, or one whose [`BackendAttrSupport`] has the flag [`SupportFlag::Callbacks`], takes
//! the new name. The flags are the fields of a record and also the values of an enum, since an input names them by words:
//! [`SupportFlag::text`] is the word, and [`BackendAttrSupport::has`] asks by it.
//!
//! Any other backend is an [`AttributeValidator`]: five questions, each answered by what the backend holds, its meaning. A condition is
//! tested over that meaning alone, by [`satisfies_cfg`]:
//!
//! | condition | it is met where |
//! |---|---|
//! | `*` | always |
//! | `kotlin` | the backend answers to that name |
//! | `supports = callbacks` | the pair holds for the backend; a pair that it doesn't know is a fault |
//! | `not(c)` | `c` isn't met |
//! | `any(c, ..)`, `all(c, ..)` | some part is met, or each; the parts after the one that settles it aren't looked at |
//! | `auto` | always, but it is allowed only at the top and within `any`, and it is told that it was met |
//!
//! `auto` stands for "where the backend can take the mark": a mark that a backend doesn't support is then left out without a report.
//!
//! Named as in the crate `diplomat_core`, whose module `hir::attrs` this restates.
#![tactic(auto)]

mod conditions;
mod known;
mod meanings;
mod support;
mod validator;

pub use conditions::{CfgFault, Met, meets, satisfies_cfg};
pub use known::{Names, Pairs};
pub use meanings::AttributeValidator;
pub use support::{BackendAttrSupport, SupportFlag};
pub use validator::BasicAttributeValidator;
