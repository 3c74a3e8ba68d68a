//! What accepted types are lowered to.
//!
//! `bridge_rules` has the table of which types may stand where, and `bridge_grid` tells what a type breaks where it stands. This crate
//! makes the types of `hir_types` of those that break nothing. One example runs through it:
//!
//! ```text
//! #[diplomat::opaque] pub struct Page(..);
//! pub struct Line<'a> { text: DiplomatStrSlice<'a>, page: DiplomatOption<u8> }
//! impl Page {
//!     pub fn find(&self, test: impl Fn(u8) -> bool, w: &mut DiplomatWrite) -> Result<(), Box<Page>>;
//!     pub fn next<'p>(&'p self) -> Option<&'p Page>;
//! }
//! ```
//!
//! # Forms
//!
//! What a type stands for is its form. It has the lifetimes as numbers and the definitions by their ids, and no trace of how the type was
//! spelled:
//!
//! | declared | where | form |
//! |---|---|---|
//! | `DiplomatStrSlice<'a>` | `text`, a field | a slice of text with the lifetime 0 |
//! | `DiplomatOption<u8>` | `page`, a field | an option of `u8` |
//! | `&self` | `find`, the receiver | the opaque `Page`, borrowed |
//! | `impl Fn(u8) -> bool` | `test`, a parameter | a callback that takes a `u8` and returns a `bool` |
//! | `Result<(), Box<Page>>` | `find`, the return | fallible: what is written, or the opaque `Page`, owned |
//! | `Option<&'p Page>` | `next`, the return | infallible: the opaque `Page`, borrowed, which may be absent |
//!
//! The return of `find` is `()` where it succeeds; since a writer is its last parameter, what comes of success is what is written. That of
//! `next` is no nullable return, since a pointer to an opaque may be null by itself.
//!
//! # What differs by the position
//!
//! One walk makes all forms. It is generic in the position, and asks it four things (`Forms`): how a borrowed opaque is held, how one
//! in a box is, and which structs and traits there are. A box of `Page` has a form where it goes out and none where it comes in, so at an
//! input it isn't lowered but refused. A callback stands at the top of a parameter alone; what it takes goes out, and what it returns comes
//! in at a position that has no callbacks.
//!
//! # Faults first
//!
//! Lowering knows no rule. Each call first has `bridge_grid` tell what the type breaks. Where that is something, it is reported and nothing
//! is made; where it is nothing, the type has a form, which is proved of each row of the table, and that form is the answer: [`judge_field`],
//! [`judge_out_field`], [`judge_param`], [`judge_callback_param`] and [`judge_callback_return`].
//! [`judge_signature`] does the same with all types of a method or a function at once: receiver, parameters and return.
//!
//! Upstream, the module `hir::lowering` of the crate `diplomat_core`, tests and lowers in one walk.
#![tactic(auto)]

mod accepting;
mod judging;
mod params;
mod positions;
mod primitives;
mod receivers;
mod returns;
mod shapes;
mod signatures;
mod stop;
mod types;

pub use judging::{
    judge_callback_param, judge_callback_return, judge_field, judge_out_field, judge_param,
};
pub use signatures::{LoweredSignature, judge_signature};
