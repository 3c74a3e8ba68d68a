//! Which rules declarations break, and where.
//!
//! What `hir_lowering` tells of declarations is an exact list: of each module, each item and each
//! method in order, of each part what the steps before allow to be looked at. This crate says once
//! more what is wrong, as a reader has it who knows the rules and no steps: a relation between
//! declarations and reports, rule by rule (`specs/rules`), part by part, up to the whole
//! (`specs/Broken`). One example runs through it:
//!
//! ```text
//! mod app {
//!     struct Page<'a> { text: &'a Text, 1st: u8 }
//!     impl<'a> Page<'a> { fn next(self) -> &Page<'b>; }
//! }
//! ```
//!
//! # What is broken
//!
//! | rule | where | why |
//! |---|---|---|
//! | BadIdent | at `app::Page` | `1st` is no identifier |
//! | UnresolvedPath | at `app::Page` | `Text` names nothing |
//! | LifetimeUnknown | at `app::Page::next` | `'b` isn't declared |
//! | ElisionNoSource | at `app::Page::next` | the return leaves a lifetime out, and no parameter has one that counts |
//!
//! A rule is broken wherever it is, whether or not another is broken beside it. So the fourth
//! stands here, which no call tells: what is told of a method comes to an end with the first of
//! three steps in which anything is wrong, its paths and lifetimes, its numbers, its types where
//! they stand.
//!
//! # What is told of it
//!
//! Each report tells a rule that is broken at its place, with its arguments; and each place at
//! which any rule is broken has a report: [`what_is_told_is_broken`], a law that is the contract of
//! a function without a body.
//!
//! # Where the rules stand
//!
//! The rules on names, paths and lifetimes are here, `specs/rules`; those on marks in
//! `hir_mark_rules`, those on special methods in `hir_special_rules`, those on types where they stand
//! in `bridge_grid`, and those on how structs nest in `hir_nesting_rules`. Which parts are looked at in what is disabled say `specs/Callables`
//! and `specs/Items`.
//!
//! The rules are those of the crate `diplomat_core`, module `hir::lowering`, where this
//! repository's documents don't name a difference.
#![tactic(auto)]

mod laws;

pub use laws::what_is_told_is_broken;
