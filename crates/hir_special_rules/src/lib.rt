//! The rules that special methods break, in their own words.
//!
//! What is told of a special method is a list that `hir_special` makes step by step. This crate says of each rule by itself when a method
//! breaks it (`specs/rules/`, a file a rule), by the tables of that crate, and has the law that what is told is exactly what
//! breaks a rule, [`specials_are_told_by_their_rules`].
//!
//! | a method of `Version`, without `partial_comparators` | rule |
//! |---|---|
//! | `comparison`: `fn compare(other: &Version) -> Ordering` | `SpecialReceiver`: there is nothing to compare with |
//! | `getter`: `fn part(&self, place: usize) -> u8` | `SpecialParams`: a getter has no parameter |
//! | `add`: `fn join(&self, other: &Version)` | `SpecialReturn`: an operator gives something |
//! | `comparison`: `fn compare(&self, other: u8) -> Ordering` | `SpecialOperand` |
//! | `comparison`: `fn compare(&self, other: &Version) -> Option<Ordering>` | `SpecialSupport`: `partial_comparators` |
//! | `add_assign`: `fn grow(&self, by: u8)` | `AssignReceiver`: `&self` isn't assigned to |
//!
//! That a type has two methods of a kind that stands once is no matter of one method: `hir_rules` has the rule `SpecialRepeated`.
//!
//! This crate has definitions and their law, and no code.
#![tactic(auto)]

mod laws;

pub use laws::specials_are_told_by_their_rules;
