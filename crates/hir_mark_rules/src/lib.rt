//! The rules that marks break, in their own words.
//!
//! How the marks of a declaration are read is said by `hir_attrs` step by step, and what is told of
//! them is a list. This crate says of each rule by itself when a mark breaks it (`specs/rules/`, a
//! file a rule), and has the law that what is told is exactly what breaks a rule. One example runs
//! through it, for a backend `cpp` that supports everything but `mut_struct_refs`:
//!
//! ```text
//! #[diplomat::attr(auto, disable)]
//! #[diplomat::attr(cpp, disable)]
//! #[diplomat::attr(not(auto), rename = "Flat")]
//! #[diplomat::attr(cpp, mut_struct_ref)]
//! #[diplomat::attr(cpp, getter = 1)]
//! pub struct Map { .. }
//! ```
//!
//! # Which marks count
//!
//! A mark *counts* where its condition is met, by `auto` or without it, and its path is one segment.
//! It *is taken* where the backend doesn't deny its name besides: as the mark of a special method, or
//! as a row of the table of marks, whose flag must not be off (`specs/Counting`). The third mark of
//! `Map` doesn't count, since `auto` stands under `not`. The fourth isn't taken as its row, since the
//! flag of `mut_struct_ref` is off. The other three are.
//!
//! # Which rules they break
//!
//! | mark of `Map` | rule |
//! |---|---|
//! | `auto, disable` | `AutoIneligible`: `disable` doesn't stand under `auto` |
//! | `cpp, disable` | `MarkRepeated`: the mark before it set `disable` |
//! | `not(auto), rename = "Flat"` | `AutoMisplaced` |
//! | `cpp, mut_struct_ref` | `MarkUnsupported`: it would be left aside under `auto` |
//! | `cpp, getter = 1` | `MarkArgument`: a getter takes a string or nothing |
//!
//! Three rules speak of what stands before a mark: a special method, a place of included code and the
//! marks that stand once. So a mark breaks a rule *after a set of marks* (`MarkBreaks` of
//! `specs/MarkBreaks`), and a declaration breaks it where one of its marks does, after the set that
//! those before it made (`MarksBreak`). That this is what is told, and nothing else, is the law
//! [`marks_are_told_by_their_rules`].
//!
//! # What is marked
//!
//! Not every mark may stand everywhere. What the set of a declaration breaks by the kind of what is marked, its context, says
//! `ContextBreaks` of `specs/ContextBreaks`: a mark that has no use there (`MarkMisplaced`), or included code that the backend
//! doesn't support (`IncludeUnsupported`). So `mut_struct_ref` on an opaque is misplaced. That this is what is told is the law
//! [`contexts_are_told_by_their_rules`].
//!
//! # Documents
//!
//! A block of documents stands under a condition too, in which `auto` isn't allowed at all. It breaks
//! `AutoMisplaced` or `UnknownPair` (`DocsBreak`): [`documents_are_told_by_their_rules`].
//!
//! This crate has definitions and their laws, and no code.
#![tactic(auto)]

mod laws;

pub use laws::{
    contexts_are_told_by_their_rules, documents_are_told_by_their_rules,
    marks_are_told_by_their_rules, what_is_bad_gives_nothing,
};
