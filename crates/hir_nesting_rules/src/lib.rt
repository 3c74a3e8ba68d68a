//! How declared structs may nest, and that this is what lowering tells of them.
//!
//! A struct that contains itself can't be laid out, and structs that nest too deep can't be walked.
//! Both are told of what declarations are lowered to, where each struct has a number and an edge
//! leads from it to those that it contains. This crate says the same of the declarations themselves,
//! where structs have places and fields have types with paths. One example runs through it:
//!
//! ```text
//! #[diplomat::out] pub struct Found { pair: Pair }
//! pub struct Pair { left: Line, rest: Chain }
//! pub struct Line { color: Color, parts: &'static [Line] }
//! pub struct Chain { next: DiplomatOption<Chain> }
//! ```
//!
//! # What holds what
//!
//! A type holds the struct that it names, by value, in options or behind a reference. The elements
//! of a slice aren't held, and no more is what stands in a box or in a function. An enabled struct
//! or out-struct holds what the types of its fields hold, as the names of its module give it; a
//! disabled one has no fields, so it holds nothing, but may be held (`specs/Holding`):
//!
//! | struct | holds |
//! |---|---|
//! | `Found` | `Pair` |
//! | `Pair` | `Line`, `Chain` |
//! | `Line` | |
//! | `Chain` | `Chain` |
//!
//! A chain is a list of structs each of which holds the next (`specs/Chains`).
//!
//! # The rules
//!
//! There are two, with a definition each (`specs/rules`):
//! - `StructContainsItself`: an enabled struct or out-struct reaches itself by a chain. Here this is
//!   `Chain` alone: `Pair` and `Found` reach it, but not themselves;
//! - `NestingTooDeep`: an enabled one reaches neither itself nor one that does, and its longest chain,
//!   itself counted, is above 256.
//!
//! A report of one of them stands at the struct that breaks it (`specs/NestingBreaks`).
//!
//! # What is told
//!
//! Where definitions are what all items of declarations are lowered to, and faults are those of how
//! they nest, the reports of these faults tell of each struct that breaks a rule, and of nothing
//! else: [`nesting_is_told_exactly`]. Nothing else is asked: a type that may not stand where it
//! stands, as `DiplomatOption<&Chain>`, has no form, and then there are no such definitions.
//!
//! This crate has definitions and their law, and no code.
#![tactic(auto)]

mod laws;

pub use laws::nesting_is_told_exactly;
