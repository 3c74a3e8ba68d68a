//! What a list tells.
//!
//! What is wrong in declarations is a list, and a list is made of parts: what is wrong with a
//! name, with each field, with what stands in the fields. What is wrong is said once more by a
//! relation, in the words of the rules. A list *tells exactly* what is said where it has all of
//! which it is said, and nothing else (`specs/Telling`):
//!
//! | list | tells exactly |
//! |---|---|
//! | `[]` | nothing |
//! | what is wrong with a name, and then what is wrong with the fields | what is said of the name, or of the fields |
//! | what is wrong with each field, in order | what is said of one of them |
//!
//! That a list tells what is said where its parts do is a law, [`lists_tell_what_parts_do`]: the
//! contract of a function without a body. The lemmas behind it serve the crates above
//! (`proofs/ExactLemmas`, and `proofs/GivenLemmas` for lists that are told up to the first step in
//! which something is wrong).
#![tactic(auto)]

mod laws;

pub use laws::lists_tell_what_parts_do;
