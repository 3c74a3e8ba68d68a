//! Every path has a meaning, and one alone.
//!
//! What a path names is a relation, one case for each sentence of the Rust Reference. Definitions that
//! go through types read paths through a naming: a function that agrees with the relation on each
//! path. So what is promised of numbered signatures, and of all that is made of them, is promised
//! for every naming of the modules that there is. This crate says that there is one for all modules
//! that fit together, and that no two differ. One example runs through it:
//!
//! ```text
//! mod ffi {                                      module 0, the root: its path is empty
//!     use text::Cut as Piece;                    an alias of module 0 with the target `text::Cut`
//!     use Loop as Loop;                          an alias that leads to itself
//!     mod text {                                 module 1, with the path `text`
//!         struct Cut<'a> { .. }                  item 0 of module 1
//!     }
//! }
//! ```
//!
//! # A path is followed
//!
//! The meaning of a path is found segment by segment (`specs/Meaning`). From module 1, the path
//! `super::Piece` means the struct `Cut`:
//!
//! | segment | what it leads to |
//! |---|---|
//! | `super` | no name: the parent, module 0, in which the rest of the path is read |
//! | `Piece` | neither a submodule of module 0 nor an item: an alias, whose target takes its place, in a path that is begun anew in module 0 |
//! | `text` | a submodule of module 0: the rest is read in module 1 |
//! | `Cut` | an item, which stands last: the item 0 of module 1 |
//!
//! A path means nothing where a segment leads to nothing, where a segment stands after an item, and
//! where it ends in a module.
//!
//! # Circles end
//!
//! `Loop` would be followed for ever. As many aliases are followed as there are aliases in all
//! modules and segments in the path, here three: a path that needs more means nothing. That is the
//! bound of the relation too, so both say the same of each path.
//!
//! # The laws
//!
//! [`every_path_has_a_meaning`]: the function is a naming of each module, where the modules fit
//! together as those of each environment do. [`namings_agree`]: two namings of one module say the
//! same of each path, whatever the modules, so what is promised of every naming is promised of the
//! one that there is.
//!
//! This crate has definitions and their laws, and no code.
#![tactic(auto)]

mod laws;

pub use laws::{every_path_has_a_meaning, namings_agree};
