//! What declarations are made of, from JSON values: lifetimes and paths, types, attributes, documentation.
//!
//! `"ty": {"ref": {"lifetime": "a", "to": {"named": {"segments": ["Locale"]}}}}` is a member of a parameter, and its value spells
//! `&'a Locale`. `TypeName::from_form` reads it so. Were `"to"` missing, it would answer `missing key` at `/ref`; were it spelled `"of"`,
//! `unknown key` at `/ref/of`, since an unknown key of an object comes before what stands under its keys, and these are read in the order
//! in which docs/INPUT.md lists them.
//!
//! `bridge_form` takes objects apart, whatever they spell, and `bridge_words` has the tables of words. Here `reading` has the trait by
//! which parts are read, what is read under the next key of an object, and the macro by which objects are read, also those of crates above;
//! `lifetimes`, `types`, `attrs` and `docs` read a subject each.
#![tactic(auto)]

mod attrs;
mod docs;
mod lifetimes;
mod reading;
mod types;

pub use attrs::no_attrs;
pub use docs::documented;
pub use lifetimes::mutability;
pub use reading::{FromForm, PartForms, flag, held, listed, needed, optional};
