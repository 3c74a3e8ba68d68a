//! From the bytes of a JSON text to an input.
//!
//! An exporter writes what a Rust module declares as JSON. This module has one opaque with one method, and names the backend:
//!
//! ```json
//! {"root": {"modules": [{"name": "ffi", "items": [
//!     {"kind": "opaque", "name": "Locale", "methods": [
//!         {"name": "is_empty", "self_type": {"segments": ["Locale"]}, "ret": "bool"}]}]}]},
//!  "backend": {"name": "js"}}
//! ```
//!
//! `read_input` reads it as two modules, the root and `ffi`, the second with the opaque; what the text doesn't say (lifetimes,
//! documentation, attributes, a configuration) is there as what its absence stands for. Were `"ret"` the number 7, it would answer
//! `wrong form` at `/root/modules/0/items/0/methods/0/ret`; were it spelled `"return"`, `unknown key` at the pointer that ends in
//! `return`. A fault is the first in the order of reading: an unknown key of an object comes before what stands under its keys, and
//! these are read in the order in which docs/INPUT.md lists them. Where the whole value has the form, the modules are tested as an
//! environment, and a second item `Locale` of `ffi` is a `duplicate item` at `/root/modules/0/items/1`.
//!
//! `bridge_form` takes objects apart, whatever they spell, `bridge_words` has the tables of words, and `bridge_pointers` finds the pointer of a
//! declaration. `bridge_read_parts` has the trait by which parts are read, and reads what declarations are made of; here `methods`, `items`, `modules` and
//! `settings` read a subject each.
#![tactic(auto)]

mod input;
mod items;
mod methods;
mod modules;
mod settings;

pub use bridge_form::InputKind;
pub use input::{Input, InputFault, read_input};

/// The forms of this crate, where `FromForm` asks whose they are.
pub(crate) struct InputForms;
