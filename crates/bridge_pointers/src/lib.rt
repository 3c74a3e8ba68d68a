//! Where the parts of declarations stand in the JSON value that spells them.
//!
//! In this input
//!
//! ```json
//! {"root": {"modules": [{"name": "ffi", "items": [
//!     {"kind": "opaque", "name": "Locale"}, {"kind": "enum", "name": "Locale"}]}]}}
//! ```
//!
//! the modules are the root and `ffi`, in this order, so that `ffi` has the number 1, and its second item has a name that the first has.
//! `place_pointer` makes `/root/modules/0/items/1` of the place "item 1 of module 1": modules are counted as they are read, each before those
//! that stand in it, and the pointer (RFC 6901) leads to the object that spells the part.
#![tactic(auto)]

mod places;

pub use places::place_pointer;
