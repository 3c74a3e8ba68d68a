//! Objects of a JSON form, taken apart in one pass, and the first fault of what doesn't have the form.
//!
//! A form says which keys an object has and in which order what stands under them is read. This object
//!
//! ```json
//! {"name": "a", "longer": [1], "colour": null}
//! ```
//!
//! is to be a lifetime, which has the keys `name`, `longer` and `shorter`. `Fields::of` passes over its members once, puts each into the slot
//! of its key, and stops at `colour`, which is none of them: `unknown key` at `/colour`, though null stands there. Without
//! `colour`, `Fields::next` gives `name` with `"a"`, `longer` with the list, and `shorter` with nothing, one after the other.
//!
//! Of some objects one key alone may have something under it, as of a type: `{"box": "u8", "str": null}`. `sole` goes through the slots
//! of such an object, and has `box` with `"u8"`; where something stands under no key or under more than one, it has the wrong form.
//!
//! What a reader answers is a `Read`: what it has read, the value's first fault, or that memory ran out. A `Fault` is told with a
//! `Pointer` (RFC 6901) to its place, which grows from the inside out: what is wrong in the first entry of the list is at `/0`, and
//! `in_member` makes `/longer/0` of that. Values are handed on by value, and null is as good as no member at all.
//!
//! `specs/Form.antt` says what a form is: which value spells what, which faults it has, in which order, and what is read of it, which is the
//! first fault where there is one. `proofs/` has the laws of all forms, that these three agree.
#![tactic(auto)]

mod fault;
mod fields;
mod keys;
mod objects;
mod pointer;

pub use fault::{Fault, InputKind, Read, ReadFault};
pub use fields::{Fields, sole};
pub use keys::Key;
pub use objects::{
    entries, in_entry, in_member, in_member_named, members, object, owned_text, text, under,
};
pub use pointer::{Pointer, Step};
