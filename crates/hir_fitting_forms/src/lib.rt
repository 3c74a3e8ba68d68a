//! What declarations are lowered to names only what is there.
//!
//! Definitions fit together where each id that one names is in range, each path gives as many
//! lifetimes as its definition has, and each lifetime is one of the environment in which it stands.
//! A context is made of such definitions alone, and answers whoever hands it others that they don't
//! fit. What declarations are lowered to is never answered so: this crate has the laws that say
//! why, from the paths of a module up to whole methods. One example runs through it:
//!
//! ```text
//! #[diplomat::opaque] pub struct Page<'a>(..);
//! impl<'a> Page<'a> {
//!     pub fn next<'p>(&'p self) -> Result<&'p Page<'a>, ()>;
//! }
//! ```
//!
//! # What numbered types name
//!
//! The numbered signature of `next` has paths as what they lead to, and two lifetimes: 'a is 0, and
//! 'p is 1. It names, in order (`specs/Names`):
//!
//! | where | what is named |
//! |---|---|
//! | the borrow of the receiver | the lifetime 1 |
//! | the receiver | the item `Page` by a path with the lifetime 0 |
//! | what is returned | the lifetime 1, and `Page` by a path with the lifetime 0 |
//!
//! A catalog says that the item `Page` is the opaque 0, and a census says how many definitions there
//! are and how many lifetimes each has: here one opaque with one lifetime. A lifetime fits where it
//! is `'static` or one of the environment's, and a path fits where it leads to a definition that is
//! there with as many lifetimes as it gives (`specs/NumberedFits`). So all of `next` fits.
//!
//! # What they stand for
//!
//! A type that fits stands for a lowered type that names what fits, at each position where it may
//! stand: [`types_stand_for_what_fits`]. So do receivers and whole signatures,
//! [`signatures_stand_for_what_fits`], and the methods that are made of them,
//! [`methods_stand_for_what_fits`]: the lowered `next` names the lifetime 1 and the opaque 0 with
//! the lifetime 0, twice. The methods of traits keep no environment, and fit in none,
//! [`trait_methods_stand_for_what_fits`].
//!
//! # Where names come from
//!
//! The names of a module fit a catalog where what each path names is there with as many lifetimes
//! as it declares (`specs/Naming`). They do where the catalog is that of the modules, and the census
//! that of what the modules declare: [`paths_lead_to_what_is_declared`]. As the numbers of a path
//! are as many as its definition declares, and each is one of the signature's lifetimes, each
//! declaration comes to types that fit, [`declarations_are_numbered_to_what_fits`], and is lowered
//! to what fits, [`declarations_are_lowered_to_what_fits`]. Nothing else is asked: where something
//! is wrong with a declaration, nothing is made of it.
//!
//! # How definitions are used
//!
//! Each definition keeps the results in which it is used, as `Page` keeps that of `next`. It keeps
//! no environment beside them, so their lifetimes may be any. They name what is there where the
//! methods do that return them, [`uses_fit_where_types_do`], and so does all that is noted of uses,
//! [`noted_uses_fit`].
//!
//! # The whole
//!
//! A definition fits where its fields, its methods and its uses do, and so does what it keeps of its
//! special methods: [`definitions_fit_where_parts_do`]. So what each item is lowered to fits,
//! [`items_are_lowered_to_what_fits`]. Definitions that are those of modules, each with the
//! lifetimes that are declared, name only what is there where each of them fits among what is
//! declared: [`declared_definitions_name_what_is_there`]. So whoever makes a context of them is
//! answered that something doesn't fit only where structs nest badly.
//!
//! This crate has definitions and their laws, and no code.
#![tactic(auto)]

mod declarations;
mod definitions;
mod forms;
mod uses;
mod wholes;

pub use declarations::{
    declarations_are_lowered_to_what_fits, declarations_are_numbered_to_what_fits,
    paths_lead_to_what_is_declared,
};
pub use definitions::{
    declared_definitions_name_what_is_there, definitions_fit_where_parts_do,
    items_are_lowered_to_what_fits,
};
pub use forms::{signatures_stand_for_what_fits, types_stand_for_what_fits};
pub use uses::{noted_uses_fit, uses_fit_where_types_do};
pub use wholes::{methods_stand_for_what_fits, trait_methods_stand_for_what_fits};
