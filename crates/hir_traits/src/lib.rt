//! Whole traits: told with all that is wrong in them, or else lowered.
//!
//! One example runs through this crate:
//!
//! ```text
//! #[diplomat::opaque] pub struct Page(..);
//! /// Takes pages.
//! pub trait Shelf<'s>: Send {
//!     fn take(&self, page: Box<Page>, row: u8) -> bool;
//!     fn lend<'fn>(&self, page: &'fn Page);
//!     fn show(&self, page: Page);
//!     #[diplomat::attr(kotlin, disable)] fn fold(&self, at: Corner);            there is no Corner
//! }
//! ```
//!
//! # The trait itself
//!
//! A trait has marks and documents, a name and lifetimes, all of which `hir_heads` reads. Where its values may move to other threads, as those
//! of `Shelf`, or may be shared by them, the backend has to support it. All this is told at the trait, also where it is disabled. Where it is
//! enabled, it may not declare more than 4,095 lifetimes: a definition with fields is told that with its types, and a trait has none.
//!
//! # Its methods
//!
//! Each method is told at a place of its own, after the trait and in the order of the declaration; what is wrong in one keeps no other from
//! being told. A method's marks start from the whole set of its trait, and not only from what a type would take over. Of `fold` nothing but its
//! marks is read for `kotlin`, and it is left out. A disabled trait has no methods, and nothing of them is read.
//!
//! The types of a method come to a stage, as those of a method of a type do (`specs/TraitStages`): with breaches of paths and lifetimes; or with
//! a declared lifetime that has a bad name, as `'fn` of `lend`, where nothing else is told of types; or without numbers; or judged. A method
//! of a trait is called back, so its parameters and its return stand where those of a callback do: an opaque that is taken by value comes in a
//! box, as in `take`, and that of `show` is told. Nothing is elided in it. The lifetimes that it uses it declares itself.
//!
//! # What is made
//!
//! Where nothing is told of the trait and of its methods, it is made, and for no other reason is it left out ([`what_is_fine_is_made`]): a
//! definition whose methods are callbacks with a receiver, with names for themselves and for what they take, with marks and with documents
//! ([`lower_trait`]). How it is used elsewhere isn't known yet.
//!
//! What all calls are lent, of which they change nothing, is one [`Lowering`].
//!
//! As in the crate `diplomat_core`, module `hir::lowering`.
#![tactic(auto)]

mod callbacks;
mod heads;
mod judging;
mod laws;
mod methods;
mod own;
mod traits;
mod types;

pub use laws::what_is_fine_is_made;
pub use traits::lower_trait;
