//! Which rules types break where they stand.
//!
//! `bridge_rules` has the table of positions: what is asked of each shape of a type at each position. This crate tells what breaks what is
//! asked, for types, parameters, returns, receivers, writers, traits and functions, as rules of `hir_reports`. The example goes on:
//!
//! ```text
//! pub struct Line<'a> { text: &'a str, page: Option<u8> }        // StdOptionPlace: it should be DiplomatOption<u8>
//! impl Line<'_> {
//!     fn each(&self, f: impl Fn(&Page)) -> Result<Box<Page>, ()> // CallbackReference: `f` takes a reference
//! }
//! ```
//!
//! # Faults
//!
//! A [`TypeFault`] is a broken rule, or a feature that the backend lacks: for a backend without `option` the field `page` has two, and
//! for one without `struct_refs` the receiver `&self` has one. [`test_type`], [`test_param`], [`test_callback_param`], [`test_return`],
//! [`test_receiver`], [`test_writer`], [`test_trait`] and [`test_free_function`] answer the list of all faults, in order; where it is empty,
//! the type may stand there.
//!
//! # What is looked into
//!
//! A shape that is refused isn't looked into. In one that isn't, what an option or a slice is of is tested at the same position, and the
//! parameters and the return of a callback at their own: `&Page` in `f` is fine by the table, but has a lifetime, which what is called
//! back may not have unless the configuration allows it. A [`Part`] says how far inside a type stands: a struct without fields may be
//! returned in an option but not by itself, and `Box<[u8]>` as a success but not as an error. `specs/Breaks` says what breaks which
//! rule, one file a rule in `specs/rules/`, and the contracts say that the lists are exactly that.
//!
//! # Reports
//!
//! [`tell`] adds faults to an `ErrorStore` as reports. The types that a field of a struct may have at all are those for which
//! [`is_ffi_safe`] holds, and [`tell_field`] reports any other: `&'a str` of `text` isn't laid out as the other language would, and
//! `DiplomatStrSlice<'a>` is to stand there.
#![tactic(auto)]

mod asked;
mod carrying;
mod fault;
mod ffi;
mod items;
mod params;
mod part;
mod returns;
mod telling;
mod testing;
mod types;

pub use fault::{TypeFault, TypeFaults};
pub use ffi::is_ffi_safe;
pub use part::Part;
pub use telling::{tell, tell_field};
pub use testing::{
    test_callback_param, test_free_function, test_param, test_receiver, test_return, test_trait,
    test_type, test_writer,
};
