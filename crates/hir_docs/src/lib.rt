//! The documentation of declarations, and where that of the Rust items lies that they bind.
//!
//! A declaration may be documented by blocks of lines, each under a condition on backends, and by links to the Rust items that it binds:
//!
//! ```text
//! /// A locale.
//! #[diplomat::docs(cpp, "Not thread safe.")]
//! #[diplomat::rust_link(icu::locale::Locale, Struct)]
//! ```
//!
//! [`Docs::from_ast`] makes of them what a backend shows: for `cpp` both lines, for any other the first alone.
//!
//! A link begins with a base URL: that of its crate, here `icu`, where the crate has one of its own, and else the one for all other crates,
//! or docs.rs. A [`DocsUrlGenerator`] keeps these URLs. Then come the folders of the modules and the page of the item, as rustdoc lays them
//! out (`specs/Links` has a line for each kind of item):
//!
//! | base URLs | `icu::locale::Locale` as a struct | its method `id`, as a function in a struct |
//! |---|---|---|
//! | none | `https://docs.rs/icu/latest/icu/locale/struct.Locale.html` | `https://docs.rs/icu/latest/icu/locale/struct.Locale.html#method.id` |
//! | `icu` at `https://icu.example` | `https://icu.example/icu/locale/struct.Locale.html` | `https://icu.example/icu/locale/struct.Locale.html#method.id` |
//!
//! Named as in the crate `diplomat_core`, whose module `hir::docs` this restates.
#![tactic(auto)]

mod docs;
mod links;
mod urls;

pub use docs::Docs;
pub use links::LinkFault;
pub use urls::DocsUrlGenerator;
