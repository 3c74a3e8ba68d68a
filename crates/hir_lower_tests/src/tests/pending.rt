//! What is read and isn't written yet.

use crate::tests::frames::Frame;
use std::alloc::Global;

/// A reference: its lifetime, `_` where it has none.
#[derive(Clone, Copy, Drop)]
pub struct Held<'t> {
    pub lifetime: &'t str,
    pub is_mutable: bool,
}

/// What is read and isn't written yet.
#[derive(Drop)]
pub struct Pending<'t> {
    /// The word after which a name stands next, and empty where none does.
    pub keyword: &'t str,
    /// The reference whose type stands next.
    pub held: Option<Held<'t>>,
    /// Whether the element of a slice stands next.
    pub is_element: bool,
    /// Whether the next slice is spelled by Diplomat's type.
    pub is_own: bool,
    /// Whether the next path is that of a trait.
    pub is_impl: bool,
    /// Whether the return of a function that is a type stands next.
    pub is_return: bool,
    /// Whether methods are those of a trait.
    pub is_trait: bool,
    /// What the next brace opens.
    pub body: Frame,
    /// The keys of the next declaration that are written out.
    pub keys: String,
    /// The marks of the next declaration.
    pub marks: String,
    /// What `Self` is: its path, in which lifetimes are open.
    pub path: String,
}

/// Nothing is read yet.
pub fn nothing<'t>(alloc: Global) -> Pending<'t> {
    Pending {
        keyword: "",
        held: None,
        is_element: false,
        is_own: false,
        is_impl: false,
        is_return: false,
        is_trait: false,
        body: Frame::Nothing,
        keys: String::new(alloc),
        marks: String::new(alloc),
        path: String::new(alloc),
    }
}

/// Whether something stands between what was read and the type that it is of.
pub fn awaits_type(pending: &Pending<'_>) -> bool {
    pending.held.is_some() || pending.is_impl || pending.is_own
}
