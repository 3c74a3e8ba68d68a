//! Methods that are more than methods.

use hir_ids::OpaqueId;
use hir_types::{OutputOnly, SuccessType};

/// Which methods of a type are more than methods.
pub struct SpecialMethodPresence {
    /// One compares two values.
    pub comparator: bool,
    /// That one may answer that neither comes first.
    pub optional_comparator: bool,
    /// What one gives that steps through values.
    pub iterator: Option<SuccessType<OutputOnly>>,
    /// The opaque that one gives and that steps through values.
    pub iterable: Option<OpaqueId>,
}

/// By hand, so that where one is let go the proof has one call.
impl Drop for SpecialMethodPresence {
    fn drop(self) {
        let SpecialMethodPresence {
            comparator: _,
            optional_comparator: _,
            iterator: _,
            iterable: _,
        } = self;
    }
}

impl SpecialMethodPresence {
    ghost use Rattle.std.specs.Prelude.{◌≡◌};
    ghost use Rattle.hir_definitions.specs.SpecialMethods.{no_special_methods};

    /// None is.
    pub fn none() -> SpecialMethodPresence
        ensures { result ≡ no_special_methods }
    {
        SpecialMethodPresence {
            comparator: false,
            optional_comparator: false,
            iterator: None,
            iterable: None,
        }
    }
}
