//! Comparisons that may say that neither of two values comes first.

ghost use Rattle.std.specs.Prelude.{◌≡◌};
ghost use Rattle.hir_special.specs.Partial.{is_partial, with_partial};

use crate::returns::is_ordering;
use hir_attrs::{Attrs, SpecialMethod};
use hir_types::{OutputOnly, ReturnType};

/// Whether it is an option of an `Ordering`.
pub fn is_partial(output: &ReturnType<OutputOnly>) -> bool
    ensures { result ≡ is_partial output.now }
{
    match output {
        ReturnType::Nullable(success) => is_ordering(success),
        _ => false,
    }
}

/// The marks of a method that returns this: that of a comparison says whether it is partial, as nothing does where the marks are read.
/// As `SpecialMethod::Comparison` of the crate `diplomat_core`.
pub fn with_partial(mut attrs: Attrs, output: &ReturnType<OutputOnly>) -> Attrs
    ensures { result ≡ with_partial output.now attrs }
{
    if let Some(SpecialMethod::Comparison(partial)) = &mut attrs.special_method {
        *partial = is_partial(output);
    }
    attrs
}
