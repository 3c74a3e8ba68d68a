//! Methods by their marks.

ghost use Rattle.std.specs.Prelude.{◌≡◌, option_copied};
ghost use Rattle.hir_presence.specs.Presence.{first_marked, is_lone};

use hir_attrs::SpecialMethod;
use hir_definitions::Method;

/// A special method of which a type has one at most.
#[derive(Clone, Copy)]
pub enum LoneSpecial {
    /// It compares two values.
    Comparison,
    /// It gives the next value.
    Iterator,
    /// It gives what steps through values.
    Iterable,
}

/// Whether a mark is that of a lone special method.
fn is_lone(lone: LoneSpecial, special: &Option<SpecialMethod>) -> bool
    ensures { result ≡ is_lone lone special.now }
{
    match (lone, special) {
        (LoneSpecial::Comparison, Some(SpecialMethod::Comparison(_))) => true,
        (LoneSpecial::Iterator, Some(SpecialMethod::Iterator)) => true,
        (LoneSpecial::Iterable, Some(SpecialMethod::Iterable)) => true,
        _ => false,
    }
}

/// The method that is marked so.
pub fn first_marked(lone: LoneSpecial, methods: &[Method]) -> Option<&Method>
    ensures { option_copied result ≡ first_marked lone methods.now }
{
    methods
        .iter()
        .find(|method| is_lone(lone, &method.attrs.special_method))
}
