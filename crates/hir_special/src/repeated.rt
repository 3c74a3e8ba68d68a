//! Special methods that stand once on a type.

ghost use Rattle.std.specs.Prelude.{◌≡◌, OnOk};
ghost use Rattle.hir_reports.specs.Store.{Held, Keeps, added};
ghost use Rattle.hir_special.specs.Repeated.{is_comparison, is_constructor, is_iterable, is_iterator, is_lone_constructor, is_repeated, none_seen, repeated_errors, seen_after, seen_with};

use crate::testing::tell_if;
use bridge_decl::NoMemory;
use hir_attrs::SpecialKind;
use hir_backends::{BackendAttrSupport, SupportFlag};
use hir_reports::{ErrorStore, Rule};
use std::alloc::Global;

/// Which of the special methods that stand once were seen on a type.
#[derive(Clone, Copy)]
pub struct SeenSpecials {
    /// A constructor.
    pub constructor: bool,
    /// A comparison.
    pub comparison: bool,
    /// An iterator.
    pub iterator: bool,
    /// An iterable.
    pub iterable: bool,
}

fn is_constructor(kind: SpecialKind) -> bool
    ensures { result ≡ is_constructor kind }
{
    matches!(kind, SpecialKind::Constructor)
}

fn is_comparison(kind: SpecialKind) -> bool
    ensures { result ≡ is_comparison kind }
{
    matches!(kind, SpecialKind::Comparison)
}

fn is_iterator(kind: SpecialKind) -> bool
    ensures { result ≡ is_iterator kind }
{
    matches!(kind, SpecialKind::Iterator)
}

fn is_iterable(kind: SpecialKind) -> bool
    ensures { result ≡ is_iterable kind }
{
    matches!(kind, SpecialKind::Iterable)
}

/// Whether it is a constructor, and the backend doesn't overload methods.
fn is_lone_constructor(supports: &BackendAttrSupport, kind: SpecialKind) -> bool
    ensures { result ≡ is_lone_constructor supports.now kind }
{
    is_constructor(kind) && !supports.has(SupportFlag::MethodOverloading)
}

impl SeenSpecials {
    /// None was.
    pub fn none() -> SeenSpecials
        ensures { result ≡ none_seen }
    {
        SeenSpecials {
            constructor: false,
            comparison: false,
            iterator: false,
            iterable: false,
        }
    }

    fn with(self, kind: SpecialKind) -> SeenSpecials
        ensures { result ≡ seen_with kind self }
    {
        SeenSpecials {
            constructor: self.constructor || is_constructor(kind),
            comparison: self.comparison || is_comparison(kind),
            iterator: self.iterator || is_iterator(kind),
            iterable: self.iterable || is_iterable(kind),
        }
    }

    /// What was seen after a method of that kind, or of none.
    pub fn after(self, kind: Option<SpecialKind>) -> SeenSpecials
        ensures { result ≡ seen_after kind self }
    {
        match kind {
            Some(kind) => self.with(kind),
            None => self,
        }
    }

    /// Whether one of that kind is one too many.
    #[tactic(auto, unfolding(crate::specs::Repeated::is_repeated))]
    fn is_repeated(self, supports: &BackendAttrSupport, kind: SpecialKind) -> bool
        ensures { result ≡ is_repeated supports.now self kind }
    {
        (is_lone_constructor(supports, kind) && self.constructor)
            || (is_comparison(kind) && self.comparison)
            || (is_iterator(kind) && self.iterator)
            || (is_iterable(kind) && self.iterable)
    }
}

/// Tells of a method of that kind, or of none, that stands once on a type and was seen on it before (rule `SpecialRepeated`).
/// `NoMemory` as for [`validate_special`](crate::validate_special).
pub fn test_repeated(
    alloc: Global,
    supports: &BackendAttrSupport,
    seen: SeenSpecials,
    kind: Option<SpecialKind>,
    errors: &mut ErrorStore<'_>,
) -> Result<(), NoMemory>
    ensures told { OnOk result (errors.new
        ≡ added errors.old (repeated_errors supports.now seen kind)) }
    ensures kept { (earlier : Held) → Keeps earlier errors.old → Keeps earlier errors.new }
{
    match kind {
        Some(kind) => {
            let is_broken = seen.is_repeated(supports, kind);
            tell_if(alloc, is_broken, Rule::SpecialRepeated, kind, errors)
        }
        None => Ok(()),
    }
}
