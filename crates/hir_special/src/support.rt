//! What a special method needs of a backend.

ghost use Rattle.std.specs.Prelude.{◌≡◌};
ghost use Rattle.hir_special.specs.Support.{may_fail, missing_flag, unless_on};

use crate::partial::is_partial;
use hir_attrs::SpecialKind;
use hir_backends::{BackendAttrSupport, SupportFlag};
use hir_definitions::ParamSelf;
use hir_types::{OutputOnly, ReturnType};

/// Whether it returns a value or an error.
fn may_fail(output: &ReturnType<OutputOnly>) -> bool
    ensures { result ≡ may_fail output.now }
{
    matches!(output, ReturnType::Fallible(_, _))
}

/// The flag, where it is needed and off.
fn unless_on(
    supports: &BackendAttrSupport,
    is_needed: bool,
    flag: SupportFlag,
) -> Option<SupportFlag>
    ensures { result ≡ unless_on supports.now is_needed flag }
{
    if is_needed && !supports.has(flag) {
        return Some(flag);
    }
    None
}

/// The flag that a special method of that kind needs and doesn't find.
#[tactic(auto, unfolding(crate::specs::Support::missing_flag))]
pub(crate) fn missing_flag(
    supports: &BackendAttrSupport,
    kind: SpecialKind,
    receiver: &Option<ParamSelf>,
    output: &ReturnType<OutputOnly>,
) -> Option<SupportFlag>
    ensures { result ≡ missing_flag supports.now kind receiver.now output.now }
{
    match kind {
        SpecialKind::Constructor | SpecialKind::NamedConstructor => {
            let is_needed = may_fail(output) && supports.has(SupportFlag::Constructors);
            unless_on(supports, is_needed, SupportFlag::FallibleConstructors)
        }
        SpecialKind::Getter | SpecialKind::Setter => {
            unless_on(supports, !receiver.is_some(), SupportFlag::StaticAccessors)
        }
        SpecialKind::Comparison => {
            unless_on(
                supports,
                is_partial(output),
                SupportFlag::PartialComparators,
            )
        }
        _ => None,
    }
}
