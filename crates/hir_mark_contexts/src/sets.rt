//! Which marks a set has.

ghost use Rattle.std.specs.Prelude.{◌≡◌};
ghost use Rattle.hir_mark_contexts.specs.Sets.{has_mark, has_any};

use hir_attrs::{Attrs, MarkName};

/// Whether a list has anything.
fn has_any<T>(items: &[T]) -> bool
    ensures { result ≡ has_any items.now }
{
    match items {
        [] => false,
        [_, ..] => true,
    }
}

/// Whether the set has the mark.
#[tactic(auto, unfolding(crate::specs::Sets::has_mark))]
pub fn has_mark(attrs: &Attrs, mark: MarkName) -> bool
    ensures { result ≡ has_mark mark attrs.now }
{
    match mark {
        MarkName::Disable => attrs.disable,
        MarkName::Default => attrs.default,
        MarkName::ManuallyDisposable => attrs.manually_disposable,
        MarkName::Rename => attrs.rename.pattern().is_some(),
        MarkName::Namespace => attrs.namespace.is_some(),
        MarkName::Error => attrs.custom_errors,
        MarkName::PreconditionViolation => attrs.precondition_violation,
        MarkName::GenerateMockingInterface => attrs.generate_mocking_interface,
        MarkName::AbiCompatible => attrs.abi_compatible,
        MarkName::FfiError => attrs.ffi_error,
        MarkName::MutStructRef => attrs.mut_struct_ref,
        MarkName::Tuple => attrs.tuple,
        MarkName::CustomExtraCode => has_any(attrs.custom_extra_code.as_slice()),
        MarkName::DefaultValue => attrs.default_value.is_some(),
    }
}
