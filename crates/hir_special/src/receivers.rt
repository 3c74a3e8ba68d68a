//! The receiver of a special method, and how many parameters it has.

ghost use Rattle.std.specs.Prelude.{◌≡◌};
ghost use Rattle.hir_special.specs.Receivers.{is_mut, is_mut_opaque_self, is_opaque_self, is_wrong_count, is_wrong_receiver, is_wrong_target, takes_opaque, takes_other};

use bridge_decl::Mutability;
use hir_attrs::SpecialKind;
use hir_definitions::ParamSelf;
use hir_types::SelfType;

/// Whether it is `&mut`.
pub(crate) fn is_mut(mutability: Mutability) -> bool
    ensures { result ≡ is_mut mutability }
{
    match mutability {
        Mutability::Mutable => true,
        Mutability::Immutable => false,
    }
}

fn is_opaque_self(receiver: &SelfType) -> bool
    ensures { result ≡ is_opaque_self receiver.now }
{
    matches!(receiver, SelfType::Opaque(_))
}

fn is_mut_opaque_self(receiver: &SelfType) -> bool
    ensures { result ≡ is_mut_opaque_self receiver.now }
{
    match receiver {
        SelfType::Opaque(path) => is_mut(path.owner.mutability),
        _ => false,
    }
}

/// Whether an opaque is the receiver.
fn takes_opaque(receiver: &Option<ParamSelf>) -> bool
    ensures { result ≡ takes_opaque receiver.now }
{
    match receiver {
        Some(receiver) => is_opaque_self(&receiver.ty),
        None => false,
    }
}

/// Whether there is a receiver other than an opaque behind `&mut`.
fn takes_other(receiver: &Option<ParamSelf>) -> bool
    ensures { result ≡ takes_other receiver.now }
{
    match receiver {
        Some(receiver) => !is_mut_opaque_self(&receiver.ty),
        None => false,
    }
}

/// Whether a special method of that kind can't have the receiver, or needs one.
#[tactic(auto, unfolding(crate::specs::Receivers::is_wrong_receiver))]
pub(crate) fn is_wrong_receiver(kind: SpecialKind, receiver: &Option<ParamSelf>) -> bool
    ensures { result ≡ is_wrong_receiver kind receiver.now }
{
    match kind {
        SpecialKind::Constructor | SpecialKind::NamedConstructor => receiver.is_some(),
        SpecialKind::Getter | SpecialKind::Setter | SpecialKind::Stringifier => false,
        SpecialKind::Iterator => !takes_opaque(receiver),
        SpecialKind::Comparison
        | SpecialKind::Iterable
        | SpecialKind::Indexer
        | SpecialKind::Add
        | SpecialKind::Sub
        | SpecialKind::Mul
        | SpecialKind::Div
        | SpecialKind::AddAssign
        | SpecialKind::SubAssign
        | SpecialKind::MulAssign
        | SpecialKind::DivAssign => !receiver.is_some(),
    }
}

/// Whether it assigns, and has a receiver that can't be assigned to.
#[tactic(auto, unfolding(crate::specs::Receivers::is_wrong_target))]
pub(crate) fn is_wrong_target(kind: SpecialKind, receiver: &Option<ParamSelf>) -> bool
    ensures { result ≡ is_wrong_target kind receiver.now }
{
    match kind {
        SpecialKind::AddAssign
        | SpecialKind::SubAssign
        | SpecialKind::MulAssign
        | SpecialKind::DivAssign => takes_other(receiver),
        _ => false,
    }
}

/// Whether it can't have so many parameters.
#[tactic(auto, unfolding(crate::specs::Receivers::is_wrong_count))]
pub(crate) fn is_wrong_count(kind: SpecialKind, count: usize) -> bool
    ensures { result ≡ is_wrong_count kind count }
{
    match kind {
        SpecialKind::Constructor | SpecialKind::NamedConstructor => false,
        SpecialKind::Getter
        | SpecialKind::Stringifier
        | SpecialKind::Iterator
        | SpecialKind::Iterable => count != 0,
        _ => count != 1,
    }
}
