//! What a special method returns.

ghost use Rattle.std.specs.Prelude.{◌≡◌};
ghost use Rattle.hir_special.specs.Returns.{compares, gives_opaque, gives_optional, is_nothing, is_of, is_ordering, is_right_return, makes, same_id, steps, writes_text};

use hir_attrs::SpecialKind;
use hir_ids::{PrimitiveType, TypeId};
use hir_types::{HirType, OutputOnly, ReturnType, SuccessType, WriteType};

/// Whether both are of one definition.
fn same_id(first: &TypeId, second: &TypeId) -> bool
    ensures { result ≡ same_id first.now second.now }
{
    match (first, second) {
        (TypeId::Struct(first), TypeId::Struct(second)) => first.index() == second.index(),
        (TypeId::OutStruct(first), TypeId::OutStruct(second)) => first.index() == second.index(),
        (TypeId::Opaque(first), TypeId::Opaque(second)) => first.index() == second.index(),
        (TypeId::Enum(first), TypeId::Enum(second)) => first.index() == second.index(),
        _ => false,
    }
}

/// Whether a value of that definition comes of success.
fn is_of(owner: TypeId, success: &SuccessType<OutputOnly>) -> bool
    ensures { result ≡ is_of owner success.now }
{
    match success {
        SuccessType::OutType(ty) => match ty.id() {
            Some(id) => same_id(&id, &owner),
            None => false,
        },
        _ => false,
    }
}

/// Whether an `Ordering` does.
pub(crate) fn is_ordering(success: &SuccessType<OutputOnly>) -> bool
    ensures { result ≡ is_ordering success.now }
{
    matches!(
        success,
        SuccessType::OutType(HirType::Primitive(PrimitiveType::Ordering))
    )
}

/// Whether an opaque does, which may be absent.
fn gives_opaque(success: &SuccessType<OutputOnly>) -> bool
    ensures { result ≡ gives_opaque success.now }
{
    matches!(success, SuccessType::OutType(HirType::Opaque(_)))
}

/// Whether an opaque that may be absent does.
fn gives_optional(success: &SuccessType<OutputOnly>) -> bool
    ensures { result ≡ gives_optional success.now }
{
    match success {
        SuccessType::OutType(HirType::Opaque(path)) => path.is_optional(),
        _ => false,
    }
}

/// Whether a text is written, and not a list.
fn writes_text(success: &SuccessType<OutputOnly>) -> bool
    ensures { result ≡ writes_text success.now }
{
    matches!(
        success,
        SuccessType::Write(WriteType::Str | WriteType::Str16)
    )
}

/// Whether nothing comes of success.
fn is_nothing(success: &SuccessType<OutputOnly>) -> bool
    ensures { result ≡ is_nothing success.now }
{
    matches!(success, SuccessType::Unit)
}

/// Whether a value of that definition is made, or one or an error.
fn makes(owner: TypeId, output: &ReturnType<OutputOnly>) -> bool
    ensures { result ≡ makes owner output.now }
{
    match output {
        ReturnType::Infallible(success) | ReturnType::Fallible(success, _) => is_of(owner, success),
        ReturnType::Nullable(_) => false,
    }
}

/// Whether it is an `Ordering`, or an option of one.
fn compares(output: &ReturnType<OutputOnly>) -> bool
    ensures { result ≡ compares output.now }
{
    match output {
        ReturnType::Infallible(success) | ReturnType::Nullable(success) => is_ordering(success),
        ReturnType::Fallible(_, _) => false,
    }
}

/// Whether it is the next of some values, or nothing.
fn steps(output: &ReturnType<OutputOnly>) -> bool
    ensures { result ≡ steps output.now }
{
    match output {
        ReturnType::Nullable(success) => !is_nothing(success),
        ReturnType::Infallible(success) => gives_optional(success),
        ReturnType::Fallible(_, _) => false,
    }
}

/// Whether a special method of that kind, of the type of that id, may return it.
#[tactic(auto, unfolding(crate::specs::Returns::is_right_return))]
pub(crate) fn is_right_return(
    kind: SpecialKind,
    owner: TypeId,
    output: &ReturnType<OutputOnly>,
) -> bool
    ensures { result ≡ is_right_return kind owner output.now }
{
    match kind {
        SpecialKind::Constructor | SpecialKind::NamedConstructor => makes(owner, output),
        SpecialKind::Getter => true,
        SpecialKind::Stringifier => writes_text(output.success_type()),
        SpecialKind::Comparison => compares(output),
        SpecialKind::Iterator => steps(output),
        SpecialKind::Iterable => gives_opaque(output.success_type()),
        SpecialKind::Setter
        | SpecialKind::AddAssign
        | SpecialKind::SubAssign
        | SpecialKind::MulAssign
        | SpecialKind::DivAssign => is_nothing(output.success_type()),
        SpecialKind::Indexer
        | SpecialKind::Add
        | SpecialKind::Sub
        | SpecialKind::Mul
        | SpecialKind::Div => !is_nothing(output.success_type()),
    }
}
