//! What the trailing writer of a method or a function takes.

ghost use Rattle.std.specs.Prelude.{◌≡◌};
ghost use Rattle.bridge_decl.specs.declared.types.TypeName.{out-TypeName};
ghost use Rattle.hir_methods.specs.Writers.{taken_level, trailing_writer, written_through};

use bridge_decl::{Mutability, Param, TypeName, WriteType};

/// What a type takes that is a writer.
fn taken(ty: &TypeName) -> Option<WriteType>
    ensures { result ≡ taken_level (out-TypeName ty.now) }
{
    match ty {
        TypeName::Write(target) => Some(*target),
        _ => None,
    }
}

/// What is written through a parameter: `&mut DiplomatWrite`.
fn written_through(param: &Param) -> Option<WriteType>
    ensures { result ≡ written_through param.now }
{
    match &param.ty {
        TypeName::Reference(_, Mutability::Mutable, inner) => taken(inner.get()),
        _ => None,
    }
}

/// What is written through the last parameter.
pub(crate) fn trailing_writer(params: &[Param]) -> Option<WriteType>
    ensures { result ≡ trailing_writer params.now }
{
    match params.split_last() {
        Some((last, _)) => written_through(last),
        None => None,
    }
}
