//! The trailing writer of a method or a function.

ghost use Rattle.std.specs.Prelude.{◌≡◌};
ghost use Rattle.hir_number.specs.Signatures.{is_writer, is_writer_level, without_writer};
ghost use Rattle.bridge_decl.specs.declared.types.TypeName.{out-TypeName};

use bridge_decl::{Mutability, Param, TypeName};

/// Whether a type is a writer.
fn writes(ty: &TypeName) -> bool
    ensures { result ≡ is_writer_level (out-TypeName ty.now) }
{
    matches!(ty, TypeName::Write(_))
}

/// Whether a parameter is a writer that can be written: `&mut DiplomatWrite`.
fn is_written(param: &Param) -> bool
    ensures { result ≡ is_writer param.now }
{
    match &param.ty {
        TypeName::Reference(_, Mutability::Mutable, inner) => writes(inner.get()),
        _ => false,
    }
}

/// The parameters of a method or a function without the trailing writer, which stands for the return and is no part of the
/// signature.
pub fn before_writer(params: &[Param]) -> &[Param]
    ensures { result.now ≡ without_writer params.now }
{
    match params.split_last() {
        Some((last, rest)) => { if is_written(last) { rest } else { params } }
        None => params,
    }
}
