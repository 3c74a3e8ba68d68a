//! Which types the fields of a struct may have.

ghost use Rattle.std.specs.Prelude.{◌≡◌, ◌↔◌, IsTrue};
ghost use Rattle.bridge_grid.specs.rules.FfiUnsafe.{IsFfiSafe};

use crate::returns::is_pointer;
use bridge_decl::StdlibOrDiplomat;
use hir_number::NumberedType;

fn is_of_diplomat(spelling: StdlibOrDiplomat) -> bool
    ensures { IsTrue result ↔ (spelling ≡ StdlibOrDiplomat.Diplomat) }
{
    match spelling {
        StdlibOrDiplomat::Stdlib => false,
        StdlibOrDiplomat::Diplomat => true,
    }
}

/// Whether a field of a struct may have the type: only then it is laid out as the other language has
/// it.
pub fn is_ffi_safe(ty: &NumberedType) -> bool
    ensures { IsTrue result ↔ IsFfiSafe ty.now }
{
    match ty {
        NumberedType::Primitive(_) => true,
        NumberedType::Named(_) => true,
        NumberedType::SelfType(_) => true,
        NumberedType::ImplTrait(_) => true,
        NumberedType::Reference(_, _, _) => true,
        NumberedType::Box(_) => true,
        NumberedType::Function(_, _, _) => true,
        NumberedType::Option(inner, StdlibOrDiplomat::Stdlib) => is_pointer(inner.get()),
        NumberedType::Option(inner, StdlibOrDiplomat::Diplomat) => !is_pointer(inner.get()),
        NumberedType::StrReference(_, _, spelling) => is_of_diplomat(*spelling),
        NumberedType::StrSlice(_, spelling) => is_of_diplomat(*spelling),
        NumberedType::PrimitiveSlice(_, _, spelling) => is_of_diplomat(*spelling),
        NumberedType::CustomTypeSlice(_, _, spelling) => is_of_diplomat(*spelling),
        NumberedType::Ordering
        | NumberedType::Result(_, _, _)
        | NumberedType::Write(_)
        | NumberedType::Unit => false,
    }
}
