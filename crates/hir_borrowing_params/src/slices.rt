//! What of a type a search for slices goes on with.

ghost use Rattle.std.specs.Prelude.{◌≡◌, map};
ghost use Rattle.hir_ids.specs.declared.ids.TypeId.TheVariants as type;
ghost use Rattle.hir_borrowing_params.specs.Slices.{field_slices, slices_in, slices_of};
ghost use Rattle.hir_borrowing_params.specs.inside.Searching.{part_slices};

use hir_context::TypeContext;
use hir_definitions::StructField;
use hir_ids::StructId;
use hir_life::{Lifetime, MaybeStatic};
use hir_types::{Everywhere, HirType, StructPath, TyPosition};

/// What of a type a search for slices goes on with: what is in its options.
#[derive(Clone, Copy)]
pub(crate) enum SlicePart<'p> {
    /// A slice with its lifetime; or something without slices, which has no lifetime here.
    Slice(Option<MaybeStatic<Lifetime>>),
    /// A struct, whose fields may have slices.
    Struct(&'p StructPath),
}

/// The part of a type.
pub(crate) fn slice_part<P: TyPosition<StructPath = StructPath>>(ty: &HirType<P>) -> SlicePart<'_>
    ensures { part_slices result ≡ slices_of ty.now }
{
    match ty {
        HirType::Struct(path) => SlicePart::Struct(path),
        HirType::Slice(slice) => SlicePart::Slice(slice.lifetime().copied()),
        HirType::DiplomatOption(inner) => slice_part(inner.get()),
        HirType::Primitive(_)
        | HirType::Opaque(_)
        | HirType::ImplTrait(_)
        | HirType::Enum(_)
        | HirType::Callback(_) => SlicePart::Slice(None),
    }
}

/// The fields of a struct, in which slices are looked for: those of a disabled one don't count.
pub(crate) fn fields_of(tcx: &TypeContext, id: StructId) -> &[StructField<Everywhere>]
    ensures { map (λ field. field_slices field.ty) result.now
        ≡ slices_in tcx.now.definitions (type.Struct id) }
{
    match tcx.structs().get(id.index()) {
        Some(def) => {
            if def.attrs.disable {
                &[]
            } else {
                def.fields.as_slice()
            }
        }
        None => &[],
    }
}
