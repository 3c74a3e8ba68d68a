//! What of a type a walk goes on with.

ghost use Rattle.std.specs.Prelude.{◌≡◌, Some};
ghost use Rattle.hir_ids.specs.declared.ids.TypeId.TheVariants as type;
ghost use Rattle.hir_skeleton.specs.Lowered.{carrier_of, skeleton_of, slice_carries};
ghost use Rattle.hir_borrowing_fields.specs.inside.TypeParts.{part_skeleton};

use hir_ids::{Borrow, OpaqueOwner};
use hir_life::{Lifetime, MaybeStatic};
use hir_types::{Everywhere, HirType, InputOnly, Slice, StructPath, TyPosition};

/// What of a type a walk goes on with: what is in its options.
#[derive(Clone, Copy)]
pub(crate) enum TypePart<'m> {
    /// Nothing that could carry a lifetime.
    Nothing,
    /// A borrowed opaque or a slice: its own lifetime, that of its elements, and those that these
    /// give their definition. An opaque is its own element.
    Carrier(
        Option<MaybeStatic<Lifetime>>,
        Option<MaybeStatic<Lifetime>>,
        &'m [MaybeStatic<Lifetime>],
    ),
    /// A struct.
    Struct(&'m StructPath),
}

/// A position of inputs, where all structs may also be returned and all opaques are borrowed.
pub(crate) trait InputPosition: TyPosition {
    ghost use Rattle.hir_ids.specs.declared.owners.Borrow.{Borrow};
    ghost use Rattle.hir_types.specs.declared.paths.StructPath.{StructPath};

    /// The path to a struct.
    ghost path_to: { Self.StructPath → StructPath };

    /// The borrow of an opaque.
    ghost borrow_by: { Self.OpaqueOwnership → Borrow };

    /// The path to a struct.
    fn struct_path(path: &Self::StructPath) -> &StructPath
        ensures { result.now ≡ path_to path.now };

    /// The borrow of an opaque.
    fn borrow(owner: &Self::OpaqueOwnership) -> &Borrow
        ensures { result.now ≡ borrow_by owner.now };
}

impl InputPosition for Everywhere {
    ghost path_to = { λ path. path };

    ghost borrow_by = { λ borrow. borrow };

    fn struct_path(path: &StructPath) -> &StructPath {
        path
    }

    fn borrow(owner: &Borrow) -> &Borrow {
        owner
    }
}

impl InputPosition for InputOnly {
    ghost path_to = { λ path. path };

    ghost borrow_by = { λ borrow. borrow };

    fn struct_path(path: &StructPath) -> &StructPath {
        path
    }

    fn borrow(owner: &Borrow) -> &Borrow {
        owner
    }
}

/// The part of a slice.
fn slice_part<P: InputPosition>(slice: &Slice<P>) -> TypePart<'_>
    ensures { part_skeleton result ≡ carrier_of (slice_carries
        (λ path. (P.path_to path).lifetimes) (λ path. (P.path_to path).owner) slice.now) }
{
    match slice {
        Slice::Str(lifetime, _) => TypePart::Carrier(*lifetime, None, &[]),
        Slice::Primitive(owner, _) => TypePart::Carrier(OpaqueOwner::lifetime(owner), None, &[]),
        Slice::Strs(_) => TypePart::Nothing,
        Slice::Struct(owner, path) => {
            let path = P::struct_path(path);
            TypePart::Carrier(
                OpaqueOwner::lifetime(owner),
                OpaqueOwner::lifetime(&path.owner),
                path.lifetimes.as_slice(),
            )
        }
        Slice::Enum(owner, _) => TypePart::Carrier(OpaqueOwner::lifetime(owner), None, &[]),
        Slice::Opaque(owner, path) => TypePart::Carrier(
            OpaqueOwner::lifetime(owner),
            Some(path.owner.lifetime),
            path.lifetimes.as_slice(),
        ),
    }
}

/// The part of a type.
pub(crate) fn type_part<P: InputPosition>(ty: &HirType<P>) -> TypePart<'_>
    ensures { part_skeleton result ≡ skeleton_of (λ owner. Some (P.borrow_by owner))
        (λ path. type.Struct (P.path_to path).tcx_id) (λ path. (P.path_to path).lifetimes)
        (λ path. (P.path_to path).owner) ty.now }
{
    match ty {
        HirType::Opaque(path) => TypePart::Carrier(
            None,
            Some(P::borrow(&path.owner).lifetime),
            path.lifetimes.as_slice(),
        ),
        HirType::Struct(path) => TypePart::Struct(P::struct_path(path)),
        HirType::Slice(slice) => slice_part(slice),
        HirType::DiplomatOption(inner) => type_part(inner.get()),
        HirType::Primitive(_) | HirType::ImplTrait(_) | HirType::Enum(_) | HirType::Callback(_) =>
            TypePart::Nothing,
    }
}
