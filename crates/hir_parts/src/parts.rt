//! What of the type of an input counts.

ghost use Rattle.std.specs.Prelude.{◌≡◌, true, false};
ghost use Rattle.hir_ids.specs.declared.ids.TypeId.TheVariants as type;
ghost use Rattle.hir_skeleton.specs.Lowered.{carrier_of, opaque_skeleton, receiver_skeleton, skeleton_of, slice_carries};
ghost use Rattle.hir_skeleton.specs.Inputs.{is_slice_type};
ghost use Rattle.hir_parts.specs.Parts.{input_skeleton, part_is_slice};

use hir_ids::{OpaqueOwner, Optional, StructId};
use hir_life::{Lifetime, MaybeStatic};
use hir_types::{HirType, OpaquePath, SelfType, Slice, StructPath, TyPosition};

/// What of a type decides from where something may be borrowed through it: of what is in its options.
#[derive(Clone, Copy)]
pub enum InputPart<'p> {
    /// Whether it is a slice, and the lifetimes that are carried: its own, that of its elements,
    /// and those that these give their definition. An opaque is its own element. What can't be
    /// borrowed from has none of them.
    Carrier(
        bool,
        Option<MaybeStatic<Lifetime>>,
        Option<MaybeStatic<Lifetime>>,
        &'p [MaybeStatic<Lifetime>],
    ),
    /// A struct, with the lifetimes that it is given.
    Struct(StructId, &'p [MaybeStatic<Lifetime>]),
}

/// The part of an opaque. One in a box can't be borrowed from.
fn opaque_part<Owner: OpaqueOwner>(path: &OpaquePath<Optional, Owner>) -> InputPart<'_>
    ensures skeleton { input_skeleton result
        ≡ opaque_skeleton path.now.lifetimes (Owner.borrow_of path.now.owner) }
    ensures slice { part_is_slice result ≡ false }
{
    match path.owner.lifetime() {
        Some(lifetime) => {
            InputPart::Carrier(false, None, Some(lifetime), path.lifetimes.as_slice())
        }
        None => InputPart::Carrier(false, None, None, &[]),
    }
}

/// The part of a slice.
fn slice_part<P: TyPosition<StructPath = StructPath>>(slice: &Slice<P>) -> InputPart<'_>
    ensures skeleton { input_skeleton result ≡ carrier_of (slice_carries
        (λ path. path.lifetimes) (λ path. path.owner) slice.now) }
    ensures slice { part_is_slice result ≡ true }
{
    match slice {
        Slice::Str(lifetime, _) => InputPart::Carrier(true, *lifetime, None, &[]),
        Slice::Primitive(owner, _) => {
            InputPart::Carrier(true, OpaqueOwner::lifetime(owner), None, &[])
        }
        Slice::Strs(_) => InputPart::Carrier(true, None, None, &[]),
        Slice::Struct(owner, path) => InputPart::Carrier(
            true,
            OpaqueOwner::lifetime(owner),
            OpaqueOwner::lifetime(&path.owner),
            path.lifetimes.as_slice(),
        ),
        Slice::Enum(owner, _) => {
            InputPart::Carrier(true, OpaqueOwner::lifetime(owner), None, &[])
        }
        Slice::Opaque(owner, path) => InputPart::Carrier(
            true,
            OpaqueOwner::lifetime(owner),
            Some(path.owner.lifetime),
            path.lifetimes.as_slice(),
        ),
    }
}

/// The part of a type.
pub fn input_part<P: TyPosition<StructPath = StructPath>>(ty: &HirType<P>) -> InputPart<'_>
    ensures skeleton { input_skeleton result ≡ skeleton_of P.OpaqueOwnership.borrow_of
        (λ path. type.Struct path.tcx_id) (λ path. path.lifetimes) (λ path. path.owner) ty.now }
    ensures slice { part_is_slice result ≡ is_slice_type ty.now }
{
    match ty {
        HirType::Opaque(path) => opaque_part(path),
        HirType::Struct(path) => InputPart::Struct(path.tcx_id, path.lifetimes.as_slice()),
        HirType::Slice(slice) => slice_part(slice),
        HirType::DiplomatOption(inner) => input_part(inner.get()),
        HirType::Primitive(_) | HirType::ImplTrait(_) | HirType::Enum(_) | HirType::Callback(_) =>
            InputPart::Carrier(false, None, None, &[]),
    }
}

/// The part of a receiver.
pub fn receiver_part(ty: &SelfType) -> InputPart<'_>
    ensures skeleton { input_skeleton result ≡ receiver_skeleton ty.now }
    ensures slice { part_is_slice result ≡ false }
{
    match ty {
        SelfType::Opaque(path) => InputPart::Carrier(
            false,
            None,
            Some(path.owner.lifetime),
            path.lifetimes.as_slice(),
        ),
        SelfType::Struct(path) => InputPart::Struct(path.tcx_id, path.lifetimes.as_slice()),
        SelfType::Enum(_) => InputPart::Carrier(false, None, None, &[]),
    }
}
