//! What a type is as a whole.

ghost use Rattle.std.specs.Prelude.{◌≡◌, option_copied};
ghost use Rattle.hir_validation.specs.WholeTypes.{callback_whole, slice_definition, whole_type};
ghost use Rattle.hir_validation.specs.inside.Seen.{whole_seen};

use hir_ids::{EnumId, MaybeOwn, OpaqueId, OpaqueOwner, TypeId};
use hir_life::{Lifetime, MaybeStatic};
use hir_types::{
    Callback, CallbackReturn, HirType, PositionTypes, ReturnType, Slice, StructPathLike, TyPosition,
};

/// What a type is as a whole: nothing inside an option counts.
#[derive(Clone, Copy)]
pub(crate) enum WholeType<'p> {
    Primitive,
    Enum(EnumId),
    /// With the lifetime of its borrow, where it has one, and those that it gives its definition.
    Opaque(OpaqueId, Option<MaybeStatic<Lifetime>>, &'p [MaybeStatic<Lifetime>]),
    /// With how it is held, and the lifetimes that it gives its definition.
    Struct(TypeId, MaybeOwn, &'p [MaybeStatic<Lifetime>]),
    /// With the definition of its elements, where they have one.
    Slice(Option<TypeId>),
    /// With what it gives back.
    Callback(&'p ReturnType<CallbackReturn>),
    Other,
}

/// The definition of the elements of a slice, where they have one.
fn slice_definition<P: TyPosition>(slice: &Slice<P>) -> Option<TypeId>
    ensures { result ≡ slice_definition P.StructPath.id_of slice.now }
{
    match slice {
        Slice::Struct(_, path) => Some(path.id()),
        Slice::Enum(_, path) => Some(path.id()),
        Slice::Opaque(_, path) => Some(path.id()),
        Slice::Str(_, _) | Slice::Primitive(_, _) | Slice::Strs(_) => None,
    }
}

/// What a callback is as a whole, where there is one.
fn callback_whole(callback: Option<&Callback>) -> WholeType<'_>
    ensures { whole_seen result ≡ callback_whole (option_copied callback.entry) }
{
    match callback {
        Some(callback) => WholeType::Callback(&callback.output),
        None => WholeType::Other,
    }
}

/// What a type is as a whole.
pub(crate) fn whole_type<P: PositionTypes>(ty: &HirType<P>) -> WholeType<'_>
    ensures { whole_seen result ≡ whole_type P.OpaqueOwnership.borrow_of P.StructPath.id_of
        P.StructPath.lifetimes_of P.StructPath.held_of P.callback_of ty.now }
{
    match ty {
        HirType::Primitive(_) => WholeType::Primitive,
        HirType::Opaque(path) => {
            WholeType::Opaque(
                path.tcx_id,
                path.owner.lifetime(),
                path.lifetimes.as_slice(),
            )
        }
        HirType::Struct(path) => {
            WholeType::Struct(path.id(), path.owner(), path.lifetimes().as_slice())
        }
        HirType::Enum(path) => WholeType::Enum(path.tcx_id),
        HirType::Slice(slice) => WholeType::Slice(slice_definition(slice)),
        HirType::Callback(callback) => callback_whole(P::callback(Some(callback))),
        HirType::ImplTrait(_) | HirType::DiplomatOption(_) => WholeType::Other,
    }
}
