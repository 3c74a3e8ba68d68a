//! What differs by the position.

ghost use Rattle.std.specs.Prelude.{◌≡◌};
ghost use Rattle.hir_form.specs.Makers.{Makers, of_fields, of_inputs, of_outputs, struct_coming_in, struct_going_out};

use hir_ids::{Borrow, MaybeOwn, OutStructId};
use hir_types::{
    CallbackReturn, Everywhere, InputOnly, NoTraitPath, OutStructPath, OutputOnly,
    ReturnableStructPath, StructPath, TraitPath, TyPosition,
};

/// What a position makes of the parts of types: the one thing in which lowering differs by the
/// position.
pub trait Forms: TyPosition {
    /// All that is made here.
    ghost makers: { Makers Self.OpaqueOwnership Self.StructPath Self.TraitPath };

    /// How a borrowed opaque is held.
    fn borrowed(borrow: Borrow) -> Self::OpaqueOwnership
        ensures { result ≡ makers.borrowed borrow };

    /// How an opaque in a box is held. None where no box may stand.
    fn boxed() -> Option<Self::OpaqueOwnership>
        ensures { result ≡ makers.boxed };

    /// The path to a struct, which may be one that only comes out. None where that may not stand.
    fn named(is_out: bool, path: StructPath) -> Option<Self::StructPath>
        ensures { result ≡ makers.named is_out path };

    /// The path to a trait. None where no trait may stand.
    fn implementing(path: TraitPath) -> Option<Self::TraitPath>
        ensures { result ≡ makers.implementing path };
}

fn struct_coming_in(is_out: bool, path: StructPath) -> Option<StructPath>
    ensures { result ≡ struct_coming_in is_out path }
{
    if is_out { None } else { Some(path) }
}

fn struct_going_out(is_out: bool, path: StructPath) -> Option<ReturnableStructPath>
    ensures { result ≡ struct_going_out is_out path }
{
    if is_out {
        Some(ReturnableStructPath::OutStruct(OutStructPath {
            lifetimes: path.lifetimes,
            tcx_id: OutStructId::new(path.tcx_id.index()),
            owner: path.owner,
        }))
    } else {
        Some(ReturnableStructPath::Struct(path))
    }
}

impl Forms for Everywhere {
    ghost makers = { of_fields };

    fn borrowed(borrow: Borrow) -> Borrow {
        borrow
    }

    fn boxed() -> Option<Borrow> {
        None
    }

    fn named(is_out: bool, path: StructPath) -> Option<StructPath> {
        struct_coming_in(is_out, path)
    }

    fn implementing(_path: TraitPath) -> Option<NoTraitPath> {
        None
    }
}

impl Forms for InputOnly {
    ghost makers = { of_inputs };

    fn borrowed(borrow: Borrow) -> Borrow {
        borrow
    }

    fn boxed() -> Option<Borrow> {
        None
    }

    fn named(is_out: bool, path: StructPath) -> Option<StructPath> {
        struct_coming_in(is_out, path)
    }

    fn implementing(path: TraitPath) -> Option<TraitPath> {
        Some(path)
    }
}

impl Forms for CallbackReturn {
    ghost makers = { of_inputs };

    fn borrowed(borrow: Borrow) -> Borrow {
        borrow
    }

    fn boxed() -> Option<Borrow> {
        None
    }

    fn named(is_out: bool, path: StructPath) -> Option<StructPath> {
        struct_coming_in(is_out, path)
    }

    fn implementing(path: TraitPath) -> Option<TraitPath> {
        Some(path)
    }
}

impl Forms for OutputOnly {
    ghost makers = { of_outputs };

    fn borrowed(borrow: Borrow) -> MaybeOwn {
        MaybeOwn::Borrow(borrow)
    }

    fn boxed() -> Option<MaybeOwn> {
        Some(MaybeOwn::Own)
    }

    fn named(is_out: bool, path: StructPath) -> Option<ReturnableStructPath> {
        struct_going_out(is_out, path)
    }

    fn implementing(_path: TraitPath) -> Option<NoTraitPath> {
        None
    }
}
