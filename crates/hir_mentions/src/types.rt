//! What types, paths and returns name.

ghost use Rattle.std.specs.Prelude.{◌≡◌, ◌++◌, ◌∷◌, [], OnOk};
ghost use Rattle.hir_types.specs.Returns.{type_in};
ghost use Rattle.hir_mentions.specs.Mentions.{borrow_mentions, enum_mention, opaque_mention, owner_mentions, where_any};
ghost use Rattle.hir_mentions.specs.Seen.{all_mentioned};
ghost use Rattle.hir_mentions.specs.Types.{out_path_mentions, receiver_mentions, return_mentions, slice_mentions, struct_path_mentions, text_mentions, trait_path_mentions, type_mentions};

use crate::mentions::Mention;
use crate::positions::PositionMentions;
use bridge_decl::NoMemory;
use hir_ids::{Borrow, EnumId, MaybeOwn, OpaqueId};
use hir_life::{Lifetime, Lifetimes, MaybeStatic};
use hir_types::{
    HirType, OutStructPath, ReturnType, SelfType, Slice, StructPath, SuccessType, TraitPath,
};

/// Adds the lifetime, where there is one.
fn add_lifetime<'a>(
    mentions: &mut Vec<Mention<'a>>,
    lifetime: &'a Option<MaybeStatic<Lifetime>>,
) -> Result<(), NoMemory>
    ensures { OnOk result (all_mentioned mentions.new
        ≡ all_mentioned mentions.old ++ where_any text_mentions lifetime.now) }
{
    match lifetime {
        Some(lifetime) => {
            mentions.push(Mention::Borrow(lifetime))?;
            Ok(())
        }
        None => Ok(()),
    }
}

/// Adds the lifetime of a borrow.
pub(crate) fn add_borrow<'a>(
    mentions: &mut Vec<Mention<'a>>,
    borrow: &'a Borrow,
) -> Result<(), NoMemory>
    ensures { OnOk result (all_mentioned mentions.new
        ≡ all_mentioned mentions.old ++ borrow_mentions borrow.now) }
{
    mentions.push(Mention::Borrow(&borrow.lifetime))?;
    Ok(())
}

/// Adds the lifetime of what is borrowed.
pub(crate) fn add_owner<'a>(
    mentions: &mut Vec<Mention<'a>>,
    owner: &'a MaybeOwn,
) -> Result<(), NoMemory>
    ensures { OnOk result (all_mentioned mentions.new
        ≡ all_mentioned mentions.old ++ owner_mentions owner.now) }
{
    match owner {
        MaybeOwn::Own => Ok(()),
        MaybeOwn::Borrow(borrow) => add_borrow(mentions, borrow),
    }
}

/// Adds an opaque with these lifetimes.
fn add_opaque<'a>(
    mentions: &mut Vec<Mention<'a>>,
    id: &'a OpaqueId,
    lifetimes: &'a Lifetimes,
) -> Result<(), NoMemory>
    ensures { OnOk result (all_mentioned mentions.new
        ≡ all_mentioned mentions.old ++ opaque_mention id.now lifetimes.now ∷ []) }
{
    mentions.push(Mention::Opaque(id, lifetimes))?;
    Ok(())
}

/// Adds an enum.
fn add_enum<'a>(mentions: &mut Vec<Mention<'a>>, id: &'a EnumId) -> Result<(), NoMemory>
    ensures { OnOk result (all_mentioned mentions.new
        ≡ all_mentioned mentions.old ++ enum_mention id.now ∷ []) }
{
    mentions.push(Mention::Enum(id))?;
    Ok(())
}

/// Adds what a path to a struct names.
pub(crate) fn add_struct_path<'a>(
    mentions: &mut Vec<Mention<'a>>,
    path: &'a StructPath,
) -> Result<(), NoMemory>
    ensures { OnOk result (all_mentioned mentions.new
        ≡ all_mentioned mentions.old ++ struct_path_mentions path.now) }
{
    mentions.push(Mention::Struct(&path.tcx_id, &path.lifetimes))?;
    add_owner(mentions, &path.owner)
}

/// Adds what a path to a struct names that is only returned.
pub(crate) fn add_out_path<'a>(
    mentions: &mut Vec<Mention<'a>>,
    path: &'a OutStructPath,
) -> Result<(), NoMemory>
    ensures { OnOk result (all_mentioned mentions.new
        ≡ all_mentioned mentions.old ++ out_path_mentions path.now) }
{
    mentions.push(Mention::OutStruct(&path.tcx_id, &path.lifetimes))?;
    add_owner(mentions, &path.owner)
}

/// Adds what a path to a trait names.
pub(crate) fn add_trait_path<'a>(
    mentions: &mut Vec<Mention<'a>>,
    path: &'a TraitPath,
) -> Result<(), NoMemory>
    ensures { OnOk result (all_mentioned mentions.new
        ≡ all_mentioned mentions.old ++ trait_path_mentions path.now) }
{
    mentions.push(Mention::Trait(&path.tcx_id, &path.lifetimes))?;
    Ok(())
}

/// Adds what a receiver names.
pub(crate) fn add_receiver<'a>(
    mentions: &mut Vec<Mention<'a>>,
    receiver: &'a SelfType,
) -> Result<(), NoMemory>
    ensures { OnOk result (all_mentioned mentions.new
        ≡ all_mentioned mentions.old ++ receiver_mentions receiver.now) }
{
    match receiver {
        SelfType::Opaque(path) => {
            add_opaque(mentions, &path.tcx_id, &path.lifetimes)?;
            add_borrow(mentions, &path.owner)
        }
        SelfType::Struct(path) => add_struct_path(mentions, path),
        SelfType::Enum(path) => add_enum(mentions, &path.tcx_id),
    }
}

/// Adds what a slice names.
fn add_slice<'a, P: PositionMentions>(
    mentions: &mut Vec<Mention<'a>>,
    slice: &'a Slice<P>,
) -> Result<(), NoMemory>
    ensures { OnOk result (all_mentioned mentions.new
        ≡ all_mentioned mentions.old ++ slice_mentions P.of_struct slice.now) }
{
    match slice {
        Slice::Str(lifetime, _) => add_lifetime(mentions, lifetime),
        Slice::Primitive(owner, _) => add_owner(mentions, owner),
        Slice::Strs(_) => Ok(()),
        Slice::Struct(owner, path) => {
            P::add_struct(mentions, path)?;
            add_owner(mentions, owner)
        }
        Slice::Enum(owner, path) => {
            add_enum(mentions, &path.tcx_id)?;
            add_owner(mentions, owner)
        }
        Slice::Opaque(owner, path) => {
            add_opaque(mentions, &path.tcx_id, &path.lifetimes)?;
            add_borrow(mentions, &path.owner)?;
            add_owner(mentions, owner)
        }
    }
}

/// Adds what a type names.
pub(crate) fn add_type<'a, P: PositionMentions>(
    mentions: &mut Vec<Mention<'a>>,
    ty: &'a HirType<P>,
) -> Result<(), NoMemory>
    ensures { OnOk result (all_mentioned mentions.new ≡ all_mentioned mentions.old
        ++ type_mentions P.OpaqueOwnership.borrow_of P.of_struct P.of_trait P.of_callback ty.now) }
{
    match ty {
        HirType::Primitive(_) => Ok(()),
        HirType::Opaque(path) => {
            add_opaque(mentions, &path.tcx_id, &path.lifetimes)?;
            P::add_owner(mentions, &path.owner)
        }
        HirType::Struct(path) => P::add_struct(mentions, path),
        HirType::ImplTrait(path) => P::add_trait(mentions, Some(path)),
        HirType::Enum(path) => add_enum(mentions, &path.tcx_id),
        HirType::Slice(slice) => add_slice(mentions, slice),
        HirType::Callback(callback) => P::add_callback(mentions, Some(callback)),
        HirType::DiplomatOption(inner) => add_type(mentions, inner.get()),
    }
}

/// Adds what the type of a success names, where it has one.
pub(crate) fn add_success<'a, P: PositionMentions>(
    mentions: &mut Vec<Mention<'a>>,
    success: &'a SuccessType<P>,
) -> Result<(), NoMemory>
    ensures { OnOk result (all_mentioned mentions.new ≡ all_mentioned mentions.old ++ where_any
        (type_mentions P.OpaqueOwnership.borrow_of P.of_struct P.of_trait P.of_callback)
        (type_in success.now)) }
{
    match success {
        SuccessType::OutType(ty) => add_type(mentions, ty),
        SuccessType::Write(_) | SuccessType::Unit => Ok(()),
    }
}

/// Adds what the type of an error names, where there is one.
pub(crate) fn add_error<'a, P: PositionMentions>(
    mentions: &mut Vec<Mention<'a>>,
    error: &'a Option<HirType<P>>,
) -> Result<(), NoMemory>
    ensures { OnOk result (all_mentioned mentions.new ≡ all_mentioned mentions.old ++ where_any
        (type_mentions P.OpaqueOwnership.borrow_of P.of_struct P.of_trait P.of_callback)
        error.now) }
{
    match error {
        Some(ty) => add_type(mentions, ty),
        None => Ok(()),
    }
}

/// Adds what a return names.
pub(crate) fn add_return<'a, P: PositionMentions>(
    mentions: &mut Vec<Mention<'a>>,
    output: &'a ReturnType<P>,
) -> Result<(), NoMemory>
    ensures { OnOk result (all_mentioned mentions.new
        ≡ all_mentioned mentions.old ++ return_mentions
        (type_mentions P.OpaqueOwnership.borrow_of P.of_struct P.of_trait P.of_callback)
        output.now) }
{
    match output {
        ReturnType::Infallible(success) | ReturnType::Nullable(success) => {
            add_success(mentions, success)
        }
        ReturnType::Fallible(success, error) => {
            add_success(mentions, success)?;
            add_error(mentions, error)
        }
    }
}
