//! How types use definitions.

ghost use Rattle.std.specs.Prelude.{◌≡◌, ◌++◌, OnOk, option_map};
ghost use Rattle.hir_types.specs.Types.{type_id};
ghost use Rattle.hir_usage.specs.Seen.{meant, id_lent};
ghost use Rattle.hir_usage.specs.Types.{opaque_usages, slice_usages, uses_within};
ghost use Rattle.hir_usage.specs.Uses.{is_optioned, optioned_where};

use crate::positions::PositionUses;
use crate::uses::{LentId, Use};
use bridge_decl::NoMemory;
use hir_ids::{InputOrOutput, OpaqueOwner, Optional};
use hir_types::{HirType, OpaquePath, Slice};

/// Whether an opaque is in an option by itself: it may be absent, and it is borrowed where it
/// comes in, or owned where it only goes out.
fn is_optioned(status: InputOrOutput, is_optional: bool, is_owned: bool) -> bool
    ensures { result ≡ is_optioned status is_optional is_owned }
{
    is_optional
        && match status {
            InputOrOutput::Input | InputOrOutput::InputOutput => !is_owned,
            InputOrOutput::Output => is_owned,
        }
}

/// Adds that a definition is in an option, where it is.
fn add_optioned<'a>(
    uses: &mut Vec<Use<'a>>,
    in_option: bool,
    id: LentId<'a>,
) -> Result<(), NoMemory>
    ensures { OnOk result (meant uses.new
        ≡ meant uses.old ++ optioned_where in_option (id_lent id.entry)) }
{
    if in_option {
        uses.push(Use::Optioned(id))?;
    }
    Ok(())
}

/// Adds that an opaque is in an option by itself, where it is.
fn add_opaque<'a, Owner: OpaqueOwner>(
    uses: &mut Vec<Use<'a>>,
    status: InputOrOutput,
    path: &'a OpaquePath<Optional, Owner>,
) -> Result<(), NoMemory>
    ensures { OnOk result (meant uses.new
        ≡ meant uses.old ++ opaque_usages status Owner.borrow_of path.now) }
{
    let in_option = is_optioned(status, path.is_optional(), path.is_owned());
    add_optioned(uses, in_option, LentId::Opaque(&path.tcx_id))
}

/// Adds how a slice uses its element.
fn add_slice<'a, P: PositionUses>(
    uses: &mut Vec<Use<'a>>,
    slice: &'a Slice<P>,
) -> Result<(), NoMemory>
    ensures { OnOk result (meant uses.new
        ≡ meant uses.old ++ slice_usages P.IN_OUT_STATUS P.StructPath.id_of slice.now) }
{
    match slice {
        Slice::Str(_, _) | Slice::Primitive(_, _) | Slice::Strs(_) => {}
        Slice::Struct(_, element) => uses.push(Use::Sliced(P::struct_id(element)))?,
        Slice::Enum(_, element) => uses.push(Use::Sliced(LentId::Enum(&element.tcx_id)))?,
        Slice::Opaque(_, element) => {
            add_opaque(uses, P::IN_OUT_STATUS, element)?;
            uses.push(Use::Sliced(LentId::Opaque(&element.tcx_id)))?;
        }
    }
    Ok(())
}

/// Adds how a type uses definitions, which may stand directly in an option.
pub(crate) fn add_type<'a, P: PositionUses>(
    uses: &mut Vec<Use<'a>>,
    ty: &'a HirType<P>,
    in_option: bool,
) -> Result<(), NoMemory>
    ensures { OnOk result (meant uses.new ≡ meant uses.old
        ++ uses_within P.IN_OUT_STATUS P.OpaqueOwnership.borrow_of P.StructPath.id_of
        P.of_callback ty.now in_option) }
{
    match ty {
        HirType::Primitive(_) | HirType::ImplTrait(_) => Ok(()),
        HirType::Opaque(path) => {
            add_opaque(uses, P::IN_OUT_STATUS, path)?;
            add_optioned(uses, in_option, LentId::Opaque(&path.tcx_id))
        }
        HirType::Struct(path) => add_optioned(uses, in_option, P::struct_id(path)),
        HirType::Enum(path) => add_optioned(uses, in_option, LentId::Enum(&path.tcx_id)),
        HirType::Slice(slice) => add_slice(uses, slice),
        HirType::Callback(callback) => P::add_callback(uses, Some(callback)),
        HirType::DiplomatOption(inner) => add_type(uses, inner.get(), true),
    }
}

/// The definition that a type names, where it names one.
pub(crate) fn definition_of<P: PositionUses>(ty: &HirType<P>) -> Option<LentId<'_>>
    ensures { option_map id_lent result ≡ type_id P.StructPath.id_of ty.now }
{
    match ty {
        HirType::Opaque(path) => Some(LentId::Opaque(&path.tcx_id)),
        HirType::Struct(path) => Some(P::struct_id(path)),
        HirType::Enum(path) => Some(LentId::Enum(&path.tcx_id)),
        _ => None,
    }
}
