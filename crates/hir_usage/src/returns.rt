//! How returns use definitions.

ghost use Rattle.std.specs.Prelude.{◌≡◌, ◌++◌, OnOk};
ghost use Rattle.hir_types.specs.Returns.{type_in};
ghost use Rattle.hir_mentions.specs.Mentions.{where_any};
ghost use Rattle.hir_usage.specs.Returns.{result_usages, return_usages};
ghost use Rattle.hir_usage.specs.Seen.{meant};
ghost use Rattle.hir_usage.specs.Types.{optioned_usages, type_usages, uses_within};

use crate::positions::{PositionUses, ReturnPosition};
use crate::types::{add_type, definition_of};
use crate::uses::Use;
use bridge_decl::NoMemory;
use hir_types::{HirType, ReturnType, SuccessType};

/// Adds how the type of a success uses definitions, where it has one.
fn add_success<'a, P: PositionUses>(
    uses: &mut Vec<Use<'a>>,
    success: &'a SuccessType<P>,
    in_option: bool,
) -> Result<(), NoMemory>
    ensures { OnOk result (meant uses.new ≡ meant uses.old
        ++ where_any (λ t. uses_within P.IN_OUT_STATUS P.OpaqueOwnership.borrow_of
        P.StructPath.id_of P.of_callback t in_option) (type_in success.now)) }
{
    match success {
        SuccessType::OutType(ty) => add_type(uses, ty, in_option),
        SuccessType::Write(_) | SuccessType::Unit => Ok(()),
    }
}

/// Adds how the type of an error uses definitions, where there is one.
fn add_error<'a, P: PositionUses>(
    uses: &mut Vec<Use<'a>>,
    error: &'a Option<HirType<P>>,
) -> Result<(), NoMemory>
    ensures { OnOk result (meant uses.new ≡ meant uses.old
        ++ where_any (type_usages P.IN_OUT_STATUS P.OpaqueOwnership.borrow_of P.StructPath.id_of
        P.of_callback) error.now) }
{
    match error {
        Some(ty) => add_type(uses, ty, false),
        None => Ok(()),
    }
}

/// Adds the result with this success and this error, as it uses the definition that a type names.
fn add_result<'a, P: ReturnPosition>(
    uses: &mut Vec<Use<'a>>,
    ty: &'a HirType<P>,
    ok: &'a SuccessType<P>,
    err: &'a Option<HirType<P>>,
) -> Result<(), NoMemory>
    ensures { OnOk result (meant uses.new ≡ meant uses.old
        ++ result_usages P.StructPath.id_of (P.result_of ok.now err.now) ty.now) }
{
    match definition_of(ty) {
        Some(id) => P::add_result(uses, id, ok, err),
        None => Ok(()),
    }
}

/// Adds a result as it uses the definitions of its success and its error.
fn add_results<'a, P: ReturnPosition>(
    uses: &mut Vec<Use<'a>>,
    ok: &'a SuccessType<P>,
    err: &'a Option<HirType<P>>,
) -> Result<(), NoMemory>
    ensures { OnOk result (meant uses.new ≡ meant uses.old
        ++ where_any (result_usages P.StructPath.id_of (P.result_of ok.now err.now))
        (type_in ok.now)
        ++ where_any (result_usages P.StructPath.id_of (P.result_of ok.now err.now)) err.now) }
{
    if let SuccessType::OutType(ty) = ok {
        add_result(uses, ty, ok, err)?;
    }
    if let Some(ty) = err {
        add_result(uses, ty, ok, err)?;
    }
    Ok(())
}

/// Adds how a return uses definitions.
pub(crate) fn add_return<'a, P: ReturnPosition>(
    uses: &mut Vec<Use<'a>>,
    output: &'a ReturnType<P>,
) -> Result<(), NoMemory>
    ensures { OnOk result (meant uses.new ≡ meant uses.old ++ return_usages
        (type_usages P.IN_OUT_STATUS P.OpaqueOwnership.borrow_of P.StructPath.id_of P.of_callback)
        (optioned_usages P.IN_OUT_STATUS P.OpaqueOwnership.borrow_of P.StructPath.id_of
        P.of_callback) P.StructPath.id_of P.result_of output.now) }
{
    match output {
        ReturnType::Infallible(success) => add_success(uses, success, false),
        ReturnType::Nullable(success) => add_success(uses, success, true),
        ReturnType::Fallible(ok, err) => {
            add_success(uses, ok, false)?;
            add_error(uses, err)?;
            add_results(uses, ok, err)
        }
    }
}
