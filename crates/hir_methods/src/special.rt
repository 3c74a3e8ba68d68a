//! Methods that are marked as special ones.

ghost use Rattle.std.specs.Prelude.{◌≡◌, IfOk, OnOk, Some};
ghost use Rattle.hir_methods.specs.Methods.{owner_id};
ghost use Rattle.hir_methods.specs.Types.{unless_told};
ghost use Rattle.hir_reports.specs.Store.{Held, Keeps, added};
ghost use Rattle.hir_special.specs.Told.{special_errors};

use crate::choosing::kept_if;
use bridge_decl::NoMemory;
use bridge_rules::Entry;
use hir_backends::BackendAttrSupport;
use hir_definitions::Method;
use hir_ids::{EnumId, OpaqueId, OutStructId, StructId, TypeId};
use hir_reports::ErrorStore;
use hir_special::validate_special;
use std::alloc::Global;

/// The id of a type, by what the catalog has of it. What is no type counts as an enum.
pub(crate) fn owner_id(entry: Entry) -> TypeId
    ensures { result ≡ owner_id entry }
{
    match entry {
        Entry::Struct(id, _) => TypeId::Struct(StructId::new(id)),
        Entry::OutStruct(id, _) => TypeId::OutStruct(OutStructId::new(id)),
        Entry::Opaque(id, _) => TypeId::Opaque(OpaqueId::new(id)),
        Entry::Enum(id) | Entry::Trait(id) | Entry::Function(id) => TypeId::Enum(EnumId::new(id)),
    }
}

/// A method of the type of that id, unless it breaks a rule as a special one, which is told.
pub(crate) fn keep_special(
    alloc: Global,
    support: &BackendAttrSupport,
    owner: TypeId,
    method: Method,
    errors: &mut ErrorStore<'_>,
) -> Result<Option<Method>, NoMemory>
    ensures told { OnOk result
        (errors.new ≡ added errors.old (special_errors support.now owner method)) }
    ensures made { IfOk result (λ kept. kept
        ≡ unless_told (special_errors support.now owner method) (Some method)) }
    ensures kept { (earlier : Held) → Keeps earlier errors.old → Keeps earlier errors.new }
{
    let before = errors.len();
    validate_special(alloc, support, owner, &method, errors)?;
    Ok(kept_if(errors.len() == before, Some(method)))
}
