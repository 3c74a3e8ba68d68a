//! How the parts of definitions use definitions.

ghost use Rattle.std.specs.Prelude.{◌≡◌, IfOk};
ghost use Rattle.hir_usage.specs.Definitions.{fields_usages, trait_usages};
ghost use Rattle.hir_usage.specs.Seen.{meant};
ghost use Rattle.hir_usage.specs.Types.{type_usages};

use crate::callbacks::add_callback;
use crate::positions::PositionUses;
use crate::types::add_type;
use crate::uses::Use;
use bridge_decl::NoMemory;
use hir_definitions::{StructField, TraitDef};
use std::alloc::Global;

/// How the fields of a struct use definitions, in order.
pub fn field_usages<P: PositionUses>(
    alloc: Global,
    fields: &[StructField<P>],
) -> Result<Vec<Use<'_>>, NoMemory>
    ensures { IfOk result (λ uses. meant uses ≡ fields_usages
        (type_usages P.IN_OUT_STATUS P.OpaqueOwnership.borrow_of P.StructPath.id_of P.of_callback)
        fields.now) }
{
    let mut uses = Vec::new(alloc);
    for field in fields {
        add_type(&mut uses, &field.ty, false)?;
    }
    Ok(uses)
}

/// How the methods of a trait use definitions, in order.
pub fn trait_usages(alloc: Global, def: &TraitDef) -> Result<Vec<Use<'_>>, NoMemory>
    ensures { IfOk result (λ uses. meant uses ≡ trait_usages def.now) }
{
    let mut uses = Vec::new(alloc);
    for method in def.methods.as_slice() {
        add_callback(&mut uses, method)?;
    }
    Ok(uses)
}
