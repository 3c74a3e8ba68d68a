//! Which structs a struct contains.

ghost use Rattle.std.specs.Prelude.{◌≡◌, ◌++◌, IfOk, OnOk};
ghost use Rattle.hir_mentions.specs.Containing.{contained_in, contained_in_type};

use bridge_decl::NoMemory;
use hir_definitions::StructField;
use hir_ids::TypeId;
use hir_types::{HirType, StructPathLike, TyPosition};
use std::alloc::Global;

/// Adds the struct that the type is, or that is inside its options.
fn add_contained<P: TyPosition>(ids: &mut Vec<TypeId>, ty: &HirType<P>) -> Result<(), NoMemory>
    ensures { OnOk result (ids.new.items
        ≡ ids.old.items ++ contained_in_type P.StructPath.id_of ty.now) }
{
    match ty {
        HirType::Struct(path) => {
            ids.push(path.id())?;
            Ok(())
        }
        HirType::DiplomatOption(inner) => add_contained(ids, inner.get()),
        _ => Ok(()),
    }
}

/// The structs that fields contain, in order: by value, in options or by reference. The elements
/// of slices are no such structs.
pub fn contained_structs<P: TyPosition>(
    alloc: Global,
    fields: &[StructField<P>],
) -> Result<Vec<TypeId>, NoMemory>
    ensures { IfOk result (λ ids. ids.items ≡ contained_in P.StructPath.id_of fields.now) }
{
    let mut ids = Vec::new(alloc);
    for field in fields {
        add_contained(&mut ids, &field.ty)?;
    }
    Ok(ids)
}
