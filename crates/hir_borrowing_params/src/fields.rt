//! What is told of fields.

ghost use Rattle.std.specs.Prelude.{IfOk};
ghost use Rattle.hir_defs.specs.Linking.{IsLinkable};
ghost use Rattle.hir_borrowing_params.specs.Answering.{TellsField};

use crate::infos::StructBorrowInfo;
use crate::own::own_sets;
use bridge_decl::NoMemory;
use hir_context::TypeContext;
use hir_definitions::StructDef;
use hir_defs::PositionDefs;
use hir_types::StructPathLike;
use std::alloc::Global;

impl<'tcx> StructBorrowInfo<'tcx> {
    /// What is told of a field that is a struct: for each of its lifetimes the one of the struct
    /// around it that stands there. None exactly where none does.
    ///
    /// Bounds are left to the methods: these know which lifetimes outlive those that they return,
    /// and follow each to the fields.
    pub fn compute_for_struct_field<P: PositionDefs>(
        alloc: Global,
        struc: &StructDef<P>,
        field: &P::StructPath,
        tcx: &'tcx TypeContext,
    ) -> Result<Option<Self>, NoMemory>
        requires { IsLinkable tcx.now.definitions (P.StructPath.id_of field.now)
            (P.StructPath.lifetimes_of field.now) }
        ensures { IfOk result (TellsField tcx.now.definitions struc.now.lifetimes.count
            (P.StructPath.id_of field.now) (P.StructPath.lifetimes_of field.now)) }
    {
        let sets = own_sets(alloc, &struc.lifetimes, field.lifetimes().as_slice())?;
        if sets.is_empty() {
            return Ok(None);
        }
        let link = P::link_lifetimes(field, tcx);
        Ok(Some(StructBorrowInfo {
            env: link.def_env(),
            borrowed_struct_lifetime_map: sets,
        }))
    }
}
