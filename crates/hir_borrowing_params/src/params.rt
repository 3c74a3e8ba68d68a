//! Visits of inputs by their types.

ghost use Rattle.std.specs.Prelude.{◌≡◌, ℕ, option_copied, option_map, IfOk, OnOk, OnErr};
ghost use Rattle.hir_ids.specs.declared.ids.TypeId.TheVariants as type;
ghost use Rattle.hir_types.specs.Types.{is_option};
ghost use Rattle.hir_context.specs.Lookups.{environment_at};
ghost use Rattle.hir_skeleton.specs.Lowered.{skeleton_of};
ghost use Rattle.hir_borrowing_params.specs.Answering.{TellsParam};
ghost use Rattle.hir_borrowing_params.specs.Edges.{holding, input_edges};
ghost use Rattle.hir_skeleton.specs.Inputs.{is_slice_type};
ghost use Rattle.hir_parts.specs.Parts.{input_skeleton, part_is_slice};

use crate::infos::ParamBorrowInfo;
use crate::visitor::BorrowingParamVisitor;
use bridge_decl::NoMemory;
use hir_context::TypeContext;
use hir_defs::PositionDefs;
use hir_ids::TypeId;
use hir_life::LifetimeEnv;
use hir_parts::{InputPart, input_part};
use hir_types::{HirType, StructPath};

/// The lifetimes of the definition of this id, lent. None exactly where there is no such
/// definition, or it has no lifetimes.
fn environment_of(tcx: &TypeContext, id: TypeId) -> Option<&LifetimeEnv>
    ensures { option_copied result ≡ environment_at tcx.now.definitions id }
{
    match id {
        TypeId::OutStruct(id) => Some(&tcx.out_structs().get(id.index())?.lifetimes),
        TypeId::Struct(id) => Some(&tcx.structs().get(id.index())?.lifetimes),
        TypeId::Opaque(id) => Some(&tcx.opaques().get(id.index())?.lifetimes),
        TypeId::Enum(_) => None,
    }
}

impl<'tcx> BorrowingParamVisitor<'tcx> {
    ghost use Rattle.hir_borrowing_params.specs.Visitors.{kept_under, visited_definitions};

    /// Visits what an input goes on with.
    fn visit_part(
        &mut self,
        part: &InputPart<'_>,
        optional: bool,
        param_name: &'tcx str,
    ) -> Result<ParamBorrowInfo<'tcx>, NoMemory>
        ensures told { IfOk result (TellsParam (visited_definitions self.old)
            (kept_under self.old) (part_is_slice part.now) (input_skeleton part.now)
            (input_edges (visited_definitions self.old) (part_is_slice part.now) optional
            (input_skeleton part.now))) }
        ensures ok { OnOk result ((t : ℕ) → kept_under self.new t ≡ option_map
            (holding param_name.now (input_edges (visited_definitions self.old)
            (part_is_slice part.now) optional (input_skeleton part.now)))
            (kept_under self.old t)) }
        ensures err { OnErr result
            ((t : ℕ) → kept_under self.new t ≡ kept_under self.old t) }
        ensures context { visited_definitions self.new ≡ visited_definitions self.old }
    {
        match part {
            InputPart::Carrier(is_slice, own, element, given) => {
                self.visit_carrier(param_name, *is_slice, *own, *element, given)
            }
            InputPart::Struct(id, args) => match environment_of(self.tcx, TypeId::Struct(*id)) {
                Some(env) => self.visit_struct(param_name, env, args, optional),
                None => Ok(ParamBorrowInfo::NotBorrowed),
            },
        }
    }

    /// Visits an input of this type and name: adds, for each lifetime that is kept, what holds it,
    /// and answers what is told of it. Without memory for all of it there is what was before.
    pub fn visit_param<P: PositionDefs<StructPath = StructPath>>(
        &mut self,
        ty: &HirType<P>,
        param_name: &'tcx str,
    ) -> Result<ParamBorrowInfo<'tcx>, NoMemory>
        ensures told { IfOk result (TellsParam (visited_definitions self.old)
            (kept_under self.old) (is_slice_type ty.now) (skeleton_of P.OpaqueOwnership.borrow_of
            (λ path. type.Struct path.tcx_id)
            (λ path. path.lifetimes) (λ path. path.owner) ty.now)
            (input_edges (visited_definitions self.old) (is_slice_type ty.now) (is_option ty.now)
            (skeleton_of P.OpaqueOwnership.borrow_of (λ path. type.Struct path.tcx_id)
            (λ path. path.lifetimes) (λ path. path.owner) ty.now))) }
        ensures ok { OnOk result ((t : ℕ) → kept_under self.new t ≡ option_map
            (holding param_name.now (input_edges (visited_definitions self.old)
            (is_slice_type ty.now) (is_option ty.now) (skeleton_of P.OpaqueOwnership.borrow_of
            (λ path. type.Struct path.tcx_id)
            (λ path. path.lifetimes) (λ path. path.owner) ty.now)))
            (kept_under self.old t)) }
        ensures err { OnErr result
            ((t : ℕ) → kept_under self.new t ≡ kept_under self.old t) }
        ensures context { visited_definitions self.new ≡ visited_definitions self.old }
    {
        let part = input_part(ty);
        self.visit_part(&part, ty.is_option(), param_name)
    }
}
