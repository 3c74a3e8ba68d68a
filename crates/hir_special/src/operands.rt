//! What a comparison compares.

ghost use Rattle.std.specs.Prelude.{◌≡◌};
ghost use Rattle.hir_special.specs.Operands.{is_mut_ref, is_other, is_same, is_wrong_operand};

use crate::receivers::is_mut;
use hir_attrs::SpecialKind;
use hir_definitions::{Param, ParamSelf};
use hir_ids::MaybeOwn;
use hir_types::{HirType, InputOnly, SelfType};

/// Whether a struct is behind `&mut`.
fn is_mut_ref(owner: &MaybeOwn) -> bool
    ensures { result ≡ is_mut_ref owner.now }
{
    match owner {
        MaybeOwn::Own => false,
        MaybeOwn::Borrow(borrow) => is_mut(borrow.mutability),
    }
}

/// Whether a receiver can be compared with such an operand.
fn is_same(receiver: &SelfType, ty: &HirType<InputOnly>) -> bool
    ensures { result ≡ is_same receiver.now ty.now }
{
    match (receiver, ty) {
        (SelfType::Opaque(mine), HirType::Opaque(path)) => {
            mine.tcx_id.index() == path.tcx_id.index()
                && !is_mut(mine.owner.mutability)
                && !is_mut(path.owner.mutability)
                && !path.is_optional()
        }
        (SelfType::Struct(mine), HirType::Struct(path)) => {
            mine.tcx_id.index() == path.tcx_id.index()
                && !is_mut_ref(&mine.owner)
                && !is_mut_ref(&path.owner)
        }
        (SelfType::Enum(mine), HirType::Enum(path)) => mine.tcx_id.index() == path.tcx_id.index(),
        _ => false,
    }
}

/// Whether there are a receiver and a parameter, and they can't be compared.
fn is_other(receiver: &Option<ParamSelf>, params: &[Param]) -> bool
    ensures { result ≡ is_other receiver.now params.now }
{
    match (receiver, params) {
        (Some(receiver), [param, ..]) => !is_same(&receiver.ty, &param.ty),
        _ => false,
    }
}

/// Whether it is a comparison of a value with another type's.
#[tactic(auto, unfolding(crate::specs::Operands::is_wrong_operand))]
pub(crate) fn is_wrong_operand(
    kind: SpecialKind,
    receiver: &Option<ParamSelf>,
    params: &[Param],
) -> bool
    ensures { result ≡ is_wrong_operand kind receiver.now params.now }
{
    match kind {
        SpecialKind::Comparison => is_other(receiver, params),
        _ => false,
    }
}
