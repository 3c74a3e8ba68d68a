//! What callbacks and methods of traits give back.

ghost use Rattle.std.specs.Prelude.{◌≡◌, OnOk};
ghost use Rattle.hir_reports.specs.Store.{added};
ghost use Rattle.hir_validation.specs.CallbackReturns.{callback_errors, can_fail, has_ffi_error, tells_interface_errors};
ghost use Rattle.hir_validation.specs.WholeTypes.{whole_type};

use crate::validation::{Validation, tell_if};
use crate::whole::{WholeType, whole_type};
use bridge_decl::NoMemory;
use hir_context::TypeContext;
use hir_definitions::EnumDef;
use hir_reports::{ErrorStore, Rule};
use hir_types::{CallbackReturn, HirType, PositionTypes, ReturnType};
use std::alloc::Global;

/// Whether a variant of the enum tells an error of the interface itself.
fn has_ffi_error(def: &EnumDef) -> bool
    ensures { result ≡ has_ffi_error def.now }
{
    for variant in def.variants.as_slice() {
        if variant.attrs.ffi_error {
            return true;
        }
    }
    false
}

/// Whether the type is an enum that has one.
fn tells_interface_errors<P: PositionTypes>(tcx: &TypeContext, ty: &HirType<P>) -> bool
    ensures { result ≡ tells_interface_errors tcx.now.definitions
        (whole_type P.OpaqueOwnership.borrow_of P.StructPath.id_of
        P.StructPath.lifetimes_of P.StructPath.held_of P.callback_of ty.now) }
{
    match &whole_type(ty) {
        WholeType::Enum(id) => match tcx.enums().get(id.index()) {
            Some(def) => has_ffi_error(def),
            None => false,
        },
        _ => false,
    }
}

/// Whether an error of such a type may be given back.
fn can_fail(tcx: &TypeContext, output: &ReturnType<CallbackReturn>) -> bool
    ensures { result ≡ can_fail tcx.now.definitions output.now }
{
    match output.error_type() {
        Some(error) => tells_interface_errors(tcx, error),
        None => false,
    }
}

impl Validation<'_> {
    /// Tells that a callback can't fail, where it has to (rule `CallbackReturn`).
    pub(crate) fn tell_callback(
        &self,
        alloc: Global,
        output: &ReturnType<CallbackReturn>,
        errors: &mut ErrorStore<'_>,
    ) -> Result<(), NoMemory>
        ensures { OnOk result (errors.new ≡ added errors.old (callback_errors
            self.now.callbacks_must_fail self.now.tcx.now.definitions output.now)) }
    {
        let is_broken = self.callbacks_must_fail && !can_fail(self.tcx, output);
        tell_if(alloc, is_broken, Rule::CallbackReturn, errors)
    }
}
