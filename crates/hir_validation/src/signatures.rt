//! What methods, functions and methods of traits take and return.

ghost use Rattle.std.specs.Prelude.{◌≡◌, ◌++◌, OnOk, option_copied, option_to_list, slice_get};
ghost use Rattle.std.specs.List.{flat_map};
ghost use Rattle.hir_reports.specs.Store.{added};
ghost use Rattle.hir_validation.specs.CallbackReturns.{callback_errors};
ghost use Rattle.hir_validation.specs.Signatures.{called_errors, param_errors, receiver_errors, self_struct_errors, self_type_errors, signature_errors, lowered_trait_method_errors, lowered_trait_param_errors, types_returned};
ghost use Rattle.hir_validation.specs.Visited.{visited_errors};
ghost use Rattle.hir_validation.specs.WholeTypes.{whole_type};

use crate::validation::Validation;
use crate::visited::tell_struct_held;
use bridge_decl::NoMemory;
use hir_context::TypeContext;
use hir_definitions::{Method, Param, ParamSelf, StructDef};
use hir_reports::ErrorStore;
use hir_types::{
    Callback, CallbackParam, CallbackReturn, Everywhere, HirType, PositionTypes, ReturnType,
    SelfType, StructPath, TyPosition,
};
use std::alloc::Global;

/// The struct that a path names, where there is one.
fn struct_of<'tcx>(tcx: &'tcx TypeContext, path: &StructPath) -> Option<&'tcx StructDef<Everywhere>>
    ensures { option_copied result
        ≡ slice_get tcx.now.definitions.structs.defs path.now.tcx_id }
{
    tcx.structs().get(path.tcx_id.index())
}

impl Validation<'_> {
    /// Tells of a receiver that is a struct.
    fn tell_self_struct(
        &self,
        alloc: Global,
        path: &StructPath,
        errors: &mut ErrorStore<'_>,
    ) -> Result<(), NoMemory>
        ensures { OnOk result (errors.new ≡ added errors.old
            (self_struct_errors self.now.tcx.now.definitions path.now)) }
    {
        match struct_of(self.tcx, path) {
            Some(def) => tell_struct_held(alloc, &path.owner, def, errors),
            None => Ok(()),
        }
    }

    /// Tells of a receiver of this type, where it is a struct.
    fn tell_self_type(
        &self,
        alloc: Global,
        ty: &SelfType,
        errors: &mut ErrorStore<'_>,
    ) -> Result<(), NoMemory>
        ensures { OnOk result (errors.new ≡ added errors.old
            (self_type_errors self.now.tcx.now.definitions ty.now)) }
    {
        match ty {
            SelfType::Struct(path) => self.tell_self_struct(alloc, path, errors),
            SelfType::Opaque(_) | SelfType::Enum(_) => Ok(()),
        }
    }

    /// Tells of a receiver, where there is one.
    #[tactic(auto, unfolding(crate::specs::Signatures::receiver_errors))]
    pub(crate) fn tell_receiver(
        &self,
        alloc: Global,
        receiver: &Option<ParamSelf>,
        errors: &mut ErrorStore<'_>,
    ) -> Result<(), NoMemory>
        ensures { OnOk result (errors.new ≡ added errors.old
            (receiver_errors self.now.tcx.now.definitions receiver.now)) }
    {
        match receiver {
            Some(receiver) => self.tell_self_type(alloc, &receiver.ty, errors),
            None => Ok(()),
        }
    }

    /// Tells of each parameter.
    fn tell_params(
        &self,
        alloc: Global,
        params: &[Param],
        errors: &mut ErrorStore<'_>,
    ) -> Result<(), NoMemory>
        ensures { OnOk result (errors.new ≡ added errors.old (flat_map (param_errors
            self.now.callbacks_must_fail self.now.tcx.now.definitions) params.now)) }
    {
        for param in params {
            self.tell_visited(alloc, &param.ty, errors)?;
        }
        Ok(())
    }

    /// Tells of each parameter of a method of a trait.
    fn tell_trait_params(
        &self,
        alloc: Global,
        params: &[CallbackParam],
        errors: &mut ErrorStore<'_>,
    ) -> Result<(), NoMemory>
        ensures { OnOk result (errors.new ≡ added errors.old (flat_map (lowered_trait_param_errors
            self.now.callbacks_must_fail self.now.tcx.now.definitions) params.now)) }
    {
        for param in params {
            self.tell_visited(alloc, &param.ty, errors)?;
        }
        Ok(())
    }

    /// Tells of a type, where there is one.
    fn tell_any<P: PositionTypes>(
        &self,
        alloc: Global,
        ty: Option<&HirType<P>>,
        errors: &mut ErrorStore<'_>,
    ) -> Result<(), NoMemory>
        ensures { OnOk result (errors.new ≡ added errors.old (flat_map (λ t. visited_errors
            self.now.callbacks_must_fail self.now.tcx.now.definitions
            (whole_type P.OpaqueOwnership.borrow_of P.StructPath.id_of P.StructPath.lifetimes_of
            P.StructPath.held_of P.callback_of t)) (option_to_list (option_copied ty.entry)))) }
    {
        match ty {
            Some(ty) => self.tell_visited(alloc, ty, errors),
            None => Ok(()),
        }
    }

    /// Tells of the types that are returned.
    #[tactic(auto, using(hir_reports::proofs::StoreLaws::added_more))]
    fn tell_output<P: PositionTypes>(
        &self,
        alloc: Global,
        output: &ReturnType<P>,
        errors: &mut ErrorStore<'_>,
    ) -> Result<(), NoMemory>
        ensures { OnOk result (errors.new ≡ added errors.old (flat_map (λ t. visited_errors
            self.now.callbacks_must_fail self.now.tcx.now.definitions
            (whole_type P.OpaqueOwnership.borrow_of P.StructPath.id_of P.StructPath.lifetimes_of
            P.StructPath.held_of P.callback_of t)) (types_returned output.now))) }
    {
        self.tell_any(alloc, output.success_type().as_type(), errors)?;
        self.tell_any(alloc, output.error_type(), errors)
    }

    /// Tells of the types that a method of a type or a function takes and returns what visited types break. `NoMemory` where there
    /// is none for the reports.
    #[tactic(auto, using(hir_reports::proofs::StoreLaws::added_more), unfolding(crate::specs::Signatures::signature_errors))]
    pub fn validate_signature(
        &self,
        alloc: Global,
        method: &Method,
        errors: &mut ErrorStore<'_>,
    ) -> Result<(), NoMemory>
        ensures { OnOk result (errors.new ≡ added errors.old (signature_errors
            self.now.callbacks_must_fail self.now.tcx.now.definitions method.now)) }
    {
        self.tell_params(alloc, method.params.as_slice(), errors)?;
        self.tell_output(alloc, &method.output, errors)
    }

    /// Tells of the types that a method of a trait returns, and that it can't fail, where it has to.
    #[tactic(auto, using(hir_reports::proofs::StoreLaws::added_more))]
    fn tell_called(
        &self,
        alloc: Global,
        output: &ReturnType<CallbackReturn>,
        errors: &mut ErrorStore<'_>,
    ) -> Result<(), NoMemory>
        ensures { OnOk result (errors.new ≡ added errors.old (flat_map (called_errors
            self.now.callbacks_must_fail self.now.tcx.now.definitions)
            (types_returned output.now) ++ callback_errors self.now.callbacks_must_fail
            self.now.tcx.now.definitions output.now)) }
    {
        self.tell_output(alloc, output, errors)?;
        self.tell_callback(alloc, output, errors)
    }

    /// The same of a method of a trait, and that it can't fail, where it has to (rule `CallbackReturn`).
    #[tactic(auto, using(hir_reports::proofs::StoreLaws::added_more), unfolding(crate::specs::Signatures::lowered_trait_method_errors))]
    pub fn validate_trait_method(
        &self,
        alloc: Global,
        method: &Callback,
        errors: &mut ErrorStore<'_>,
    ) -> Result<(), NoMemory>
        ensures { OnOk result (errors.new ≡ added errors.old (lowered_trait_method_errors
            self.now.callbacks_must_fail self.now.tcx.now.definitions method.now)) }
    {
        self.tell_trait_params(alloc, method.params.as_slice(), errors)?;
        self.tell_called(alloc, &method.output, errors)
    }
}
