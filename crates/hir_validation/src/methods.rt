//! Methods of types.

ghost use Rattle.std.specs.Prelude.{◌≡◌, ◌++◌, OnOk};
ghost use Rattle.hir_reports.specs.Store.{added};
ghost use Rattle.hir_validation.specs.ImpliedBounds.{method_bound_errors};
ghost use Rattle.hir_validation.specs.Returned.{method_returned_errors};
ghost use Rattle.hir_validation.specs.Told.{method_rule_errors};

use crate::bounds::tell_bounds;
use crate::returned::tell_returned;
use crate::validation::Validation;
use bridge_decl::NoMemory;
use hir_context::TypeContext;
use hir_definitions::Method;
use hir_reports::ErrorStore;
use std::alloc::Global;

/// Tells of the lifetimes of a method of a type.
#[tactic(auto, using(hir_reports::proofs::StoreLaws::added_more))]
fn tell_lifetimes(
    alloc: Global,
    tcx: &TypeContext,
    method: &Method,
    errors: &mut ErrorStore<'_>,
) -> Result<(), NoMemory>
    ensures { OnOk result (errors.new ≡ added errors.old (method_bound_errors
        tcx.now.definitions method.now ++ method_returned_errors method.now)) }
{
    tell_bounds(alloc, tcx, method, errors)?;
    tell_returned(alloc, method, errors)
}

impl Validation<'_> {
    /// Tells of a method of a type what functions may do: of its receiver that it is a struct which may be written and isn't marked so
    /// (rule `MutStructRef`), or a tuple (`TupleReference`); that it doesn't declare a bound which its types imply (`ImpliedBound`); and
    /// that it returns the lifetime of a reference to a struct (`StructRefReturned`) or one of a slice of opaques (`OpaqueSliceBorrowed`).
    /// `NoMemory` where there is none for the reports.
    #[tactic(auto, using(hir_reports::proofs::StoreLaws::added_more), unfolding(crate::specs::Told::method_rule_errors))]
    pub fn validate_method(
        &self,
        alloc: Global,
        method: &Method,
        errors: &mut ErrorStore<'_>,
    ) -> Result<(), NoMemory>
        ensures { OnOk result (errors.new ≡ added errors.old
            (method_rule_errors self.now.tcx.now.definitions method.now)) }
    {
        self.tell_receiver(alloc, &method.param_self, errors)?;
        tell_lifetimes(alloc, self.tcx, method, errors)
    }
}
