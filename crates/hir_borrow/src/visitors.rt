//! The visitors of a method.

ghost use Rattle.std.specs.Prelude.{◌≡◌, ◌↔◌, ℕ, Some, IfOk, IsSome};
ghost use Rattle.hir_context.specs.Fitness.{MethodFits};
ghost use Rattle.hir_borrowing_params.specs.Edges.{HeldFor};
ghost use Rattle.hir_borrowing_params.specs.Keys.{IsStart};
ghost use Rattle.hir_borrowing_params.specs.Slices.{IsKept};
ghost use Rattle.hir_borrowing_params.specs.Visitors.{kept_under, visited_definitions};
ghost use Rattle.hir_skeleton.specs.NamedLeaves.{borrowing_leaves};

use bridge_decl::{IdentBuf, NoMemory};
use hir_borrowing_fields::BorrowingFieldVisitor;
use hir_borrowing_params::BorrowingParamVisitor;
use hir_context::TypeContext;
use hir_definitions::Method;
use std::alloc::Global;

/// What has inputs that may be visited.
pub trait MethodVisitors {
    ghost use Rattle.hir_definitions.specs.declared.methods.Method.{Method};

    /// The method whose inputs these are.
    ghost as_method: { Self → Method };

    /// A visitor of the inputs one level deep, which has visited none. It keeps the lifetimes that
    /// the return names, and where slices are included those that name a slice among the inputs,
    /// at any depth.
    fn borrowing_param_visitor<'tcx>(
        &'tcx self,
        alloc: Global,
        tcx: &'tcx TypeContext,
        force_include_slices: bool,
    ) -> Result<BorrowingParamVisitor<'tcx>, NoMemory>
        requires fits { MethodFits tcx.now.definitions (as_method self.now) }
        ensures keys { IfOk result (λ visitor. (t : ℕ) → (IsSome (kept_under visitor t)
            ↔ IsKept tcx.now.definitions (as_method self.now) force_include_slices t)) }
        ensures starts { IfOk result (λ visitor. (t : ℕ) (h : HeldFor) → kept_under visitor t
            ≡ Some h → IsStart (as_method self.now).lifetime_env t h) }
        ensures context { IfOk result (λ visitor.
            visited_definitions visitor ≡ tcx.now.definitions) };

    /// A visitor of all leaves of the inputs, where the receiver has the name `self_name`.
    fn borrowing_field_visitor<'m>(
        &'m self,
        alloc: Global,
        tcx: &'m TypeContext,
        self_name: &'m IdentBuf,
    ) -> Result<BorrowingFieldVisitor<'m>, NoMemory>
        requires fits { MethodFits tcx.now.definitions (as_method self.now) }
        ensures { IfOk result (λ visitor. visitor
            ≡ borrowing_leaves tcx.now.definitions self_name.now (as_method self.now)) };
}

impl MethodVisitors for Method {
    ghost as_method = { λ m. m };

    fn borrowing_param_visitor<'tcx>(
        &'tcx self,
        alloc: Global,
        tcx: &'tcx TypeContext,
        force_include_slices: bool,
    ) -> Result<BorrowingParamVisitor<'tcx>, NoMemory> {
        BorrowingParamVisitor::new(alloc, self, tcx, force_include_slices)
    }

    fn borrowing_field_visitor<'m>(
        &'m self,
        alloc: Global,
        tcx: &'m TypeContext,
        self_name: &'m IdentBuf,
    ) -> Result<BorrowingFieldVisitor<'m>, NoMemory> {
        BorrowingFieldVisitor::new(alloc, self, tcx, self_name)
    }
}
