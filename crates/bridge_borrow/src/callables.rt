//! The reports of callables.

ghost use Rattle.std.specs.Prelude.{◌≡◌, ℕ, IfOk, IsSome, Some};
ghost use Rattle.std.specs.List.{AllZip, Contains};
ghost use Rattle.bridge_borrow.specs.inside.Returned.{IsListedUnder, KeepsLonger};
ghost use Rattle.bridge_report.specs.Borrowings.{AreReported, IsReported};
ghost use Rattle.bridge_report.specs.Callables.{Callable};
ghost use Rattle.bridge_report.specs.InContext.{callable_at, callables, method_at};
ghost use Rattle.hir_context.specs.Fitness.{MethodFits};

use crate::edges::held_edges;
use crate::leaves::listed_leaves;
use bridge_decl::{Items, NoMemory};
use bridge_report::{CallableId, CallableReport, ReturnedLifetime, callable_ids, method_of};
use hir_borrow::{
    BorrowingFieldVisitor, BorrowingParamVisitor, MethodVisitors, methods_of_contexts_fit,
};
use hir_context::TypeContext;
use hir_definitions::Method;
use hir_life::Lifetime;
use std::alloc::Global;
use std::collections::BTreeSet;

/// What may be borrowed under a lifetime, by the leaves of the method and what outlives the lifetime.
fn returned_lifetime(
    alloc: Global,
    method: &Method,
    fields: &BorrowingFieldVisitor<'_>,
    params: &BorrowingParamVisitor<'_>,
    lifetime: Lifetime,
) -> Result<ReturnedLifetime, NoMemory>
    requires { KeepsLonger method.now.lifetime_env params.now lifetime }
    ensures { IfOk result (λ returned. IsListedUnder method.now fields.now returned lifetime) }
{
    let Some(longer) = params.all_longer_lifetimes(lifetime) else {
        unreachable!();
    };
    Ok(ReturnedLifetime {
        lifetime,
        leaves: listed_leaves(alloc, fields, method.param_self.is_some(), longer)?,
        edges: held_edges(alloc, method, longer)?,
    })
}

/// The same of all lifetimes that the return names, in order.
fn returned_lifetimes(
    alloc: Global,
    method: &Method,
    fields: &BorrowingFieldVisitor<'_>,
    params: &BorrowingParamVisitor<'_>,
    lifetimes: &BTreeSet<Lifetime>,
) -> Result<Items<ReturnedLifetime>, NoMemory>
    requires { (t : ℕ) → Contains lifetimes.now.keys t
        → KeepsLonger method.now.lifetime_env params.now t }
    ensures { IfOk result (λ returned. AllZip (IsListedUnder method.now fields.now) returned
        lifetimes.now.keys) }
{
    let mut returned = Items::new(alloc);
    for lifetime in lifetimes.iter() {
        returned.push(returned_lifetime(alloc, method, fields, params, *lifetime)?)?;
    }
    Ok(returned)
}

/// The method of a callable, which fits the context: the visitors of `hir_borrow` follow what it names.
pub fn fitting_method<'tcx>(tcx: &'tcx TypeContext, id: &CallableId) -> &'tcx Method
    requires { IsSome (callable_at tcx.now.definitions id.now) }
    ensures there { method_at tcx.now.definitions id.now ≡ Some result.now }
    ensures fits { MethodFits tcx.now.definitions result.now }
{
    methods_of_contexts_fit();
    method_of(tcx, *id)
}

/// What the result of a callable may borrow. Of leaves only the numbers along their paths are told, so
/// any name serves for the receiver.
fn report_of(alloc: Global, tcx: &TypeContext, id: &CallableId) -> Result<CallableReport, NoMemory>
    requires { IsSome (callable_at tcx.now.definitions id.now) }
    ensures { IfOk result (λ report. (c : Callable)
        → callable_at tcx.now.definitions id.now ≡ Some c → IsReported c report) }
{
    let method = fitting_method(tcx, id);
    let fields = method.borrowing_field_visitor(alloc, tcx, &method.abi_name)?;
    let params = method.borrowing_param_visitor(alloc, tcx, false)?;
    let lifetimes = method.output.used_method_lifetimes(alloc)?;
    Ok(CallableReport {
        callable: *id,
        returned: returned_lifetimes(alloc, method, &fields, &params, &lifetimes)?,
    })
}

/// What the results of all callables of a context may borrow, in the order of the callables: the
/// methods of its types in order, and then its functions. `NoMemory` where there is no memory for it.
pub fn borrowings(alloc: Global, tcx: &TypeContext) -> Result<Items<CallableReport>, NoMemory>
    ensures { IfOk result (AreReported (callables tcx.now.definitions)) }
{
    let ids = callable_ids(alloc, tcx)?;
    let mut reports = Items::new(alloc);
    for id in ids.as_slice() {
        reports.push(report_of(alloc, tcx, id)?)?;
    }
    Ok(reports)
}
