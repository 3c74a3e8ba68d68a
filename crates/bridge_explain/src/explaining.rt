//! Explanations, asked for by names.

ghost use Rattle.std.specs.Prelude.{◌≡◌, ◌==◌, IfOk};
ghost use Rattle.std.specs.List.{list_any};
ghost use Rattle.bridge_explain.specs.Explained.{AnswersQuestion};
ghost use Rattle.bridge_explain.specs.inside.Found.{AnswersInside, IsReportOf, IsReportOfSome};
ghost use Rattle.bridge_report.specs.Borrowings.{AreReported};
ghost use Rattle.bridge_report.specs.Callables.{Callable};
ghost use Rattle.bridge_report.specs.InContext.{callables, receiver_name};

use crate::callables::find_callable;
use crate::leaves::find_leaf;
use crate::question::Question;
use bridge_borrow::fitting_method;
use bridge_decl::{IdentBuf, IdentFault, NoMemory};
use bridge_report::{BridgeReport, CallableReport};
use hir_borrow::MethodVisitors;
use hir_context::TypeContext;
use hir_explain::{Explanation, explain_leaf};
use hir_life::Lifetime;
use std::alloc::{AllocError, Global};

/// Whether the return of the reported callable names the lifetime of this number.
fn is_returned(report: &CallableReport, number: usize) -> bool
    ensures { result ≡ list_any (λ returned. number == returned.lifetime) report.now.returned }
{
    for returned in report.returned.as_slice() {
        if number == returned.lifetime.index() {
            return true;
        }
    }
    false
}

/// What a page calls a receiver.
fn receiver_name(alloc: Global) -> Result<IdentBuf, NoMemory>
    ensures { IfOk result (λ name. name ≡ receiver_name) }
{
    match IdentBuf::new(alloc, "this") {
        Ok(name) => Ok(name),
        Err(IdentFault::NoMemory) => Err(AllocError),
        Err(IdentFault::Bad) => unreachable!(),
    }
}

/// The explanation of a leaf of the reported callable.
fn explain_inside(
    alloc: Global,
    tcx: &TypeContext,
    report: &CallableReport,
    leaf: &str,
    lifetime: usize,
) -> Result<Option<Explanation>, NoMemory>
    requires { IsReportOfSome tcx.now.definitions report.now }
    ensures { IfOk result (λ answer. (c : Callable) → IsReportOf tcx.now.definitions c report.now
        → AnswersInside c leaf.now lifetime answer) }
{
    if !is_returned(report, lifetime) {
        return Ok(None);
    }
    let method = fitting_method(tcx, &report.callable);
    let this = receiver_name(alloc)?;
    let leaves = method.borrowing_field_visitor(alloc, tcx, &this)?;
    let Some(carried) = find_leaf(&leaves, leaf)? else {
        return Ok(None);
    };
    let explanation = explain_leaf(
        alloc,
        &method.lifetime_env,
        carried,
        Lifetime::new(lifetime),
    )?;
    Ok(Some(explanation))
}

/// Why the leaf that is asked about is listed under the lifetime, or why it isn't. None where no
/// callable is printed so, where no leaf of the first that is has that name, or where its return doesn't name the lifetime. `NoMemory` where
/// memory runs out.
///
/// The reports are those of the callables of the context. Steps are as many as callables, the leaves of one of them and their names, and then
/// those of `explain_leaf`.
pub fn explain(
    alloc: Global,
    report: &BridgeReport,
    question: &Question<'_>,
) -> Result<Option<Explanation>, NoMemory>
    requires { AreReported (callables report.now.tcx.definitions) report.now.callables }
    ensures { IfOk result (AnswersQuestion (callables report.now.tcx.definitions) question.now) }
{
    match find_callable(&report.tcx, report.callables.as_slice(), question.callable) {
        Some(found) => explain_inside(alloc, &report.tcx, found, question.leaf, question.lifetime),
        None => Ok(None),
    }
}
