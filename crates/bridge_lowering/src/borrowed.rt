//! Declarations lowered, with what the results of their callables may borrow.

ghost use Rattle.std.specs.Prelude.{◌≡◌, [], Bool};
ghost use Rattle.bridge_lowering.specs.Answers.{AnswersReport};
ghost use Rattle.bridge_lowering.specs.inside.Borrowing.{BorrowsIn};
ghost use Rattle.bridge_validation.specs.Told.{context_reports};

use bridge_ast::Env;
use bridge_borrow::borrowings;
use bridge_callables::callables_are_read_as_declared;
use bridge_catalogs::modules_have_one_catalog;
use bridge_report::BridgeReport;
use bridge_validation::{context_reports, lowered_contexts_are_told_by_their_rules};
use hir_backends::AttributeValidator;
use hir_config::LoweringConfig;
use hir_context::TypeContext;
use hir_lower::{FromEnv, LowerFault};
use std::alloc::Global;

/// What the results of the callables of a context may borrow, where nothing in it breaks a rule.
fn report_of(alloc: Global, tcx: TypeContext) -> Result<BridgeReport, LowerFault>
    ensures { (must_fail : Bool) → context_reports must_fail tcx.definitions ≡ []
        → BorrowsIn must_fail tcx.definitions result }
{
    match borrowings(alloc, &tcx) {
        Ok(callables) => Ok(BridgeReport { tcx, callables }),
        Err(_) => Err(LowerFault::NoMemory),
    }
}

/// The same, where nothing breaks a rule, for a backend whose callbacks must be able to fail, or may not; else what does is told.
fn borrow_in(
    alloc: Global,
    tcx: TypeContext,
    callbacks_must_fail: bool,
) -> Result<BridgeReport, LowerFault>
    ensures { BorrowsIn callbacks_must_fail tcx.definitions result }
{
    match context_reports(alloc, &tcx, callbacks_must_fail) {
        Ok(told) => {
            if told.is_empty() {
                report_of(alloc, tcx)
            } else {
                Err(LowerFault::Refused(told))
            }
        }
        Err(_) => Err(LowerFault::NoMemory),
    }
}

/// The same for a backend, which says whether its callbacks must be able to fail.
fn borrow_for<V: AttributeValidator>(
    alloc: Global,
    tcx: TypeContext,
    validator: &V,
) -> Result<BridgeReport, LowerFault>
    ensures { BorrowsIn (V.meaning validator.now).supports.callback_returns_must_be_fallible
        tcx.definitions result }
{
    let must_fail = validator
        .attrs_supported()
        .callback_returns_must_be_fallible;
    borrow_in(alloc, tcx, must_fail)
}

/// The context of all declarations of an environment, with what the results of their callables may borrow: the methods of its types in
/// order, and then its functions. Where rules are broken they are told in place of it, one at least at each place at which one is.
/// `NoMemory` where there is no memory.
pub fn lower_and_borrow<V: AttributeValidator>(
    alloc: Global,
    env: &Env,
    config: LoweringConfig,
    validator: &V,
) -> Result<BridgeReport, LowerFault>
    ensures { AnswersReport env.now (V.meaning validator.now) config result }
{
    callables_are_read_as_declared();
    modules_have_one_catalog();
    lowered_contexts_are_told_by_their_rules();
    match TypeContext::from_env(alloc, env, config, validator) {
        Ok(tcx) => borrow_for(alloc, tcx, validator),
        Err(fault) => Err(fault),
    }
}
