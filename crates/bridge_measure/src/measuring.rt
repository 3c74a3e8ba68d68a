//! What the callables of made declarations may borrow.

ghost use Rattle.std.specs.Prelude.{◌≤◌, ℕ, IfOk};
ghost use Rattle.bridge_measure.specs.Measured.{DeliversMeasured, IsMeasured};

use crate::laws::{generated_declarations_break_no_rule, generated_functions_are_the_callables};
use bridge_generate::generated;
use bridge_lowering::{LowerFault, lower_and_borrow};
use bridge_outside::{Sink, SinkFault};
use bridge_report::BridgeReport;
use bridge_summary::print_summary;
use hir_backends::{BackendAttrSupport, BasicAttributeValidator, SupportFlag};
use hir_config::LoweringConfig;
use std::alloc::{AllocError, Global};

/// The report of as many made structs and functions, from 1 to 10,000: what their results may borrow. Only want of memory keeps one from it,
/// since the declarations break no rule.
pub fn measured(alloc: Global, count: usize) -> Result<BridgeReport, AllocError>
    requires one { 1 ≤ count }
    requires most { count ≤ 10000 }
    ensures { IfOk result (λ report. IsMeasured count report) }
{
    generated_declarations_break_no_rule();
    let env = generated(alloc, count)?;
    let mut validator = BasicAttributeValidator::new(alloc, "")?;
    validator.support = BackendAttrSupport::none().with(SupportFlag::FreeFunctions);
    match lower_and_borrow(alloc, &env, LoweringConfig::default(), &validator) {
        Ok(report) => Ok(report),
        Err(LowerFault::NoMemory) => Err(AllocError),
        Err(LowerFault::Refused(_)) => unreachable!(),
    }
}

/// Prints the summary of such a report, in three lines and nothing else: `callables`, as many as functions were made; `listed`, how many leaves are
/// listed in all; and `ok`. It takes no memory.
///
/// `Failed` where a write failed, `NoMemory` where a write wanted memory: then a first part of the lines is written.
pub fn print_measured<K: Sink>(sink: &mut K, report: &BridgeReport) -> Result<(), SinkFault>
    ensures { (count : ℕ) → count ≤ 10000 → IsMeasured count report.now
        → DeliversMeasured count (K.state sink.old) (K.state sink.new) result }
{
    generated_functions_are_the_callables();
    print_summary(sink, report.callables.as_slice())
}
