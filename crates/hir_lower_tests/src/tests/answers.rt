//! What is answered, as texts.

use crate::tests::backends::input;
use bridge_decl::NoMemory;
use bridge_read::{Input, read_input};
use hir_lower::{FromEnv, LowerFault, TypeContext};
use hir_reports::LoweringReport;
use std::alloc::{AllocError, Global};
use std::test::Fail;

/// The context of an input's declarations, or what is told of them.
pub type Lowered = Result<TypeContext, Vec<LoweringReport>>;

/// That of an input.
fn lowered_input(alloc: Global, input: &Input) -> Result<Lowered, Fail> {
    match TypeContext::from_env(alloc, &input.env, input.config, &input.validator) {
        Ok(tcx) => Ok(Ok(tcx)),
        Err(LowerFault::Refused(reports)) => Ok(Err(reports)),
        Err(LowerFault::NoMemory) => Err(Fail::from(AllocError)),
    }
}

/// That of the input which a text spells.
fn lowered_text(alloc: Global, text: &str) -> Result<Lowered, Fail> {
    let input = read_input(alloc, text.as_bytes()).ok().ok_or("an input")?;
    lowered_input(alloc, &input)
}

/// That of the declarations of a row, before which others stand, where the backend supports that.
pub fn lowered(
    alloc: Global,
    supported: &str,
    before: &str,
    declared: &str,
) -> Result<Lowered, Fail> {
    let text = input(alloc, supported, before, declared)?;
    lowered_text(alloc, text.as_str())
}

/// Adds a place: what the first line of a report has after these words.
fn put_place(alloc: Global, text: &mut String, report: &LoweringReport) -> Result<(), NoMemory> {
    let printed = report.to_string(alloc)?;
    let line = printed.as_str().split_once("\n").unwrap_or(("", "")).0;
    text.push_str(line.strip_prefix("Lowering error in ").unwrap_or("?"))
}

/// Adds the arguments of a rule, in parentheses.
fn put_args(text: &mut String, report: &LoweringReport) -> Result<(), NoMemory> {
    let mut before = "(";
    let mut after = "";
    for arg in report.error.args.as_slice() {
        text.push_str(before)?;
        text.push_str(arg.as_str())?;
        before = " ";
        after = ")";
    }
    text.push_str(after)
}

/// Adds a report: its place, its rule, and the rule's arguments.
fn put_report(alloc: Global, text: &mut String, report: &LoweringReport) -> Result<(), NoMemory> {
    put_place(alloc, text, report)?;
    text.push_str(" ")?;
    text.push_str(report.error.rule.name())?;
    put_args(text, report)
}

/// What is told, with `; ` between each two.
pub fn told(alloc: Global, reports: &[LoweringReport]) -> Result<String, NoMemory> {
    let mut text = String::new(alloc);
    for report in reports {
        if !text.is_empty() {
            text.push_str("; ")?;
        }
        put_report(alloc, &mut text, report)?;
    }
    Ok(text)
}

/// What is told, or `ok` where the declarations are accepted.
fn told_or_ok(alloc: Global, lowered: &Lowered) -> Result<String, Fail> {
    match lowered {
        Ok(_) => Ok(String::from_str(alloc, "ok")?),
        Err(reports) => Ok(told(alloc, reports.as_slice())?),
    }
}

/// That of the declarations of a row.
pub fn answer(
    alloc: Global,
    supported: &str,
    before: &str,
    declared: &str,
) -> Result<String, Fail> {
    let lowered = lowered(alloc, supported, before, declared)?;
    told_or_ok(alloc, &lowered)
}

/// The same as it is printed.
pub fn printed(alloc: Global, reports: &[LoweringReport]) -> Result<String, NoMemory> {
    let mut text = String::new(alloc);
    for report in reports {
        text.push_str(report.to_string(alloc)?.as_str())?;
    }
    Ok(text)
}
