//! A law that callers may rely on: the contract of a function without a body.

ghost use Rattle.std.specs.Prelude.{◌↔◌, Bool};
ghost use Rattle.std.specs.List.{Contains};
ghost use Rattle.bridge_validation.specs.LoweredContextBreaks.{LoweredContextBreaks};
ghost use Rattle.bridge_validation.specs.Told.{context_reports};
ghost use Rattle.hir_context.specs.declared.parts.Definitions.{Definitions};
ghost use Rattle.hir_reports.specs.declared.report.LoweringReport.{LoweringReport};

/// What is told of a context is what breaks a rule in it, each at its place, and nothing else.
pub fn lowered_contexts_are_told_by_their_rules()
    ensures { (must_fail : Bool) (defs : Definitions) (report : LoweringReport)
        → Contains (context_reports must_fail defs) report
        ↔ LoweredContextBreaks must_fail defs report }
{}
