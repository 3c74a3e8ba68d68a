//! A law that callers may rely on: the contract of a function without a body.

ghost use Rattle.std.specs.Prelude.{◌↔◌};
ghost use Rattle.std.specs.List.{Contains};
ghost use Rattle.hir_backends.specs.declared.support.BackendAttrSupport.{BackendAttrSupport};
ghost use Rattle.hir_definitions.specs.declared.methods.Method.{Method};
ghost use Rattle.hir_ids.specs.declared.ids.TypeId.{TypeId};
ghost use Rattle.hir_reports.specs.declared.report.LoweringError.{LoweringError};
ghost use Rattle.hir_special.specs.Told.{special_errors};
ghost use Rattle.hir_special_rules.specs.SpecialBreaks.{SpecialBreaks};

/// What is told of a method beside its marks and its types is what breaks a rule on special methods, and nothing else.
pub fn specials_are_told_by_their_rules()
    ensures { (supports : BackendAttrSupport) (owner : TypeId) (method : Method)
        (error : LoweringError) → Contains (special_errors supports owner method) error
        ↔ SpecialBreaks supports owner method error }
{}
