//! A law that callers may rely on: the contract of a function without a body.

ghost use Rattle.std.specs.Prelude.{◌≡◌};
ghost use Rattle.std.specs.List.{Contains};
ghost use Rattle.bridge_places.specs.Entries.{IsCatalog};
ghost use Rattle.hir_lowering.specs.Interface.{Interface};
ghost use Rattle.hir_lowering.specs.Lowered.{lowering_reports};
ghost use Rattle.hir_reports.specs.declared.report.LoweringReport.{LoweringReport};
ghost use Rattle.hir_rules.specs.Broken.{LoweringBreaks};

/// What is told while declarations are lowered is what is broken in them: each report tells a
/// broken rule at its place; and where any rule is broken, one is told of that place.
pub fn what_is_told_is_broken()
    ensures each { (it : Interface) (r : LoweringReport) → IsCatalog it.modules it.catalog
        → Contains (lowering_reports it) r → LoweringBreaks it r }
    ensures every { (it : Interface) (r : LoweringReport) → IsCatalog it.modules it.catalog
        → LoweringBreaks it r → (told : LoweringReport)
        × (Contains (lowering_reports it) told × (told.context ≡ r.context)) }
{}
