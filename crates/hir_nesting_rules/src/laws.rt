//! The law that callers may rely on: the contract of a function without a body.

ghost use Rattle.std.specs.Prelude.{List, Option, length};
ghost use Rattle.bridge_places.specs.Entries.{IsCatalog};
ghost use Rattle.bridge_telling.specs.Telling.{TellsExactly};
ghost use Rattle.hir_lowering.specs.Interface.{AreNamed, Interface};
ghost use Rattle.hir_lowering.specs.Lowered.{AreAllLowered};
ghost use Rattle.hir_lowering.specs.Nesting.{nesting_reports};
ghost use Rattle.hir_nesting.specs.Faults.{AreNestingFaults};
ghost use Rattle.hir_nesting.specs.declared.fault.NestingFault.{NestingFault};
ghost use Rattle.hir_usage_notes.specs.declared.definitions.LoweredDefinitions.{LoweredDefinitions};
ghost use Rattle.hir_nesting_rules.specs.LoweredContainment.{lowered_containment};
ghost use Rattle.hir_nesting_rules.specs.NestingBreaks.{NestingBreaks};

/// What is told of how the structs of all declarations nest: each report is that of a rule which the
/// struct at its place breaks, and each struct that breaks a rule has its report.
pub fn nesting_is_told_exactly()
    ensures { (it : Interface) (d : LoweredDefinitions) (faults : List (Option NestingFault))
        → IsCatalog it.modules it.catalog → AreNamed it.modules it.names
        → AreAllLowered it d → AreNestingFaults (lowered_containment d) faults
        → TellsExactly (nesting_reports it.modules (length d.out_structs.items) faults)
        (NestingBreaks it) }
{}
