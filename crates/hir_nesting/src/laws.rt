//! The law of nesting that callers may rely on: the contract of a function without a body.

ghost use Rattle.std.specs.Prelude.{◌<◌, ℕ, List, length};
ghost use Rattle.hir_nesting.specs.Faults.{AllNestWell, HasFault};
ghost use Rattle.hir_nesting.specs.declared.fault.NestingFault.{NestingFault};

/// Where all structs nest well, none has a fault.
pub fn what_nests_well_has_no_fault()
    ensures { (g : List (List ℕ)) (a : ℕ) (f : NestingFault) → AllNestWell g → a < length g
        → ¬ (HasFault g a f) }
{}
