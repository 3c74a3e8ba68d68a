//! Laws that callers may rely on: each is the contract of a function without a body.

ghost use Rattle.std.specs.Prelude.{ℕ, List, Option, ◌↔◌};
ghost use Rattle.hir_ids.specs.declared.ids.SymbolId.{SymbolId};
ghost use Rattle.hir_mentions.specs.Mentions.{Mentioned};
ghost use Rattle.hir_fitting.specs.Fitting.{Fits, Misfits};
ghost use Rattle.hir_fitting.specs.Parts.{DefinitionFits, DefinitionMisfits, Part};
ghost use Rattle.hir_fitting.specs.declared.census.Census.{Census};

/// A mention fits exactly where it is no misfit, and so do the parts of a definition.
pub fn what_has_no_misfit_fits()
    ensures mentions { (census : Census) (count : Option ℕ) (holder : SymbolId) (m : Mentioned)
        → (Fits census count m
        ↔ ((named : SymbolId) → ¬ Misfits census count holder m named)) }
    ensures definitions { (census : Census) (holder : SymbolId) (parts : List Part)
        → (DefinitionFits census parts
        ↔ ((named : SymbolId) → ¬ DefinitionMisfits census holder parts named)) }
{}
