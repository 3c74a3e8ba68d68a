//! The law of contexts of all declarations that callers may rely on: the contract of a function without
//! a body of its own.

ghost use Rattle.bridge_places.specs.Entries.{IsCatalog};
ghost use Rattle.hir_context.specs.Fitness.{IsUnfit};
ghost use Rattle.hir_context.specs.declared.parts.Definitions.{Definitions};
ghost use Rattle.hir_fitting.specs.declared.definitions.Unfit.{Unfit};
ghost use Rattle.hir_lower.specs.Contexts.{StandForItems};
ghost use Rattle.hir_lowering.specs.Interface.{AreNamed, Interface};

/// In the definitions of all items of declarations in which nothing is wrong, nothing is unfit: they
/// make a context.
pub fn what_is_accepted_fits()
    ensures { (it : Interface) (defs : Definitions) (unfit : Unfit)
        → IsCatalog it.modules it.catalog → AreNamed it.modules it.names
        → StandForItems it defs
        → ¬ (IsUnfit defs unfit) }
{
    hir_fitting_forms::paths_lead_to_what_is_declared();
    hir_fitting_forms::items_are_lowered_to_what_fits();
    hir_fitting_forms::definitions_fit_where_parts_do();
    hir_fitting_forms::uses_fit_where_types_do();
    hir_fitting_forms::noted_uses_fit();
    hir_fitting_forms::declared_definitions_name_what_is_there();
}
