//! Laws that callers may rely on: each is the contract of a function without a body.

ghost use Rattle.std.specs.Prelude.{◌≡◌, ℕ, Some, slice_get};
ghost use Rattle.hir_context.specs.Fitness.{AllFit, IsUnfit};
ghost use Rattle.hir_context.specs.Iterating.{all_types};
ghost use Rattle.hir_context.specs.Lookups.{DefinedType, defined_at};
ghost use Rattle.hir_context.specs.declared.parts.Definitions.{Definitions};
ghost use Rattle.hir_fitting.specs.declared.definitions.Unfit.{Unfit};
ghost use Rattle.hir_ids.specs.declared.ids.TypeId.{TypeId};

/// All types are those that have an id: what comes with an id is the type of this id, each type
/// comes, and no id comes twice.
pub fn ids_resolve_to_their_definitions()
    ensures found { (defs : Definitions) (place : ℕ) (id : TypeId) (def : DefinedType)
        → slice_get (all_types defs) place ≡ Some (id, def)
        → defined_at defs id ≡ Some def }
    ensures complete { (defs : Definitions) (id : TypeId) (def : DefinedType)
        → defined_at defs id ≡ Some def
        → (place : ℕ) × (slice_get (all_types defs) place ≡ Some (id, def)) }
    ensures once { (defs : Definitions) (first second : ℕ) (id : TypeId) (def other : DefinedType)
        → slice_get (all_types defs) first ≡ Some (id, def)
        → slice_get (all_types defs) second ≡ Some (id, other) → first ≡ second }
{}

/// Nothing is told of definitions that fit: so parts make a context exactly where nothing in them
/// doesn't fit.
pub fn what_fits_has_nothing_unfit()
    ensures { (defs : Definitions) (unfit : Unfit) → AllFit defs → ¬ (IsUnfit defs unfit) }
{}
