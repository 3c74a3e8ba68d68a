//! Laws about the declarations: each is the contract of a function without a body.

ghost use Rattle.std.specs.Prelude.{◌≡◌, ◌<◌, ◌^◌, ◌+◌, ◌%◌, ℕ, [], ◌∷◌, length, sum_by, true};
ghost use Rattle.std.specs.List.{range_with_len};
ghost use Rattle.bridge_callables.specs.Declared.{declared_callables};
ghost use Rattle.bridge_generate.specs.Generated.{generated_module};
ghost use Rattle.bridge_lowering.specs.Broken.{BreakNothing};
ghost use Rattle.bridge_measure.specs.Measured.{measured_by};
ghost use Rattle.bridge_order.specs.declared.catalog.Catalog.{Catalog};
ghost use Rattle.bridge_places.specs.Entries.{IsCatalog};
ghost use Rattle.bridge_summary.specs.Summary.{AreListed};
ghost use Rattle.hir_backends.specs.Backend.{Backend};
ghost use Rattle.hir_config.specs.declared.config.LoweringConfig.{LoweringConfig};

use bridge_callables::callables_are_read_as_declared;
use hir_rules::what_is_told_is_broken;

/// They break no rule, for each backend that has functions outside of types, whatever the configuration allows.
pub fn generated_declarations_break_no_rule()
    ensures { (count : ℕ) (backend : Backend) (config : LoweringConfig)
        → count < 2 ^ 64 → backend.supports.free_functions ≡ true
        → BreakNothing (generated_module count ∷ []) backend config }
{
    callables_are_read_as_declared();
    what_is_told_is_broken();
}

/// Their callables are as many as the functions, and all lists together have as many leaves as the sum of `k % 8 + 2` over the numbers `k` of the
/// functions: for each function the `x` of its struct and of each struct within, and its `q`.
pub fn generated_functions_are_the_callables()
    ensures counted { (count : ℕ) (backend : Backend) (config : LoweringConfig)
        (catalog : Catalog) → count < 2 ^ 64 → IsCatalog (generated_module count ∷ []) catalog
        → length (declared_callables (measured_by count backend config catalog)) ≡ count }
    ensures listed { (count : ℕ) (backend : Backend) (config : LoweringConfig)
        (catalog : Catalog) → count < 2 ^ 64 → IsCatalog (generated_module count ∷ []) catalog
        → (listed : ℕ)
        → AreListed (declared_callables (measured_by count backend config catalog)) listed
        → listed ≡ sum_by (λ k. k % 8 + 2) (range_with_len 0 count) }
{}
