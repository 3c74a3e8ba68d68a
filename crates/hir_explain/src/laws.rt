//! Laws of explanations that callers may rely on: each is the contract of a function without a body.

ghost use Rattle.std.specs.Prelude.{ℕ, List, ◌<◌, ◌↔◌};
ghost use Rattle.std.specs.List.{Contains};
ghost use Rattle.hir_life.specs.Environment.{Environment, IsSound};
ghost use Rattle.hir_life.specs.declared.maybe_static.MaybeStatic.{MaybeStatic};
ghost use Rattle.hir_explain.specs.declared.explanations.Explanation.TheVariants.{Chain, Separating};
ghost use Rattle.hir_explain.specs.Explanations.{HasCarried, IsListed, IsSteady, Proves};

/// Where an explanation proves a chain, some carried lifetime outlives `t`; where it proves separating lifetimes, none does.
/// So a leaf never has explanations of both kinds.
pub fn explanations_hold()
    ensures chain { (e : Environment) (carried : List (MaybeStatic ℕ)) (t : ℕ)
        (chain : List ℕ) → Proves e carried t (Chain chain) → IsListed e carried t }
    ensures separating { (e : Environment) (carried : List (MaybeStatic ℕ)) (t : ℕ)
        (long : List ℕ) → Proves e carried t (Separating long)
        → IsListed e carried t → ⊥ }
{}

/// Some carried lifetime outlives `t` exactly where all steady lifetimes that have `t` have a carried one among them: however
/// lifetimes may be told long or short in agreement with the bounds, where `t` is long the leaf carries a long one.
pub fn listed_is_long_in_every_steady_way()
    ensures { (e : Environment) → IsSound e → (carried : List (MaybeStatic ℕ)) (t : ℕ)
        → t < e.count → (IsListed e carried t ↔ ((long : List ℕ) → IsSteady e long
        → Contains long t → HasCarried carried long)) }
{}
