//! Laws of lifetimes that callers may rely on: each is the contract of a function without a body.

ghost use Rattle.std.specs.Prelude.{◌≡◌, ℕ, List, ◌<◌, ◌↔◌, length};
ghost use Rattle.hir_life.specs.Environment.{Environment, IsSound, longer_of, shorter_of};
ghost use Rattle.hir_life.specs.Outlives.{Outlives};
ghost use Rattle.hir_life.specs.Substitution.{AreBelow, IsBelow, subst, subst_each};
ghost use Rattle.hir_life.specs.Comparing.{Agree};
ghost use Rattle.hir_life.specs.declared.maybe_static.MaybeStatic.{MaybeStatic};
ghost use Rattle.hir_life.specs.declared.maybe_static.MaybeStatic.TheVariants.{Static, NonStatic};
ghost use Rattle.std.specs.declared.cmp.Ordering.TheVariants.{Less};
ghost use Rattle.std.specs.Ordering.{nat_cmp};

use crate::lifetime_index::Lifetime;
use crate::maybe_static::MaybeStatic;
use std::hash::Hash;

/// A lifetime outlives itself, and what outlives a second lifetime outlives all that the second outlives.
pub fn outlives_is_a_preorder()
    ensures reflexive { (e : Environment) (l : ℕ) → Outlives (longer_of e) l l }
    ensures transitive { (e : Environment) (l m s : ℕ) → Outlives (longer_of e) l m
        → Outlives (longer_of e) m s → Outlives (longer_of e) l s }
{}

/// What is reached along the bounds to the shorter is the converse of what is reached along those to the longer.
pub fn shorter_is_the_converse_of_longer()
    ensures { (e : Environment) → IsSound e → (l s : ℕ)
        → (Outlives (shorter_of e) s l ↔ Outlives (longer_of e) l s) }
{}

/// A definition in a definition in a method: substituting twice is substituting by the substituted arguments.
pub fn substitution_composes()
    ensures { (l : MaybeStatic ℕ) (a b : List (MaybeStatic ℕ)) → IsBelow (length a) l
        → AreBelow (length b) a → subst (subst l a) b ≡ subst l (subst_each a b) }
{}

/// Order, equality and hash of lifetimes agree. Lifetimes are ordered by their numbers, and `'static` stands before them.
pub fn order_equality_and_hash_agree()
    ensures lifetime { Agree ⟦<Lifetime as Ord>⟧.cmp ⟦<Lifetime as PartialEq>⟧.eq
        ⟦<Lifetime as Hash>⟧.hash_input }
    ensures maybe_static { Agree ⟦<MaybeStatic<Lifetime> as Ord>⟧.cmp
        ⟦<MaybeStatic<Lifetime> as PartialEq>⟧.eq
        ⟦<MaybeStatic<Lifetime> as Hash>⟧.hash_input }
    ensures by_number { (l m : ℕ)
        → ⟦<MaybeStatic<Lifetime> as Ord>⟧.cmp (NonStatic l) (NonStatic m) ≡ nat_cmp l m }
    ensures static_first { (l : ℕ)
        → ⟦<MaybeStatic<Lifetime> as Ord>⟧.cmp Static (NonStatic l) ≡ Less }
{}
