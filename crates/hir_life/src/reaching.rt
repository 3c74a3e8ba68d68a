//! The lifetimes that a walk has reached, in a list and by a flag for each.

ghost use Rattle.std.specs.Prelude.{◌≡◌, ℕ, ◌<◌, ◌≤◌, [], ◌∷◌, length, vec_capacity};
ghost use Rattle.std.specs.List.{Contains};
ghost use Rattle.hir_life.specs.inside.Reaching.{Marks, Reaches};

use crate::lifetime_index::Lifetime;

/// Adds the lifetime to those that were reached, unless it is among them.
pub(crate) fn reach(order: &mut Vec<usize>, reached: &mut Vec<bool>, lifetime: usize)
    requires room { length reached.old.items ≤ vec_capacity order.old }
    requires within { lifetime < length reached.old.items }
    requires marks { Marks order.old.items reached.old.items }
    ensures room { vec_capacity order.new ≡ vec_capacity order.old }
    ensures flags { length reached.new.items ≡ length reached.old.items }
    ensures marks { Marks order.new.items reached.new.items }
    ensures reaches { Reaches order.old.items order.new.items (lifetime ∷ []) }
{
    if !reached[lifetime] {
        order.push_reserved(lifetime);
        reached[lifetime] = true;
    }
}

/// Adds each of the lifetimes to those that were reached, unless it is among them.
pub(crate) fn reach_all(order: &mut Vec<usize>, reached: &mut Vec<bool>, lifetimes: &[Lifetime])
    requires room { length reached.old.items ≤ vec_capacity order.old }
    requires within { (k : ℕ) → Contains lifetimes.now k → k < length reached.old.items }
    requires marks { Marks order.old.items reached.old.items }
    ensures room { vec_capacity order.new ≡ vec_capacity order.old }
    ensures flags { length reached.new.items ≡ length reached.old.items }
    ensures marks { Marks order.new.items reached.new.items }
    ensures reaches { Reaches order.old.items order.new.items lifetimes.now }
{
    for lifetime in lifetimes {
        let number = lifetime.index();
        reach(order, reached, number);
    }
}
