//! Whether an explanation proves what it says.

ghost use Rattle.std.specs.Prelude.{◌≡◌, ◌↔◌, ℕ, IsTrue};
ghost use Rattle.std.specs.List.{Contains};
ghost use Rattle.std.specs.List.Sorted.{IsNonDecreasing};
ghost use Rattle.hir_life.specs.Environment.{longer_of};
ghost use Rattle.hir_life.specs.Outlives.{Linked};
ghost use Rattle.hir_explain.specs.Explanations.{IsCarried, IsChainTo, IsSteady, Proves, Separates, Shows, explained_by};
ghost use Rattle.hir_explain.specs.inside.Numbers.{HasNumber};

use crate::explanations::Explanation;
use crate::reading::{
    are_carried_within, are_within, do_ascend, has, has_in, is_carried, is_direct, longer_than,
};
use hir_life::{Lifetime, LifetimeEnv, Lifetimes, MaybeStatic};

/// Whether the explanation proves what it says of a leaf that carries these lifetimes: true on a chain only where the leaf is
/// listed under `t`, and true on separating lifetimes only where it isn't, whoever made the explanation.
///
/// It takes no memory. A chain costs one look at the bounds of each of its lifetimes. Separating lifetimes that ascend, as those
/// of `explain_leaf` do, are searched by halves: the cost is that of the carried lifetimes and of the bounds of the long ones,
/// times the binary digits of the length of the list. In another order each of them is sought through the whole list.
pub fn check_explanation(
    env: &LifetimeEnv,
    carried: &Lifetimes,
    t: Lifetime,
    e: &Explanation,
) -> bool
    ensures { IsTrue result ↔ Proves env.now carried.now t e.now }
{
    let carried = carried.as_slice();
    env.contains(t)
        && are_carried_within(env, carried)
        && are_within(env, all_lifetimes(e))
        && shows(env, carried, t, e)
}

/// The lifetimes that stand in the explanation.
fn all_lifetimes(e: &Explanation) -> &[Lifetime]
    ensures { result.now ≡ explained_by e.now }
{
    match e {
        Explanation::Chain(chain) => chain.as_slice(),
        Explanation::Separating(long) => long.as_slice(),
    }
}

/// Whether the list of the explanation is what its kind says.
fn shows(
    env: &LifetimeEnv,
    carried: &[MaybeStatic<Lifetime>],
    t: Lifetime,
    explanation: &Explanation,
) -> bool
    ensures { IsTrue result ↔ Shows env.now carried.now t explanation.now }
{
    match explanation {
        Explanation::Chain(chain) => is_chain(env, carried, t, chain.as_slice()),
        Explanation::Separating(long) => separates(env, carried, t, long.as_slice()),
    }
}

/// Whether the list is a chain of direct bounds from a carried lifetime to `t`.
fn is_chain(
    env: &LifetimeEnv,
    carried: &[MaybeStatic<Lifetime>],
    t: Lifetime,
    chain: &[Lifetime],
) -> bool
    ensures { IsTrue result ↔ IsChainTo env.now carried.now t chain.now }
{
    match chain.split_first() {
        Some((first, rest)) => is_carried(carried, *first) && leads_to(env, *first, rest, t),
        None => false,
    }
}

/// Whether the first lifetime and those after it end with `t`, and each is a direct bound of its successor.
fn leads_to(env: &LifetimeEnv, first: Lifetime, rest: &[Lifetime], t: Lifetime) -> bool
    ensures { IsTrue result ↔ Linked (longer_of env.now) first rest.now t }
{
    let mut last = first;
    for next in rest {
        if !is_direct(env, last, *next) {
            return false;
        }
        last = *next;
    }
    last.index() == t.index()
}

/// Whether the list has `t`, nothing that is carried, and with each lifetime those that are declared to outlive it.
fn separates(
    env: &LifetimeEnv,
    carried: &[MaybeStatic<Lifetime>],
    t: Lifetime,
    long: &[Lifetime],
) -> bool
    ensures { IsTrue result ↔ Separates env.now carried.now t long.now }
{
    let ascends = do_ascend(long);
    has(long, t) && is_apart(carried, long, ascends) && is_steady(env, long, ascends)
}

/// Whether no lifetime of the list is carried.
fn is_apart(carried: &[MaybeStatic<Lifetime>], long: &[Lifetime], ascends: bool) -> bool
    requires { IsTrue ascends → IsNonDecreasing long.now }
    ensures { IsTrue result
        ↔ ((l : ℕ) → IsCarried carried.now l → Contains long.now l → ⊥) }
{
    for lifetime in carried {
        if has_carried(long, ascends, *lifetime) {
            return false;
        }
    }
    true
}

/// Whether this is a lifetime of the list, and not `'static`.
fn has_carried(long: &[Lifetime], ascends: bool, carried: MaybeStatic<Lifetime>) -> bool
    requires { IsTrue ascends → IsNonDecreasing long.now }
    ensures { IsTrue result ↔ HasNumber long.now carried }
{
    match carried {
        MaybeStatic::Static => false,
        MaybeStatic::NonStatic(lifetime) => has_in(long, ascends, lifetime),
    }
}

/// Whether the list has with each lifetime those that are declared to outlive it.
fn is_steady(env: &LifetimeEnv, long: &[Lifetime], ascends: bool) -> bool
    requires { IsTrue ascends → IsNonDecreasing long.now }
    ensures { IsTrue result ↔ IsSteady env.now long.now }
{
    for lifetime in long {
        if !has_all(long, ascends, longer_than(env, *lifetime)) {
            return false;
        }
    }
    true
}

/// Whether the first list has all lifetimes of the second.
fn has_all(list: &[Lifetime], ascends: bool, lifetimes: &[Lifetime]) -> bool
    requires { IsTrue ascends → IsNonDecreasing list.now }
    ensures { IsTrue result ↔ ((l : ℕ) → Contains lifetimes.now l → Contains list.now l) }
{
    for lifetime in lifetimes {
        if !has_in(list, ascends, *lifetime) {
            return false;
        }
    }
    true
}
