//! Single questions to an environment and to lists of lifetimes.

ghost use Rattle.std.specs.Prelude.{◌≡◌, ◌<◌, ◌↔◌, IsTrue};
ghost use Rattle.std.specs.List.{All, Contains};
ghost use Rattle.std.specs.List.Sorted.{IsNonDecreasing};
ghost use Rattle.hir_life.specs.Environment.{IsSound, longer_of};
ghost use Rattle.hir_life.specs.Outlives.{Direct};
ghost use Rattle.hir_life.specs.Substitution.{AreBelow, IsBelow};
ghost use Rattle.hir_explain.specs.Explanations.{IsCarried};

use hir_life::{Lifetime, LifetimeEnv, MaybeStatic};

/// The lifetimes that are declared to outlive this one.
pub(crate) fn longer_than(env: &LifetimeEnv, lifetime: Lifetime) -> &[Lifetime]
    ensures bounds { result.now ≡ longer_of env.now lifetime }
    ensures sound { IsSound env.now }
{
    let _count = env.num_lifetimes();
    match env.get_bounds(lifetime) {
        Some(bounded) => bounded.longer.as_slice(),
        None => &[],
    }
}

/// Whether the lifetime stands in the list.
pub(crate) fn has(list: &[Lifetime], lifetime: Lifetime) -> bool
    ensures { IsTrue result ↔ Contains list.now lifetime }
{
    for other in list {
        if other.index() == lifetime.index() {
            return true;
        }
    }
    false
}

/// Whether the lifetimes ascend, so that `has_in` halves the list at each step.
pub(crate) fn do_ascend(list: &[Lifetime]) -> bool
    ensures { IsTrue result → IsNonDecreasing list.now }
{
    list.is_sorted()
}

/// Whether the lifetime stands in the list, of which it is known whether it ascends.
pub(crate) fn has_in(list: &[Lifetime], ascends: bool, lifetime: Lifetime) -> bool
    requires { IsTrue ascends → IsNonDecreasing list.now }
    ensures { IsTrue result ↔ Contains list.now lifetime }
{
    if ascends {
        ascending_has(list, lifetime)
    } else {
        has(list, lifetime)
    }
}

/// Whether the lifetime stands in the list, which ascends.
fn ascending_has(list: &[Lifetime], lifetime: Lifetime) -> bool
    requires { IsNonDecreasing list.now }
    ensures { IsTrue result ↔ Contains list.now lifetime }
{
    list.binary_search(&lifetime).is_ok()
}

/// Whether the first lifetime is declared to outlive the second.
pub(crate) fn is_direct(env: &LifetimeEnv, longer: Lifetime, shorter: Lifetime) -> bool
    ensures { IsTrue result ↔ Direct (longer_of env.now) longer shorter }
{
    has(longer_than(env, shorter), longer)
}

/// Whether the lifetime is among the carried ones.
pub(crate) fn is_carried(carried: &[MaybeStatic<Lifetime>], lifetime: Lifetime) -> bool
    ensures { IsTrue result ↔ IsCarried carried.now lifetime }
{
    for other in carried {
        if is_number(*other, lifetime) {
            return true;
        }
    }
    false
}

/// Whether this is the lifetime, and not `'static` or another.
fn is_number(carried: MaybeStatic<Lifetime>, lifetime: Lifetime) -> bool
    ensures { IsTrue result ↔ (carried ≡ MaybeStatic.NonStatic lifetime) }
{
    match carried {
        MaybeStatic::Static => false,
        MaybeStatic::NonStatic(number) => number.index() == lifetime.index(),
    }
}

/// Whether all lifetimes of the list are the environment's.
pub(crate) fn are_within(env: &LifetimeEnv, list: &[Lifetime]) -> bool
    ensures { IsTrue result ↔ All (λ l. l < env.now.count) list.now }
{
    for lifetime in list {
        if !env.contains(*lifetime) {
            return false;
        }
    }
    true
}

/// Whether all carried lifetimes but `'static` are the environment's.
pub(crate) fn are_carried_within(env: &LifetimeEnv, carried: &[MaybeStatic<Lifetime>]) -> bool
    ensures { IsTrue result ↔ AreBelow env.now.count carried.now }
{
    for lifetime in carried {
        if !is_within(env, *lifetime) {
            return false;
        }
    }
    true
}

/// Whether this is `'static`, or a lifetime of the environment.
fn is_within(env: &LifetimeEnv, carried: MaybeStatic<Lifetime>) -> bool
    ensures { IsTrue result ↔ IsBelow env.now.count carried }
{
    match carried {
        MaybeStatic::Static => true,
        MaybeStatic::NonStatic(lifetime) => env.contains(lifetime),
    }
}
