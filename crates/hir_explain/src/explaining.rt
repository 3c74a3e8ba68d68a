//! Why a leaf is listed under a lifetime, or why it isn't.

ghost use Rattle.std.specs.Prelude.{◌≡◌, ◌↔◌, ℕ, ◌<◌, length, slice_index, IfOk, MatchOption};
ghost use Rattle.std.specs.List.{All, Contains};
ghost use Rattle.hir_life.specs.Environment.{IsSound};
ghost use Rattle.hir_life.specs.Substitution.{AreBelow, IsBelow};
ghost use Rattle.hir_explain.specs.Explanations.{IsCarried, IsListed, Proves, SaysListed};
ghost use Rattle.hir_explain.specs.inside.Numbers.{HasNumber};
ghost use Rattle.hir_explain.specs.inside.Searching.{IsChainFrom};

use crate::explanations::Explanation;
use crate::search::Search;
use bridge_decl::NoMemory;
use hir_life::{Lifetime, LifetimeEnv, LifetimeList, Lifetimes, MaybeStatic};
use std::alloc::Global;

/// Why a leaf that carries these lifetimes is listed under `t`, or why it isn't: a chain where some carried lifetime outlives
/// `t`, and otherwise the lifetimes that do, in ascending order. `'static` has no number in the environment, and lists nothing.
///
/// The only error is want of memory. Each lifetime and each bound is visited once.
pub fn explain_leaf(
    alloc: Global,
    env: &LifetimeEnv,
    carried: &Lifetimes,
    t: Lifetime,
) -> Result<Explanation, NoMemory>
    requires t { t < env.now.count }
    requires carried { AreBelow env.now.count carried.now }
    ensures proves { IfOk result (λ e. Proves env.now carried.now t e) }
    ensures kind { IfOk result (λ e. SaysListed e ↔ IsListed env.now carried.now t) }
{
    let search = Search::over(alloc, env, t)?;
    match carried_place(&search, carried.as_slice()) {
        Some(place) => Ok(Explanation::Chain(chain_from(alloc, &search, place)?)),
        None => Ok(Explanation::Separating(all_reached(alloc, env, &search)?)),
    }
}

/// The place of a carried lifetime that was reached.
fn carried_place(search: &Search<'_>, carried: &[MaybeStatic<Lifetime>]) -> Option<usize>
    requires { AreBelow search.now.environment.count carried.now }
    ensures { MatchOption result
        ((l : ℕ) → IsCarried carried.now l → Contains search.now.reached l → ⊥)
        (λ place. (place < length search.now.reached)
        × IsCarried carried.now (slice_index search.now.reached place)) }
{
    for lifetime in carried {
        let place = place_of_one(search, *lifetime);
        if place.is_some() {
            return place;
        }
    }
    None
}

/// The place of the carried lifetime, where it was reached.
fn place_of_one(search: &Search<'_>, carried: MaybeStatic<Lifetime>) -> Option<usize>
    requires { IsBelow search.now.environment.count carried }
    ensures { MatchOption result (HasNumber search.now.reached carried → ⊥)
        (λ place. (place < length search.now.reached)
        × (carried ≡ MaybeStatic.NonStatic (slice_index search.now.reached place))) }
{
    match carried {
        MaybeStatic::Static => None,
        MaybeStatic::NonStatic(lifetime) => search.place_of(lifetime),
    }
}

/// The chain of bounds from the lifetime at this place to the first that was reached.
fn chain_from(alloc: Global, search: &Search<'_>, place: usize) -> Result<LifetimeList, NoMemory>
    requires { place < length search.now.reached }
    ensures chain { IfOk result (λ chain. IsChainFrom search.now.environment
        (slice_index search.now.reached place) chain (slice_index search.now.reached 0)) }
    ensures within { IfOk result (λ chain. All (λ l. l < search.now.environment.count) chain) }
{
    let mut chain = LifetimeList::new(alloc);
    let mut at = place;
    while at > 0 {
        chain.push(search.lifetime_at(at))?;
        at = search.origin_of(at);
    }
    chain.push(search.lifetime_at(0))?;
    Ok(chain)
}

/// The lifetimes that were reached, in ascending order.
fn all_reached(
    alloc: Global,
    env: &LifetimeEnv,
    search: &Search<'_>,
) -> Result<LifetimeList, NoMemory>
    requires { search.now.environment ≡ env.now }
    ensures list { IfOk result (λ list. (l : ℕ) → l < env.now.count
        → (Contains list l ↔ Contains search.now.reached l)) }
    ensures within { IfOk result (λ list. All (λ l. l < env.now.count) list) }
    ensures sound { IsSound env.now }
{
    let mut list = LifetimeList::new(alloc);
    for number in 0..env.num_lifetimes() {
        let lifetime = Lifetime::new(number);
        if search.is_reached(lifetime) {
            list.push(lifetime)?;
        }
    }
    Ok(list)
}
