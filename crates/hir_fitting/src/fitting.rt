//! Whether mentions fit.

ghost use Rattle.std.specs.Prelude.{◌≡◌, ◌↔◌, IsTrue, MatchBool, MatchOption, All, Any};
ghost use Rattle.hir_life.specs.Substitution.{IsBelow};
ghost use Rattle.hir_mentions.specs.Mentions.{Path};
ghost use Rattle.hir_mentions.specs.Seen.{mentioned};
ghost use Rattle.hir_fitting.specs.Census.{IsThere};
ghost use Rattle.hir_fitting.specs.Fitting.{Fits, IsKnown, Misfits};

use crate::census::Census;
use hir_ids::{SymbolId, TypeId};
use hir_life::{Lifetime, Lifetimes, MaybeStatic};
use hir_mentions::Mention;

/// Whether the lifetime is `'static` or one of so many, where it is counted how many there are.
fn is_known(count: Option<usize>, lifetime: &MaybeStatic<Lifetime>) -> bool
    ensures { IsTrue result ↔ IsKnown count lifetime.now }
{
    match count {
        None => true,
        Some(count) => is_below(count, lifetime),
    }
}

/// Whether the lifetime is `'static` or one of so many.
fn is_below(count: usize, lifetime: &MaybeStatic<Lifetime>) -> bool
    ensures { IsTrue result ↔ IsBelow count lifetime.now }
{
    match lifetime {
        MaybeStatic::Static => true,
        MaybeStatic::NonStatic(lifetime) => lifetime.index() < count,
    }
}

/// Whether each lifetime is known.
fn all_known(count: Option<usize>, lifetimes: &[MaybeStatic<Lifetime>]) -> bool
    ensures { MatchBool result (All (IsKnown count) lifetimes.now)
        (Any (λ l. ¬ IsKnown count l) lifetimes.now) }
{
    for lifetime in lifetimes {
        if !is_known(count, lifetime) {
            return false;
        }
    }
    true
}

/// What is told of a path, where it doesn't fit.
fn path_misfit(
    census: &Census,
    count: Option<usize>,
    holder: &SymbolId,
    id: &SymbolId,
    lifetimes: &Lifetimes,
) -> Option<SymbolId>
    ensures { MatchOption result (Fits census.now count (Path id.now lifetimes.now))
        (Misfits census.now count holder.now (Path id.now lifetimes.now)) }
{
    match census.arity_of(*id) {
        None => Some(*id),
        Some(arity) => {
            if arity != lifetimes.len() {
                return Some(*id);
            }
            if all_known(count, lifetimes.as_slice()) {
                None
            } else {
                Some(*holder)
            }
        }
    }
}

/// The id, where there is no definition of it.
fn missing(census: &Census, id: &SymbolId) -> Option<SymbolId>
    ensures { MatchOption result (IsThere census.now id.now)
        (λ named. (named ≡ id.now) × (¬ IsThere census.now id.now)) }
{
    match census.arity_of(*id) {
        None => Some(*id),
        Some(_) => None,
    }
}

/// The holder, where the lifetime isn't known.
fn unknown(
    count: Option<usize>,
    holder: &SymbolId,
    lifetime: &MaybeStatic<Lifetime>,
) -> Option<SymbolId>
    ensures { MatchOption result (IsKnown count lifetime.now)
        (λ named. (named ≡ holder.now) × (¬ IsKnown count lifetime.now)) }
{
    if is_known(count, lifetime) {
        None
    } else {
        Some(*holder)
    }
}

/// What is told of a mention, where it doesn't fit.
pub(crate) fn mention_misfit(
    census: &Census,
    count: Option<usize>,
    holder: &SymbolId,
    mention: &Mention<'_>,
) -> Option<SymbolId>
    ensures { MatchOption result (Fits census.now count (mentioned mention.now))
        (Misfits census.now count holder.now (mentioned mention.now)) }
{
    match mention {
        Mention::Struct(id, lifetimes) => {
            let id = SymbolId::TypeId(TypeId::Struct(**id));
            path_misfit(census, count, holder, &id, lifetimes)
        }
        Mention::OutStruct(id, lifetimes) => {
            let id = SymbolId::TypeId(TypeId::OutStruct(**id));
            path_misfit(census, count, holder, &id, lifetimes)
        }
        Mention::Opaque(id, lifetimes) => {
            let id = SymbolId::TypeId(TypeId::Opaque(**id));
            path_misfit(census, count, holder, &id, lifetimes)
        }
        Mention::Trait(id, lifetimes) => {
            let id = SymbolId::TraitId(**id);
            path_misfit(census, count, holder, &id, lifetimes)
        }
        Mention::Enum(id) => {
            let id = SymbolId::TypeId(TypeId::Enum(**id));
            missing(census, &id)
        }
        Mention::OpaqueAlone(id) => {
            let id = SymbolId::TypeId(TypeId::Opaque(**id));
            missing(census, &id)
        }
        Mention::Borrow(lifetime) => unknown(count, holder, lifetime),
    }
}
