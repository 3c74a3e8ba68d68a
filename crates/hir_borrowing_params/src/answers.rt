//! Under which keys there are edges.

ghost use Rattle.std.specs.Prelude.{◌≡◌, ℕ, ◌&&◌, ◌||◌, nat_eq, IfOk, OnOk};
ghost use Rattle.std.specs.List.{list_any};
ghost use Rattle.hir_borrowing_params.specs.Answering.{MapsRows};
ghost use Rattle.hir_borrowing_params.specs.Edges.{is_in};
ghost use Rattle.hir_borrowing_params.specs.inside.Candidates.{IsKeyed, keys_of, passes_under};

use crate::candidates::{EdgeCandidate, candidate_passes};
use crate::edges::BorrowMap;
use crate::sets::{KeySets, add_set};
use bridge_decl::NoMemory;
use hir_life::Lifetime;
use std::alloc::Global;
use std::collections::{BTreeMap, BTreeSet};

/// Whether the edge is there under a key.
fn passes_under(map: &BorrowMap<'_>, key: Lifetime, candidate: &EdgeCandidate<'_, '_>) -> bool
    ensures { result ≡ passes_under map.now key candidate.now }
{
    match map.get(&key) {
        Some(info) => candidate_passes(&info.all_longer_lifetimes, candidate),
        None => false,
    }
}

/// Adds the key, where the edge is there under it.
fn add_key(
    set: &mut BTreeSet<Lifetime>,
    map: &BorrowMap<'_>,
    key: Lifetime,
    candidate: &EdgeCandidate<'_, '_>,
) -> Result<(), NoMemory>
    ensures { OnOk result ((t : ℕ) → is_in set.new t
        ≡ (is_in set.old t || nat_eq key t && passes_under map.now key candidate.now)) }
{
    if passes_under(map, key, candidate) {
        set.insert(key)?;
    }
    Ok(())
}

/// The keys under which the edge is there.
fn keys_under(
    alloc: Global,
    map: &BorrowMap<'_>,
    keys: &[Lifetime],
    candidate: &EdgeCandidate<'_, '_>,
) -> Result<BTreeSet<Lifetime>, NoMemory>
    ensures { IfOk result (λ set. (t : ℕ) → is_in set t
        ≡ list_any (λ k. nat_eq k t && passes_under map.now k candidate.now) keys.now) }
{
    let mut set = BTreeSet::new(alloc);
    for key in keys {
        add_key(&mut set, map, *key, candidate)?;
    }
    Ok(set)
}

/// For each edge the keys under which it is there, where there are any.
pub(crate) fn sets_under(
    alloc: Global,
    map: &BorrowMap<'_>,
    keys: &[Lifetime],
    candidates: &[EdgeCandidate<'_, '_>],
) -> Result<KeySets, NoMemory>
    requires { IsKeyed keys.now map.now }
    ensures { IfOk result (MapsRows (keys_of map.now) candidates.now) }
{
    let mut sets = BTreeMap::new(alloc);
    for (number, candidate) in candidates.iter().enumerate() {
        let set = keys_under(alloc, map, keys, candidate)?;
        add_set(&mut sets, Lifetime::new(number), set)?;
    }
    Ok(sets)
}
