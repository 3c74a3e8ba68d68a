//! What is kept of returned lifetimes before any input is visited.

ghost use Rattle.std.specs.Prelude.{◌≡◌, ◌<◌, ℕ, ◌||◌, ◌&&◌, nat_eq, IfOk, OnOk};
ghost use Rattle.std.specs.List.{All};
ghost use Rattle.hir_borrowing_params.specs.Edges.{held_for, is_in};
ghost use Rattle.hir_borrowing_params.specs.Keys.{IsStart, HasOutliving};
ghost use Rattle.hir_borrowing_params.specs.inside.Starting.{AddsStart, StartsAt, flag_at};

use crate::edges::{BorrowMap, BorrowedLifetimeInfo};
use bridge_decl::NoMemory;
use hir_life::{Lifetime, LifetimeEnv};
use std::alloc::Global;
use std::collections::{BTreeMap, BTreeSet};

/// Adds the lifetime of this number, where its flag says so.
fn add_flagged(set: &mut BTreeSet<Lifetime>, number: usize, outlives: bool) -> Result<(), NoMemory>
    ensures { OnOk result ((l : ℕ) → is_in set.new l
        ≡ (is_in set.old l || nat_eq number l && outlives)) }
{
    if outlives {
        set.insert(Lifetime::new(number))?;
    }
    Ok(())
}

/// The lifetimes that have a flag.
fn flagged(alloc: Global, flags: &[bool]) -> Result<BTreeSet<Lifetime>, NoMemory>
    ensures { IfOk result (λ set. (l : ℕ) → is_in set l ≡ flag_at flags.now l) }
{
    let mut set = BTreeSet::new(alloc);
    for (number, outlives) in flags.iter().enumerate() {
        add_flagged(&mut set, number, *outlives)?;
    }
    Ok(set)
}

/// The lifetimes that outlive this one, itself among them.
fn longer_set(
    alloc: Global,
    env: &LifetimeEnv,
    lifetime: Lifetime,
) -> Result<BTreeSet<Lifetime>, NoMemory>
    requires { lifetime < env.now.count }
    ensures { IfOk result (HasOutliving env.now lifetime) }
{
    // An environment is sound, as its number of lifetimes says.
    let _count = env.num_lifetimes();
    let flags = env.outliving_flags(alloc, lifetime)?;
    flagged(alloc, &flags)
}

/// What is kept of a lifetime before any input is visited.
fn start_of<'tcx>(
    alloc: Global,
    env: &LifetimeEnv,
    lifetime: Lifetime,
) -> Result<BorrowedLifetimeInfo<'tcx>, NoMemory>
    requires { lifetime < env.now.count }
    ensures { IfOk result (λ info. IsStart env.now lifetime (held_for info)) }
{
    let all_longer_lifetimes = longer_set(alloc, env, lifetime)?;
    Ok(BorrowedLifetimeInfo {
        incoming_edges: Vec::new(alloc),
        all_longer_lifetimes,
    })
}

/// Adds a lifetime of which nothing is held yet.
fn add_start(
    alloc: Global,
    env: &LifetimeEnv,
    map: &mut BorrowMap<'_>,
    lifetime: Lifetime,
) -> Result<(), NoMemory>
    requires { lifetime < env.now.count }
    ensures { OnOk result (AddsStart env.now lifetime map.old map.new) }
{
    let info = start_of(alloc, env, lifetime)?;
    map.insert(lifetime, info)?;
    Ok(())
}

/// The lifetimes of a list, of which nothing is held yet.
pub(crate) fn starts<'tcx>(
    alloc: Global,
    env: &LifetimeEnv,
    keys: &[Lifetime],
) -> Result<BorrowMap<'tcx>, NoMemory>
    requires { All (λ t. t < env.now.count) keys.now }
    ensures { IfOk result (StartsAt env.now keys.now) }
{
    let mut map = BTreeMap::new(alloc);
    for key in keys {
        add_start(alloc, env, &mut map, *key)?;
    }
    Ok(map)
}
