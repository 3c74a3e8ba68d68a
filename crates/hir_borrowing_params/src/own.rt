//! Which lifetimes of a struct stand for those of another.

ghost use Rattle.std.specs.Prelude.{◌≡◌, ℕ, IfOk};
ghost use Rattle.hir_borrowing_params.specs.Answering.{MapsRows, is_own_at};
ghost use Rattle.hir_borrowing_params.specs.Edges.{is_in};

use crate::sets::{KeySets, add_set};
use bridge_decl::NoMemory;
use hir_life::{Lifetime, LifetimeEnv, MaybeStatic};
use std::alloc::Global;
use std::collections::{BTreeMap, BTreeSet};

/// The set of the lifetime, if it is one of an environment.
fn own_set(
    alloc: Global,
    env: &LifetimeEnv,
    lifetime: &MaybeStatic<Lifetime>,
) -> Result<BTreeSet<Lifetime>, NoMemory>
    ensures { IfOk result (λ set. (t : ℕ)
        → is_in set t ≡ is_own_at env.now.count lifetime.now t) }
{
    let mut set = BTreeSet::new(alloc);
    if let MaybeStatic::NonStatic(lifetime) = lifetime {
        if env.contains(*lifetime) {
            set.insert(*lifetime)?;
        }
    }
    Ok(set)
}

/// At each place of a lifetime that is one of an environment the set of it alone.
pub(crate) fn own_sets(
    alloc: Global,
    env: &LifetimeEnv,
    args: &[MaybeStatic<Lifetime>],
) -> Result<KeySets, NoMemory>
    ensures { IfOk result (MapsRows (is_own_at env.now.count) args.now) }
{
    let mut sets = BTreeMap::new(alloc);
    for (number, lifetime) in args.iter().enumerate() {
        let set = own_set(alloc, env, lifetime)?;
        add_set(&mut sets, Lifetime::new(number), set)?;
    }
    Ok(sets)
}
