//! The direct bounds of a method, each found by its two ends.

ghost use Rattle.std.specs.Prelude.{◌≡◌, ◌<◌, IfOk, length};
ghost use Rattle.hir_life.specs.Environment.{longer_of};
ghost use Rattle.hir_validation.specs.Lifetimes.{is_in_list};
ghost use Rattle.hir_validation.specs.inside.Direct.{AreLonger, HoldsList};

use crate::returned::note;
use bridge_decl::NoMemory;
use hir_life::{Lifetime, LifetimeEnv};
use std::alloc::Global;
use std::collections::BTreeSet;
use std::marker::Model;

/// The lifetimes of a method, and for each the set of those that are declared to outlive it.
#[derive(Drop)]
pub(crate) struct DirectBounds<'m> {
    env: &'m LifetimeEnv,
    longer: Vec<BTreeSet<Lifetime>>,
}

impl<'m> Model for DirectBounds<'m> {
    ghost use Rattle.std.specs.Prelude.{◌≡◌, length};
    ghost use Rattle.hir_life.specs.Environment.{Environment};
    ghost use Rattle.hir_validation.specs.inside.Direct.{AreLonger};

    ghost Value = { Environment };

    ghost view = { λ it. it.env.now };

    ghost invariant = { λ it. (length it.longer.items ≡ it.env.now.count)
        × AreLonger it.env.now it.longer.items };
}

/// These lifetimes, as a set.
fn set_of(alloc: Global, lifetimes: &[Lifetime]) -> Result<BTreeSet<Lifetime>, NoMemory>
    ensures { IfOk result (λ set. HoldsList set lifetimes.now) }
{
    let mut set = BTreeSet::new(alloc);
    for lifetime in lifetimes {
        note(&mut set, *lifetime)?;
    }
    Ok(set)
}

/// Those that are declared to outlive the lifetime of that number.
fn longer_set(
    alloc: Global,
    env: &LifetimeEnv,
    number: usize,
) -> Result<BTreeSet<Lifetime>, NoMemory>
    ensures { IfOk result (λ set. HoldsList set (longer_of env.now number)) }
{
    match env.get_bounds(Lifetime::new(number)) {
        Some(bounds) => set_of(alloc, bounds.longer.as_slice()),
        None => set_of(alloc, &[]),
    }
}

/// The same of all lifetimes, by their numbers.
fn longer_sets(alloc: Global, env: &LifetimeEnv) -> Result<Vec<BTreeSet<Lifetime>>, NoMemory>
    ensures { IfOk result (λ sets. (length sets.items ≡ env.now.count)
        × AreLonger env.now sets.items) }
{
    let count = env.num_lifetimes();
    let mut sets = Vec::with_capacity(alloc, count)?;
    for number in 0..count {
        sets.push(longer_set(alloc, env, number)?)?;
    }
    Ok(sets)
}

impl<'m> DirectBounds<'m> {
    /// Those of the lifetimes of a method.
    pub(crate) fn of(alloc: Global, env: &'m LifetimeEnv) -> Result<DirectBounds<'m>, NoMemory>
        ensures { IfOk result (λ it. it ≡ env.now) }
    {
        let longer = longer_sets(alloc, env)?;
        Ok(DirectBounds { env, longer })
    }

    /// The lifetimes.
    pub(crate) fn env(&self) -> &'m LifetimeEnv
        ensures { result.now ≡ self.now }
    {
        self.env
    }

    /// Whether the one is declared to outlive the other.
    pub(crate) fn has(&self, longer: Lifetime, shorter: Lifetime) -> bool
        requires { shorter < self.now.count }
        ensures { result ≡ is_in_list longer (longer_of self.now shorter) }
    {
        self.longer[shorter.index()].contains(&longer)
    }
}
