//! The lifetimes that a signature or a definition has, with the bounds between them.

ghost use Rattle.std.specs.Prelude.{◌≡◌, ℕ, ◌<◌, ◌≤◌, ◌↔◌, length, slice_get, IsTrue, IsNone, IfOk};
ghost use Rattle.std.specs.List.{range_with_len};
ghost use Rattle.std.specs.Option.{option_copied};

use crate::all_lifetimes::AllLifetimes;
use crate::bounds::BoundedLifetime;
use crate::lifetime_index::Lifetime;
use crate::lifetimes::Lifetimes;
use crate::maybe_static::MaybeStatic;
use crate::naming::LifetimeName;
use crate::walks::{Direction, LifetimeTransitivityIterator};
use bridge_decl::NoMemory;
use sqlite_items::Items;
use std::alloc::Global;
use std::marker::Model;

/// The lifetimes of a signature or of a definition: the named ones with their bounds, and how many there are with the
/// anonymous ones.
///
/// The bounds stand between named lifetimes, and each is kept at both of its ends.
#[derive(Drop)]
pub struct LifetimeEnv {
    pub(crate) nodes: Items<BoundedLifetime>,
    pub(crate) count: usize,
}

impl Model for LifetimeEnv {
    ghost use Rattle.hir_life.specs.Environment.{Environment, IsSound};

    ghost Value = { Environment };

    ghost view = { λ it. record { bounds = it.nodes; count = it.count } };

    ghost invariant = { λ it. IsSound (record { bounds = it.nodes; count = it.count }) };
}

impl LifetimeEnv {
    ghost use Rattle.hir_life.specs.Environment.{Environment, IsSound, followed, longer_of, shorter_of};
    ghost use Rattle.hir_life.specs.Outlives.{Outlives};
    ghost use Rattle.hir_life.specs.Naming.{IsNameOf, printed, printed_name};
    ghost use Rattle.hir_life.specs.Substitution.{identity};
    ghost use Rattle.hir_life.specs.Walk.{walk_from};
    ghost use Rattle.hir_life.specs.declared.walks.Direction.TheVariants.{Longer, Shorter};

    /// The environment of these named lifetimes, in which `num_lifetimes` is the number of all lifetimes, the named ones
    /// counted too.
    pub fn new(nodes: Items<BoundedLifetime>, num_lifetimes: usize) -> LifetimeEnv
        requires { IsSound (record { bounds = nodes; count = num_lifetimes }) }
        ensures { result ≡ record { bounds = nodes; count = num_lifetimes } }
    {
        LifetimeEnv {
            nodes,
            count: num_lifetimes,
        }
    }

    /// An equal environment.
    pub fn try_clone(&self, alloc: Global) -> Result<LifetimeEnv, NoMemory>
        ensures { IfOk result (λ copy. copy ≡ self.now) }
    {
        let mut nodes = Items::new(alloc);
        for node in self.nodes.as_slice() {
            nodes.push(node.try_clone(alloc)?)?;
        }
        Ok(LifetimeEnv::new(nodes, self.num_lifetimes()))
    }

    /// How many lifetimes there are, named and anonymous ones together.
    pub fn num_lifetimes(&self) -> usize
        ensures value { result ≡ self.now.count }
        ensures sound { IsSound self.now }
    {
        self.count
    }

    /// All lifetimes in ascending order, named and anonymous ones.
    pub fn all_lifetimes(&self) -> AllLifetimes
        ensures { result ≡ range_with_len 0 self.now.count }
    {
        AllLifetimes::first(self.num_lifetimes())
    }

    /// All lifetimes as a list in ascending order: what the definition or signature has for its own lifetimes.
    pub fn lifetimes(&self, alloc: Global) -> Result<Lifetimes, NoMemory>
        ensures { IfOk result (λ list. list ≡ identity self.now.count) }
    {
        let mut lifetimes = Lifetimes::new(alloc);
        for number in 0..self.num_lifetimes() {
            lifetimes.push(MaybeStatic::NonStatic(Lifetime::new(number)))?;
        }
        Ok(lifetimes)
    }

    /// The name and the direct bounds of a named lifetime. None exactly where the lifetime isn't one of the named ones.
    pub fn get_bounds(&self, lt: Lifetime) -> Option<&BoundedLifetime>
        ensures entry { option_copied result ≡ slice_get self.now.bounds lt }
        ensures none { IsNone result ↔ (length self.now.bounds ≤ lt) }
    {
        self.nodes.get(lt.index())
    }

    /// Whether the lifetime is one of this environment's.
    pub fn contains(&self, lt: Lifetime) -> bool
        ensures { IsTrue result ↔ (lt < self.now.count) }
    {
        lt.index() < self.num_lifetimes()
    }

    /// Whether the lifetime is a named one.
    pub(crate) fn is_named(&self, lt: Lifetime) -> bool
        ensures named { IsTrue result ↔ (lt < length self.now.bounds) }
        ensures sound { IsSound self.now }
    {
        lt.index() < self.nodes.len()
    }

    /// What the lifetime is called.
    pub fn fmt_lifetime(&self, lt: Lifetime) -> LifetimeName<'_>
        requires { lt < self.now.count }
        ensures kind { IsNameOf self.now lt result }
        ensures text { printed result ≡ printed_name self.now lt }
    {
        match self.nodes.as_slice().get(lt.index()) {
            Some(node) => LifetimeName::Named(node.ident.as_str()),
            None => LifetimeName::Anonymous(lt.index() - self.nodes.len()),
        }
    }

    /// The direct bounds of the lifetime on one side: none for an anonymous lifetime.
    pub(crate) fn direct(&self, direction: Direction, lifetime: usize) -> &[Lifetime]
        ensures bounds { result.now ≡ followed self.now direction lifetime }
        ensures sound { IsSound self.now }
    {
        match self.nodes.as_slice().get(lifetime) {
            Some(node) => match direction {
                Direction::Longer => node.longer.as_slice(),
                Direction::Shorter => node.shorter.as_slice(),
            },
            None => &[],
        }
    }

    /// The lifetimes that outlive this one: itself first, and then each other once, in the order in which they are reached along
    /// the bounds as these are declared. For `fn f<'a, 'b: 'a, 'c: 'a>` and `'a` they are `'a`, `'b`, `'c`.
    pub fn all_longer_lifetimes(
        &self,
        alloc: Global,
        lt: Lifetime,
    ) -> Result<LifetimeTransitivityIterator<'_>, NoMemory>
        requires { lt < self.now.count }
        ensures { IfOk result (λ walk. walk ≡ walk_from self.now Longer lt) }
    {
        LifetimeTransitivityIterator::new(alloc, self, Direction::Longer, lt)
    }

    /// The lifetimes that this one outlives: itself first, and then each other once, in the order in which they are reached along
    /// the bounds as these are declared.
    ///
    /// One lifetime is among those that a second outlives exactly where the second is among those that outlive the first.
    pub fn all_shorter_lifetimes(
        &self,
        alloc: Global,
        lt: Lifetime,
    ) -> Result<LifetimeTransitivityIterator<'_>, NoMemory>
        requires { lt < self.now.count }
        ensures walk { IfOk result (λ walk. walk ≡ walk_from self.now Shorter lt) }
        ensures converse { (l s : ℕ)
            → (Outlives (shorter_of self.now) s l ↔ Outlives (longer_of self.now) l s) }
    {
        LifetimeTransitivityIterator::new(alloc, self, Direction::Shorter, lt)
    }
}
