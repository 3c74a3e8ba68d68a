//! The lifetimes of a definition beside those where it is used.

ghost use Rattle.std.specs.Prelude.{◌≡◌, ◌<◌, length, slice_get, Some};
ghost use Rattle.hir_links.specs.Links.{Link, all_pairs, pairs};

use crate::pairs::{AllPairsIter, DefOnlyIter};
use hir_life::{Lifetime, LifetimeEnv, Lifetimes, MaybeStatic};
use std::marker::Model;

/// The lifetimes of a definition beside those that stand for them where the definition is used.
///
/// Contracts see a [`Link`](crate): the definition's environment, the lifetime of the reference,
/// and a lifetime for each of the definition's.
#[derive(Drop)]
pub struct LinkedLifetimes<'def, 'tcx> {
    env: &'tcx LifetimeEnv,
    self_lifetime: Option<MaybeStatic<Lifetime>>,
    lifetimes: &'def Lifetimes,
}

impl<'def, 'tcx> Model for LinkedLifetimes<'def, 'tcx> {
    ghost use Rattle.std.specs.Prelude.{◌≡◌, length};
    ghost use Rattle.hir_links.specs.Links.{Link};

    ghost Value = { Link };

    ghost view = { λ it. record {
      environment = it.env.now;
      self_lifetime = it.self_lifetime;
      uses = it.lifetimes.now;
    } };

    ghost invariant = { λ it. length it.lifetimes.now ≡ it.env.now.count };
}

impl<'def, 'tcx> LinkedLifetimes<'def, 'tcx> {
    /// The link of a definition with these lifetimes and a use that has a lifetime for each of
    /// them, in order. A use behind a reference has the reference's lifetime besides.
    pub fn new(
        env: &'tcx LifetimeEnv,
        self_lifetime: Option<MaybeStatic<Lifetime>>,
        lifetimes: &'def Lifetimes,
    ) -> LinkedLifetimes<'def, 'tcx>
        requires { length lifetimes.now ≡ env.now.count }
        ensures { result ≡ record {
          environment = env.now;
          self_lifetime = self_lifetime;
          uses = lifetimes.now;
        } }
    {
        LinkedLifetimes {
            env,
            self_lifetime,
            lifetimes,
        }
    }

    /// The lifetime at the use that stands for this one of the definition.
    pub fn def_to_use(&self, def_lt: Lifetime) -> MaybeStatic<Lifetime>
        requires { def_lt < self.now.environment.count }
        ensures { slice_get self.now.uses def_lt ≡ Some result }
    {
        self.lifetimes.as_slice()[def_lt.index()]
    }

    /// The definition's lifetimes.
    pub fn def_env(&self) -> &'tcx LifetimeEnv
        ensures { result.now ≡ self.now.environment }
    {
        self.env
    }

    /// The lifetime of the reference behind which the definition is used, where it is used behind
    /// one and is an opaque.
    pub fn self_lifetime(&self) -> Option<MaybeStatic<Lifetime>>
        ensures { result ≡ self.now.self_lifetime }
    {
        self.self_lifetime
    }

    /// For each lifetime of the definition, in order, the one at the use and the definition's.
    pub fn lifetimes_def_only(&self) -> DefOnlyIter<'_>
        ensures pairs { result ≡ pairs self.now }
        ensures arity { length self.now.uses ≡ self.now.environment.count }
    {
        DefOnlyIter::new(self.lifetimes.as_slice())
    }

    /// The same, and before them the lifetime of the reference with nothing of the definition's,
    /// where there is one.
    pub fn lifetimes_all(&self) -> AllPairsIter<'_>
        ensures pairs { result ≡ all_pairs self.now }
        ensures arity { length self.now.uses ≡ self.now.environment.count }
    {
        AllPairsIter::new(self.self_lifetime, self.lifetimes_def_only())
    }
}
