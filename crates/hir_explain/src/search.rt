//! The search for the lifetimes that outlive one, with a note of where each was reached from.

ghost use Rattle.std.specs.Prelude.{◌≡◌, ◌↔◌, ℕ, [], ◌<◌, ◌≤◌, length, slice_index, IsTrue, IfOk, MatchOption};
ghost use Rattle.std.specs.List.{Contains};

use crate::reading::longer_than;
use bridge_decl::NoMemory;
use hir_life::{Lifetime, LifetimeEnv, LifetimeList};
use std::alloc::Global;
use std::marker::Model;

/// A search on its way. It reaches each lifetime once and follows each bound once.
///
/// It takes all its room when it is made, so that going on takes no memory.
#[derive(Drop)]
pub(crate) struct Search<'env> {
    env: &'env LifetimeEnv,
    // The lifetimes that were reached, in the order in which they were.
    reached: Vec<Lifetime>,
    // Of each of them, the place of the one from which it was reached.
    origins: Vec<usize>,
    // Of each lifetime, its place among those that were reached.
    places: Vec<Option<usize>>,
}

impl<'env> Model for Search<'env> {
    ghost use Rattle.hir_explain.specs.inside.Searching.{Found};

    ghost Value = { Found };

    ghost use Rattle.hir_explain.specs.inside.Fields.{found_of, IsSearched};

    ghost view = { found_of };

    ghost invariant = { IsSearched };
}

impl<'env> Search<'env> {
    ghost use Rattle.hir_life.specs.Environment.{IsSound, longer_of};
    ghost use Rattle.hir_explain.specs.inside.Searching.{
      Grows,
      IsBoundAt,
      IsExhausted,
      IsFollowed,
      ComesFrom,
      HasReached,
    };

    /// A search that has reached nothing yet. It takes all the memory that it needs.
    fn new(alloc: Global, env: &'env LifetimeEnv) -> Result<Self, NoMemory>
        ensures { IfOk result (λ search. search
            ≡ record { environment = env.now; reached = []; origins = [] }) }
    {
        let count = env.num_lifetimes();
        Ok(Search {
            env,
            reached: Vec::with_capacity(alloc, count)?,
            origins: Vec::with_capacity(alloc, count)?,
            places: vec![in alloc; None; count]?,
        })
    }

    /// How many lifetimes were reached.
    pub(crate) fn len(&self) -> usize
        ensures value { result ≡ length self.now.reached }
        ensures most { result ≤ self.now.environment.count }
    {
        self.reached.len()
    }

    /// The lifetime that was reached at this place.
    pub(crate) fn lifetime_at(&self, place: usize) -> Lifetime
        requires { place < length self.now.reached }
        ensures value { result ≡ slice_index self.now.reached place }
        ensures within { result < self.now.environment.count }
    {
        self.reached[place]
    }

    /// The place of the lifetime from which the one at this place was reached.
    pub(crate) fn origin_of(&self, place: usize) -> usize
        requires later { 0 < place }
        requires within { place < length self.now.reached }
        ensures { ComesFrom self.now place result }
    {
        self.origins[place]
    }

    /// The place of the lifetime, where it was reached.
    pub(crate) fn place_of(&self, lifetime: Lifetime) -> Option<usize>
        requires { lifetime < self.now.environment.count }
        ensures { MatchOption result (Contains self.now.reached lifetime → ⊥)
            (λ place. (place < length self.now.reached)
            × (slice_index self.now.reached place ≡ lifetime)) }
    {
        self.places[lifetime.index()]
    }

    /// Reaches the lifetime from the one at the place `origin`, unless it was reached before. The first is reached from nowhere.
    fn reach(&mut self, lifetime: Lifetime, origin: usize)
        requires within { lifetime < self.old.environment.count }
        requires bound { 0 < length self.old.reached → IsBoundAt self.old lifetime origin }
        ensures { HasReached self.old lifetime self.new }
    {
        if self.place_of(lifetime).is_none() {
            self.places[lifetime.index()] = Some(self.reached.len());
            self.reached.push_reserved(lifetime);
            self.origins.push_reserved(origin);
        }
    }

    /// The lifetimes that are declared to outlive the one at this place.
    fn bounds_at(&self, place: usize) -> &'env [Lifetime]
        requires { place < length self.now.reached }
        ensures bounds { result.now
            ≡ longer_of self.now.environment (slice_index self.now.reached place) }
        ensures sound { IsSound self.now.environment }
    {
        longer_than(self.env, self.reached[place])
    }

    /// Reaches the lifetimes that are declared to outlive the one at this place.
    fn follow(&mut self, place: usize)
        requires { place < length self.old.reached }
        ensures grows { Grows self.old self.new }
        ensures followed { IsFollowed self.new place }
    {
        for lifetime in self.bounds_at(place) {
            self.reach(*lifetime, place);
        }
    }

    /// Follows each lifetime that was reached, and each that is reached then.
    fn follow_all(&mut self)
        ensures grows { Grows self.old self.new }
        ensures followed { (place : ℕ) → place < length self.new.reached
            → IsFollowed self.new place }
    {
        let mut place = 0;
        while place < self.len() {
            self.follow(place);
            place += 1;
        }
    }

    /// The whole search for the lifetimes that outlive `t`.
    pub(crate) fn over(
        alloc: Global,
        env: &'env LifetimeEnv,
        first: Lifetime,
    ) -> Result<Self, NoMemory>
        requires { first < env.now.count }
        ensures { IfOk result (λ search. IsExhausted env.now first search) }
    {
        let mut search = Search::new(alloc, env)?;
        search.reach(first, 0);
        search.follow_all();
        Ok(search)
    }

    /// Whether the lifetime was reached.
    pub(crate) fn is_reached(&self, lifetime: Lifetime) -> bool
        requires { lifetime < self.now.environment.count }
        ensures { IsTrue result ↔ Contains self.now.reached lifetime }
    {
        self.place_of(lifetime).is_some()
    }
}
