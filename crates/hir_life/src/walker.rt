//! The one walk that all others stand on: over lifetimes, along the bounds of one direction, from any number of starts.

ghost use Rattle.std.specs.Prelude.{◌≡◌, ◌<◌, [], IfOk};

use crate::environment::LifetimeEnv;
use crate::lifetime_index::Lifetime;
use crate::reaching::{reach, reach_all};
use crate::walks::Direction;
use bridge_decl::NoMemory;
use std::alloc::Global;
use std::marker::Model;

/// A walk on its way. It gives each lifetime that it reaches once, and follows each bound once.
///
/// It takes all its room when it is made, so that going on takes no memory.
#[derive(Drop)]
pub(crate) struct Walker<'env> {
    env: &'env LifetimeEnv,
    direction: Direction,
    // The lifetimes that were reached, in the order in which they are given.
    order: Vec<usize>,
    // Of each lifetime, whether it was reached.
    reached: Vec<bool>,
    // How many of `order` were given.
    head: usize,
}

impl<'env> Model for Walker<'env> {
    ghost use Rattle.hir_life.specs.inside.Queue.{Queue};

    ghost Value = { Queue };

    ghost use Rattle.hir_life.specs.inside.Walking.{queue_of, IsWalking};

    ghost view = { queue_of };

    ghost invariant = { IsWalking };
}

impl<'env> Walker<'env> {
    ghost use Rattle.hir_life.specs.Environment.{IsSound};
    ghost use Rattle.hir_life.specs.inside.Queue.{Begins, IsQueue, Moves};

    /// A walk that has no start yet. It takes all the memory that it needs.
    pub(crate) fn new(
        alloc: Global,
        env: &'env LifetimeEnv,
        direction: Direction,
    ) -> Result<Self, NoMemory>
        ensures walk { IfOk result (λ walk. walk
            ≡ record { environment = env.now; direction = direction; reached = []; given = 0 }) }
        ensures sound { IsSound env.now }
    {
        let count = env.num_lifetimes();
        Ok(Walker {
            env,
            direction,
            order: Vec::with_capacity(alloc, count)?,
            reached: vec![in alloc; false; count]?,
            head: 0,
        })
    }

    /// The environment that is walked over.
    pub(crate) fn env(&self) -> &'env LifetimeEnv
        ensures { result.now ≡ self.now.environment }
    {
        self.env
    }

    /// A further start. Where it was reached before, nothing changes.
    pub(crate) fn begin(&mut self, lifetime: Lifetime)
        requires { lifetime < self.old.environment.count }
        ensures begins { Begins self.old lifetime self.new }
    {
        reach(&mut self.order, &mut self.reached, lifetime.index());
    }

    /// The next lifetime, whose bounds are reached then; or none where all were given.
    pub(crate) fn step(&mut self) -> Option<Lifetime>
        ensures moves { Moves self.old result self.new }
        ensures queue { IsQueue self.old }
    {
        if self.head == self.order.len() {
            return None;
        }
        let lifetime = self.order[self.head];
        let bounds = self.env.direct(self.direction, lifetime);
        reach_all(&mut self.order, &mut self.reached, bounds);
        self.head += 1;
        Some(Lifetime::new(lifetime))
    }
}
