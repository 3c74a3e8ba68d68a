//! Walks over lifetimes along their bounds.

ghost use Rattle.std.specs.Prelude.{◌≡◌, ◌<◌, IfOk};

use crate::environment::LifetimeEnv;
use crate::lifetime_index::Lifetime;
use crate::walker::Walker;
use bridge_decl::NoMemory;
use std::alloc::Global;
use std::marker::Model;

/// Which bounds a walk follows.
#[derive(Clone, Copy)]
pub enum Direction {
    /// From a lifetime to those that outlive it.
    Longer,
    /// From a lifetime to those that it outlives.
    Shorter,
}

/// A walk from a lifetime over all that it reaches by bounds of one direction.
///
/// It gives the lifetime itself first and then each other once, and follows each bound once: after the lifetime its direct
/// bounds, in the order in which they are declared, then those of the first of these, and so on. For
/// `fn f<'a, 'b: 'a, 'c: 'a, 'd: 'b>` the walk from `'a` to the longer gives `'a`, `'b`, `'c`, `'d`. It has all its room from
/// the start, so that `next` takes no memory.
#[derive(Drop)]
pub struct LifetimeTransitivityIterator<'env> {
    walker: Walker<'env>,
}

impl<'env> Model for LifetimeTransitivityIterator<'env> {
    ghost use Rattle.hir_life.specs.Walk.{Walk};

    ghost Value = { Walk };

    ghost use Rattle.hir_life.specs.inside.Queue.{walk_of, IsFromFirst};

    ghost view = { λ it. walk_of it.walker };

    ghost invariant = { λ it. IsFromFirst it.walker };
}

impl<'env> LifetimeTransitivityIterator<'env> {
    ghost use Rattle.hir_life.specs.Environment.{IsSound};
    ghost use Rattle.hir_life.specs.Walk.{walk_from};

    /// The walk from `start`, which has given nothing yet. It takes all the memory that it needs.
    pub(crate) fn new(
        alloc: Global,
        env: &'env LifetimeEnv,
        direction: Direction,
        start: Lifetime,
    ) -> Result<Self, NoMemory>
        requires { start < env.now.count }
        ensures walk { IfOk result (λ walk. walk ≡ walk_from env.now direction start) }
        ensures sound { IsSound env.now }
    {
        let mut walker = Walker::new(alloc, env, direction)?;
        walker.begin(start);
        Ok(LifetimeTransitivityIterator { walker })
    }
}

impl Iterator for LifetimeTransitivityIterator<'_> {
    type Item = Lifetime;

    ghost use Rattle.std.specs.Prelude.{◌-◌, length};
    ghost use Rattle.std.specs.Iterator.{at_most};
    ghost use Rattle.hir_life.specs.Walk.{WalksOn};

    ghost next_gives = { WalksOn };

    ghost remaining = { λ walk. at_most (walk.environment.count - length walk.given) };

    fn next(&mut self) -> Option<Lifetime> {
        self.walker.step()
    }
}
