//! Visits of the lifetimes that outlive one, each once over all visits.

ghost use Rattle.std.specs.Prelude.{◌≡◌, [], IfOk};

use crate::environment::LifetimeEnv;
use crate::lifetime_index::Lifetime;
use crate::walker::Walker;
use crate::walks::Direction;
use bridge_decl::NoMemory;
use std::alloc::Global;
use std::marker::Model;

/// Calls a function at named lifetimes, each of them once, however often `visit_subtypes` comes to it.
#[derive(Drop)]
pub struct SubtypeLifetimeVisitor<'env, F> {
    walker: Walker<'env>,
    visit_fn: F,
}

impl<'env, F> Model for SubtypeLifetimeVisitor<'env, F> {
    ghost use Rattle.hir_life.specs.Visiting.{Visitor};
    ghost use Rattle.hir_life.specs.inside.Visited.{HasVisited};

    ghost Value = { Visitor F };

    ghost view = { λ it. record {
      environment = it.walker.environment;
      visited = it.walker.reached;
      visit_fn = it.visit_fn;
    } };

    ghost invariant = { λ it. HasVisited it.walker };
}

/// Calls the function at the lifetime.
fn visit<F: FnMut(Lifetime)>(visit_fn: &mut F, lifetime: Lifetime)
    requires { F.IsAlwaysCallable visit_fn.old }
    ensures called { F.step visit_fn.old lifetime tt visit_fn.new }
    ensures callable { F.IsAlwaysCallable visit_fn.new }
{
    visit_fn(lifetime);
}

impl<'env, F: FnMut(Lifetime)> SubtypeLifetimeVisitor<'env, F> {
    ghost use Rattle.hir_life.specs.Visiting.{Visits};

    /// Calls the function at each named lifetime that outlives this one and wasn't visited before, once. From any other
    /// lifetime than a named one it does nothing. It takes no memory.
    pub fn visit_subtypes(&mut self, method_lifetime: Lifetime)
        requires { F.IsAlwaysCallable self.old.visit_fn }
        ensures visits { Visits (λ p l q. F.step p l tt q) self.old method_lifetime self.new }
        ensures callable { F.IsAlwaysCallable self.new.visit_fn }
    {
        if !self.walker.env().is_named(method_lifetime) {
            return;
        }
        self.walker.begin(method_lifetime);
        while let Some(lifetime) = self.walker.step() {
            visit(&mut self.visit_fn, lifetime);
        }
    }
}

impl LifetimeEnv {
    /// A visitor that calls `visit_fn` at each lifetime that it visits, and has visited none yet. It takes all the room that
    /// its visits use.
    pub fn subtype_lifetimes_visitor<F: FnMut(Lifetime) + Drop>(
        &self,
        alloc: Global,
        visit_fn: F,
    ) -> Result<SubtypeLifetimeVisitor<'_, F>, NoMemory>
        ensures { IfOk result (λ visitor. visitor
            ≡ record { environment = self.now; visited = []; visit_fn = visit_fn }) }
    {
        let walker = Walker::new(alloc, self, Direction::Longer)?;
        Ok(SubtypeLifetimeVisitor { walker, visit_fn })
    }
}
