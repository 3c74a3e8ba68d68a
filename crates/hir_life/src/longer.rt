//! The lifetimes that outlive one, as a list, with a bound on the work.

ghost use Rattle.std.specs.Prelude.{◌≡◌, ℕ, List, ◌+◌, ◌<◌, ◌≤◌, length, IfOk, OnOk, OnErr};
ghost use Rattle.std.specs.Iterator.{Drains};

use crate::environment::LifetimeEnv;
use crate::lifetime_index::Lifetime;
use crate::steps::Steps;
use bridge_decl::NoMemory;
use std::alloc::Global;
use std::sync::ledger::Ledger;

impl LifetimeEnv {
    ghost use Rattle.hir_life.specs.Listing.{ListsLonger, bounds_declared};
    ghost use Rattle.hir_life.specs.Walk.{WalksOn, walk_from};
    ghost use Rattle.hir_life.specs.declared.walks.Direction.TheVariants.{Longer};

    /// The lifetimes that outlive this one: itself first, and then each other once, as `all_longer_lifetimes` gives them. Every
    /// run of that walk to its end gives this list, in this order.
    ///
    /// The count of steps rises by one for each lifetime that the walk takes out of its queue, which is once for each lifetime
    /// of the answer, and at most once more than there are declared bounds. Without memory the count stays as it was.
    pub fn longer_of<L: Ledger>(
        &self,
        alloc: Global,
        lt: Lifetime,
        steps: &mut Steps<L>,
    ) -> Result<Vec<Lifetime>, NoMemory>
        requires { lt < self.now.count }
        ensures list { IfOk result (λ longer. ListsLonger self.now lt longer.items) }
        ensures walk { IfOk result (λ longer.
            Drains WalksOn (walk_from self.now Longer lt) longer.items) }
        ensures same { IfOk result (λ longer. (other : List ℕ)
            → Drains WalksOn (walk_from self.now Longer lt) other → other ≡ longer.items) }
        ensures steps { IfOk result (λ longer. steps.new ≡ steps.old + length longer.items) }
        ensures most { OnOk result (steps.new ≤ steps.old + 1 + bounds_declared self.now) }
        ensures err { OnErr result (steps.new ≡ steps.old) }
    {
        let walk = self.all_longer_lifetimes(alloc, lt)?;
        let mut answer = Vec::with_capacity(alloc, self.num_lifetimes())?;
        for longer in walk {
            steps.tick();
            answer.push_reserved(longer);
        }
        Ok(answer)
    }
}
