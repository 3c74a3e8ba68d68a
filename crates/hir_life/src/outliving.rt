//! Which lifetimes outlive one, as a flag for each.

ghost use Rattle.std.specs.Prelude.{◌<◌, IfOk};

use crate::environment::LifetimeEnv;
use crate::lifetime_index::Lifetime;
use bridge_decl::NoMemory;
use std::alloc::Global;

impl LifetimeEnv {
    ghost use Rattle.hir_life.specs.Flags.{FlagsOutliving};

    /// Whether each lifetime outlives this one, by their numbers. For generators: one flag a lifetime.
    pub fn outliving_flags(&self, alloc: Global, lt: Lifetime) -> Result<Vec<bool>, NoMemory>
        requires { lt < self.now.count }
        ensures { IfOk result (λ flags. FlagsOutliving self.now lt flags.items) }
    {
        let mut flags = vec![in alloc; false; self.num_lifetimes()]?;
        for longer in self.all_longer_lifetimes(alloc, lt)? {
            flags[longer.index()] = true;
        }
        Ok(flags)
    }
}
