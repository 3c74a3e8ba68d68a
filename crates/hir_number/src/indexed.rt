//! The lifetimes of a definition by an index of its names, so that none is searched for however many fields there are.

ghost use Rattle.std.specs.Prelude.{IfOk};
ghost use Rattle.hir_elide.specs.Phases.{Defining};
ghost use Rattle.hir_elide.specs.Signature.{begun};

use bridge_decl::{Lifetime as Written, LifetimeEnv, NameIndex, NoMemory, index_lifetimes};
use hir_elide::{ElideFault, LifetimeLowerer, LowerLifetime, MOST_LIFETIMES, StandsFor};
use hir_life::{Lifetime, Lifetimes, MaybeStatic};
use std::alloc::Global;

/// A definition whose names are indexed.
#[derive(Drop)]
pub struct IndexedDefinition {
    names: NameIndex<usize>,
}

impl StandsFor for IndexedDefinition {
    ghost use Rattle.bridge_decl.specs.Lifetimes.{lifetime_names};
    ghost use Rattle.bridge_text.specs.NameIndex.{Indexes};

    ghost stands = { λ it s. Indexes it.names (lifetime_names s.declared) };
}

impl IndexedDefinition {
    /// The definition that declares these lifetimes.
    pub fn new(alloc: Global, env: &LifetimeEnv) -> Result<IndexedDefinition, NoMemory>
        ensures { IfOk result (λ it.
            ⟦<IndexedDefinition as StandsFor>⟧.stands it (begun env.now)) }
    {
        Ok(IndexedDefinition {
            names: index_lifetimes(alloc, env)?,
        })
    }
}

impl LowerLifetime for IndexedDefinition {
    ghost phase = { Defining };

    fn lower_lifetime(&mut self, lifetime: &Written) -> Result<MaybeStatic<Lifetime>, ElideFault> {
        match lifetime {
            Written::Static => Ok(MaybeStatic::Static),
            Written::Named(name) => match self.names.get(name) {
                Some(place) => {
                    if *place < MOST_LIFETIMES {
                        Ok(MaybeStatic::NonStatic(Lifetime::new(*place)))
                    } else {
                        Err(ElideFault::TooManyLifetimes)
                    }
                }
                None => Err(ElideFault::LifetimeUnknown),
            },
            Written::Anonymous => Err(ElideFault::AnonymousInDefinition),
        }
    }
}

impl LifetimeLowerer for IndexedDefinition {
    fn lower_generics(
        &mut self,
        alloc: Global,
        lifetimes: &[Written],
        type_generics: &LifetimeEnv,
        _is_self: bool,
    ) -> Result<Lifetimes, ElideFault> {
        self.lower_lifetimes(alloc, lifetimes, type_generics)
    }
}
