//! The lifetimes of a definition's fields.

ghost use Rattle.std.specs.Prelude.{◌≡◌};
ghost use Rattle.bridge_decl.specs.Lifetimes.{IsSoundEnvironment, lifetime_names};
ghost use Rattle.bridge_text.specs.NameIndex.{number_of};
ghost use Rattle.hir_elide.specs.Phases.{Defining};
ghost use Rattle.hir_elide.specs.Signature.{begun};

use crate::fault::ElideFault;
use crate::lowerer::{LifetimeLowerer, LowerLifetime, StandsFor};
use crate::numbering::within_most;
use bridge_decl::{Lifetime as Written, LifetimeEnv, Text};
use hir_life::{Lifetime, Lifetimes, MaybeStatic};
use std::alloc::Global;

/// The place of a declared name.
fn place_of(env: &LifetimeEnv, name: &Text) -> Option<usize>
    ensures { result ≡ number_of (lifetime_names env.now) name.now }
{
    for (place, node) in env.nodes.as_slice().iter().enumerate() {
        if node.name == *name {
            return Some(place);
        }
    }
    None
}

/// A definition, whose fields name all their lifetimes.
#[derive(Drop)]
pub struct DefinitionLowerer<'a> {
    env: &'a LifetimeEnv,
}

impl StandsFor for DefinitionLowerer<'_> {
    ghost use Rattle.hir_elide.specs.inside.Standing.{InDefinition};

    ghost stands = { λ it s. InDefinition it s };
}

impl<'a> DefinitionLowerer<'a> {
    /// The definition that declares these lifetimes. No memory is taken, so a name is looked for among at most 4,095.
    pub fn new(env: &'a LifetimeEnv) -> DefinitionLowerer<'a>
        requires { IsSoundEnvironment env.now }
        ensures { ⟦<DefinitionLowerer<'a> as StandsFor>⟧.stands result (begun env.entry.now) }
    {
        DefinitionLowerer { env }
    }
}

impl LowerLifetime for DefinitionLowerer<'_> {
    ghost phase = { Defining };

    fn lower_lifetime(&mut self, lifetime: &Written) -> Result<MaybeStatic<Lifetime>, ElideFault> {
        match lifetime {
            Written::Static => Ok(MaybeStatic::Static),
            Written::Named(name) => match place_of(self.env, name) {
                Some(place) => within_most(place),
                None => Err(ElideFault::LifetimeUnknown),
            },
            Written::Anonymous => Err(ElideFault::AnonymousInDefinition),
        }
    }
}

impl LifetimeLowerer for DefinitionLowerer<'_> {
    fn lower_generics(
        &mut self,
        alloc: Global,
        lifetimes: &[Written],
        type_generics: &LifetimeEnv,
        _is_self: bool,
    ) -> Result<Lifetimes, ElideFault> {
        self.lower_lifetimes(alloc, lifetimes, type_generics)
    }
}
