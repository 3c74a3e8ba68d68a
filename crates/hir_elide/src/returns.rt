//! The third phase of a signature: the lifetimes of its return.

ghost use Rattle.std.specs.Prelude.{◌≡◌};
ghost use Rattle.hir_elide.specs.Occurrences.{Signature};
ghost use Rattle.hir_elide.specs.Phases.{Returning};
ghost use Rattle.hir_elide.specs.Signature.{environment_of};

use crate::fault::ElideFault;
use crate::lowerer::{LifetimeLowerer, LowerLifetime, StandsFor};
use crate::numbering::Numbering;
use crate::source::ElisionSource;
use bridge_decl::{Lifetime as Written, LifetimeEnv};
use hir_life::{self, Lifetime, Lifetimes, MaybeStatic};
use std::alloc::Global;

/// A signature whose return comes next: what it leaves out borrows for the receiver's borrow, or for the only lifetime of
/// the parameters.
#[derive(Drop)]
pub struct ReturnLifetimeLowerer {
    pub(crate) source: ElisionSource,
    pub(crate) base: Numbering,
}

impl StandsFor for ReturnLifetimeLowerer {
    ghost use Rattle.hir_elide.specs.inside.Standing.{AtReturn};

    ghost stands = { λ it s. AtReturn it s };
}

impl ReturnLifetimeLowerer {
    /// The lifetimes of the signature: those that are declared, and the count of all with the anonymous ones.
    pub fn finish(self) -> hir_life::LifetimeEnv
        ensures { (s : Signature) → ⟦<ReturnLifetimeLowerer as StandsFor>⟧.stands self s
            → result ≡ environment_of s }
    {
        self.base.lifetimes
    }
}

impl LowerLifetime for ReturnLifetimeLowerer {
    ghost phase = { Returning };

    fn lower_lifetime(&mut self, lifetime: &Written) -> Result<MaybeStatic<Lifetime>, ElideFault> {
        match lifetime {
            Written::Static => Ok(MaybeStatic::Static),
            Written::Named(name) => self.base.named(name),
            Written::Anonymous => self.source.elided(),
        }
    }
}

impl LifetimeLowerer for ReturnLifetimeLowerer {
    fn lower_generics(
        &mut self,
        alloc: Global,
        lifetimes: &[Written],
        type_generics: &LifetimeEnv,
        is_self: bool,
    ) -> Result<Lifetimes, ElideFault> {
        if is_self {
            self.base.lower_own(alloc, lifetimes, type_generics)
        } else {
            self.lower_lifetimes(alloc, lifetimes, type_generics)
        }
    }
}
