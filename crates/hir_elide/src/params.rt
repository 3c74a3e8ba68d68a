//! The second phase of a signature: the lifetimes of its receiver's type and of its parameters.

ghost use Rattle.hir_elide.specs.Occurrences.{Counting, Signature};
ghost use Rattle.hir_elide.specs.Phases.{Using};

use crate::fault::ElideFault;
use crate::lowerer::{LifetimeLowerer, LowerLifetime, StandsFor};
use crate::numbering::Numbering;
use crate::returns::ReturnLifetimeLowerer;
use crate::source::ElisionSource;
use bridge_decl::{Lifetime as Written, LifetimeEnv};
use hir_life::{Lifetime, Lifetimes, MaybeStatic};
use std::alloc::Global;

/// A signature whose parameters come next: each lifetime that is lowered counts for elision, but for the generics of `Self`.
#[derive(Drop)]
pub struct ParamLifetimeLowerer {
    pub(crate) source: ElisionSource,
    pub(crate) base: Numbering,
}

impl StandsFor for ParamLifetimeLowerer {
    ghost use Rattle.hir_elide.specs.inside.Standing.{AtParameters};

    ghost stands = { λ it s. AtParameters it s };
}

impl ParamLifetimeLowerer {
    /// All parameters were gone through, and the return comes next.
    pub fn into_return_ltl(self) -> ReturnLifetimeLowerer
        ensures { (s : Signature) → ⟦<ParamLifetimeLowerer as StandsFor>⟧.stands self s
            → ⟦<ReturnLifetimeLowerer as StandsFor>⟧.stands result s }
    {
        ReturnLifetimeLowerer {
            source: self.source,
            base: self.base,
        }
    }
}

impl LowerLifetime for ParamLifetimeLowerer {
    ghost phase = { Using Counting };

    fn lower_lifetime(&mut self, lifetime: &Written) -> Result<MaybeStatic<Lifetime>, ElideFault> {
        let number = self.base.number(lifetime)?;
        self.source = self.source.with(&number);
        Ok(number)
    }
}

impl LifetimeLowerer for ParamLifetimeLowerer {
    fn lower_generics(
        &mut self,
        alloc: Global,
        lifetimes: &[Written],
        type_generics: &LifetimeEnv,
        is_self: bool,
    ) -> Result<Lifetimes, ElideFault> {
        if is_self {
            self.base.lower_own(alloc, lifetimes, type_generics)
        } else {
            self.lower_lifetimes(alloc, lifetimes, type_generics)
        }
    }
}
