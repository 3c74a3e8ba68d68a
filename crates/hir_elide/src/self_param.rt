//! The first phase of a signature: the borrow of its receiver.

ghost use Rattle.std.specs.Prelude.{◌≡◌, ◌<◌, ◌↔◌, ◌∷◌, [], Ok, Err, IfOk, IfErr, OnOk, IsErrOf, length};
ghost use Rattle.bridge_decl.specs.Lifetimes.{IsSoundEnvironment};
ghost use Rattle.hir_life.specs.Declarations.{HasIdents};
ghost use Rattle.hir_elide.specs.Numbering.{most};
ghost use Rattle.hir_elide.specs.Occurrences.{Borrow, Signature, count_of};
ghost use Rattle.hir_elide.specs.Phases.{Using, lowered, with_uses};
ghost use Rattle.hir_elide.specs.Signature.{begun, IsOfNames};
ghost use Rattle.hir_life.specs.Substitution.{IsBelow};

use crate::fault::ElideFault;
use crate::lowerer::StandsFor;
use crate::numbering::{MOST_LIFETIMES, Numbering};
use crate::params::ParamLifetimeLowerer;
use crate::source::ElisionSource;
use bridge_decl::{IdentFault, Lifetime as Written, LifetimeEnv, index_lifetimes};
use hir_life::{self, Lifetime, MaybeStatic};
use std::alloc::Global;

/// A signature whose receiver comes next.
#[derive(Drop)]
pub struct SelfParamLifetimeLowerer {
    base: Numbering,
}

impl StandsFor for SelfParamLifetimeLowerer {
    ghost use Rattle.hir_elide.specs.inside.Standing.{AtReceiver};

    ghost stands = { λ it s. AtReceiver it s };
}

impl SelfParamLifetimeLowerer {
    /// The signature that declares these lifetimes. `TooManyLifetimes` comes exactly where there are more than 4,095, and
    /// else `BadIdent` only where a name isn't an identifier.
    pub fn new(alloc: Global, env: &LifetimeEnv) -> Result<Self, ElideFault>
        requires { IsSoundEnvironment env.now }
        ensures begins { IfOk result (λ lowerer.
            ⟦<SelfParamLifetimeLowerer as StandsFor>⟧.stands lowerer (begun env.now)) }
        ensures idents { OnOk result (HasIdents env.now) }
        ensures too_many { IsErrOf result ElideFault.TooManyLifetimes
            ↔ (most < length env.now.nodes) }
        ensures bad { IsErrOf result ElideFault.BadIdent → ¬ (HasIdents env.now) }
        ensures only { IfErr result IsOfNames }
    {
        if env.nodes.len() > MOST_LIFETIMES {
            return Err(ElideFault::TooManyLifetimes);
        }
        let lifetimes = match hir_life::LifetimeEnv::of_declared(alloc, env) {
            Ok(lifetimes) => lifetimes,
            Err(IdentFault::Bad) => return Err(ElideFault::BadIdent),
            Err(IdentFault::NoMemory) => return Err(ElideFault::NoMemory),
        };
        let names = index_lifetimes(alloc, env)?;
        Ok(SelfParamLifetimeLowerer {
            base: Numbering {
                names,
                lifetimes,
                own: None,
            },
        })
    }

    /// The borrow of the receiver, `&'a self` or `&self`, for which a return borrows that leaves its lifetime out.
    pub fn lower_self_ref(
        self,
        lifetime: &Written,
    ) -> Result<(MaybeStatic<Lifetime>, ParamLifetimeLowerer), ElideFault>
        ensures told { (s : Signature)
            → ⟦<SelfParamLifetimeLowerer as StandsFor>⟧.stands self s
            → IfOk result (λ both. lowered (Using Borrow) s lifetime.now ≡ Ok both.0) }
        ensures fault { (s : Signature)
            → ⟦<SelfParamLifetimeLowerer as StandsFor>⟧.stands self s
            → IfErr result (λ fault. lowered (Using Borrow) s lifetime.now ≡ Err fault) }
        ensures kept { (s : Signature)
            → ⟦<SelfParamLifetimeLowerer as StandsFor>⟧.stands self s
            → IfOk result (λ both. ⟦<ParamLifetimeLowerer as StandsFor>⟧.stands both.1
            (with_uses (Using Borrow) s (lifetime.now ∷ []))) }
        ensures within { (s : Signature)
            → ⟦<SelfParamLifetimeLowerer as StandsFor>⟧.stands self s
            → IfOk result (λ both. IsBelow
            (count_of (with_uses (Using Borrow) s (lifetime.now ∷ []))) both.0) }
    {
        let mut base = self.base;
        let number = base.number(lifetime)?;
        let source = ElisionSource::of_receiver(&number);
        Ok((number, ParamLifetimeLowerer { source, base }))
    }

    /// There is no receiver, or it isn't borrowed.
    pub fn no_self_ref(self) -> ParamLifetimeLowerer
        ensures { (s : Signature) → ⟦<SelfParamLifetimeLowerer as StandsFor>⟧.stands self s
            → ⟦<ParamLifetimeLowerer as StandsFor>⟧.stands result s }
    {
        ParamLifetimeLowerer {
            source: ElisionSource::NoBorrows,
            base: self.base,
        }
    }
}
