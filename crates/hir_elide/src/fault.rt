//! Why a lifetime isn't lowered.

use std::alloc::AllocError;

/// Why a lifetime, or a list of them, isn't lowered. Each but the last is the rule of its name.
#[derive(Clone, Copy, Debug, PartialEq, Eq)]
pub enum ElideFault {
    /// A lifetime has a name that isn't declared.
    LifetimeUnknown,
    /// A definition leaves a lifetime out.
    AnonymousInDefinition,
    /// A return leaves a lifetime out, and no parameter has one.
    ElisionNoSource,
    /// A return leaves a lifetime out, there is no borrowed receiver, and the parameters have several lifetimes.
    ElisionAmbiguous,
    /// There are more than 4,095 lifetimes.
    TooManyLifetimes,
    /// The name of a declared lifetime isn't an identifier.
    BadIdent,
    /// There was no memory.
    NoMemory,
}

impl From<AllocError> for ElideFault {
    ghost use Rattle.std.specs.Prelude.{◌≡◌};
    ghost use Rattle.hir_elide.specs.declared.fault.ElideFault.{ElideFault};

    ghost from_gives = { λ _ fault. fault ≡ ElideFault.NoMemory };

    fn from(_refused: AllocError) -> ElideFault {
        ElideFault::NoMemory
    }
}
