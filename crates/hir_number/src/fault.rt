//! Why a type, a signature or a definition has no numbers.

use hir_elide::ElideFault;
use std::alloc::AllocError;

/// Why a type, a signature or a definition has no numbers.
#[derive(Clone, Copy, Debug, PartialEq, Eq)]
pub enum NumberFault {
    /// A path names nothing.
    UnresolvedPath,
    /// A path writes more lifetimes than its definition has.
    LifetimeArity,
    /// A lifetime has no number.
    Elide(ElideFault),
    /// There was no memory.
    NoMemory,
}

impl From<AllocError> for NumberFault {
    ghost use Rattle.std.specs.Prelude.{◌≡◌};
    ghost use Rattle.hir_number.specs.declared.fault.NumberFault.{NumberFault};

    ghost from_gives = { λ _ fault. fault ≡ NumberFault.NoMemory };

    fn from(_refused: AllocError) -> NumberFault {
        NumberFault::NoMemory
    }
}

impl From<ElideFault> for NumberFault {
    ghost use Rattle.std.specs.Prelude.{◌≡◌};
    ghost use Rattle.hir_number.specs.Faults.{of_elide};

    ghost from_gives = { λ elide fault. fault ≡ of_elide elide };

    fn from(fault: ElideFault) -> NumberFault {
        match fault {
            ElideFault::NoMemory => NumberFault::NoMemory,
            _ => NumberFault::Elide(fault),
        }
    }
}
