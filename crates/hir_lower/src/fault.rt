//! Why declarations make no context.

use hir_reports::LoweringReport;
use std::alloc::AllocError;

/// Why declarations make no context.
#[derive(Drop)]
pub enum LowerFault {
    /// Something in them is wrong: this is told. The list is never empty.
    Refused(Vec<LoweringReport>),
    /// There was no memory.
    NoMemory,
}

impl From<AllocError> for LowerFault {
    ghost use Rattle.std.specs.Prelude.{◌≡◌};
    ghost use Rattle.hir_lower.specs.declared.fault.LowerFault.{LowerFault};

    ghost from_gives = { λ _ fault. fault ≡ LowerFault.NoMemory };

    fn from(_refused: AllocError) -> LowerFault {
        LowerFault::NoMemory
    }
}
