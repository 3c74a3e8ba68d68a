//! Why nothing was made.

use bridge_decl::NoMemory;

/// Why a type isn't lowered.
#[derive(Clone, Copy)]
pub enum Stop {
    /// The type may not stand here.
    Refused,
    /// There was no memory.
    NoMemory,
}

impl From<NoMemory> for Stop {
    ghost use Rattle.std.specs.Prelude.{◌≡◌};
    ghost use Rattle.hir_form.specs.declared.stop.Stop.{Stop};

    ghost from_gives = { λ _ stop. stop ≡ Stop.NoMemory };

    fn from(_refused: NoMemory) -> Stop {
        Stop::NoMemory
    }
}
