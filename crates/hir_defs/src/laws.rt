//! The law of positions that callers may rely on: the contract of a function without a body.

ghost use Rattle.std.specs.Prelude.{◌≡◌, true, false};
ghost use Rattle.hir_defs.specs.Defined.{defines_structs};

use hir_types::{CallbackReturn, Everywhere, InputOnly, OutputOnly, TyPosition};

/// Structs are defined for the fields of structs and for what is returned, and nowhere else.
pub fn positions_define_structs()
    ensures everywhere { defines_structs ⟦<Everywhere as TyPosition>⟧.IN_OUT_STATUS ≡ true }
    ensures output { defines_structs ⟦<OutputOnly as TyPosition>⟧.IN_OUT_STATUS ≡ true }
    ensures input { defines_structs ⟦<InputOnly as TyPosition>⟧.IN_OUT_STATUS ≡ false }
    ensures of_callback { defines_structs ⟦<CallbackReturn as TyPosition>⟧.IN_OUT_STATUS
        ≡ false }
{}
