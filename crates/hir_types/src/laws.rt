//! Laws of positions that callers may rely on: each is the contract of a function without a body.

ghost use Rattle.std.specs.Prelude.{◌≡◌, Some, None};
ghost use Rattle.hir_ids.specs.declared.owners.InputOrOutput.{InputOrOutput};
ghost use Rattle.hir_types.specs.declared.callbacks.Callback.{Callback};
ghost use Rattle.hir_types.specs.declared.paths.TraitPath.{TraitPath};

use crate::position_types::PositionTypes;
use crate::positions::{CallbackReturn, Everywhere, InputOnly, OutputOnly, TyPosition};

/// A callback is itself where a method takes it, and is nothing at any other position.
pub fn callbacks_come_in()
    ensures built { (cb : Callback)
        → ⟦<InputOnly as PositionTypes>⟧.callback_here cb ≡ Some cb }
    ensures lent { (cb : Callback)
        → ⟦<InputOnly as PositionTypes>⟧.callback_of cb ≡ Some cb }
    ensures everywhere { (cb : Callback)
        → ⟦<Everywhere as PositionTypes>⟧.callback_here cb ≡ None }
    ensures output { (cb : Callback)
        → ⟦<OutputOnly as PositionTypes>⟧.callback_here cb ≡ None }
    ensures returned_by_callback { (cb : Callback)
        → ⟦<CallbackReturn as PositionTypes>⟧.callback_here cb ≡ None }
{}

/// A path to a trait is itself where it comes in, and is nothing at any other position.
pub fn traits_come_in()
    ensures input { (path : TraitPath)
        → ⟦<InputOnly as PositionTypes>⟧.trait_path_here path ≡ Some path }
    ensures returned_by_callback { (path : TraitPath)
        → ⟦<CallbackReturn as PositionTypes>⟧.trait_path_here path ≡ Some path }
    ensures everywhere { (path : TraitPath)
        → ⟦<Everywhere as PositionTypes>⟧.trait_path_here path ≡ None }
    ensures output { (path : TraitPath)
        → ⟦<OutputOnly as PositionTypes>⟧.trait_path_here path ≡ None }
{}

/// The status of each position.
pub fn statuses()
    ensures everywhere { ⟦<Everywhere as TyPosition>⟧.IN_OUT_STATUS
        ≡ InputOrOutput.InputOutput }
    ensures input { ⟦<InputOnly as TyPosition>⟧.IN_OUT_STATUS ≡ InputOrOutput.Input }
    ensures output { ⟦<OutputOnly as TyPosition>⟧.IN_OUT_STATUS ≡ InputOrOutput.Output }
    ensures returned_by_callback { ⟦<CallbackReturn as TyPosition>⟧.IN_OUT_STATUS
        ≡ InputOrOutput.Input }
{}
