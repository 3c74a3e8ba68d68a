//! What positions make of callbacks and of paths to traits.

ghost use Rattle.std.specs.Prelude.{◌≡◌, None, Some, Option, option_copied};
ghost use Rattle.std.proofs.Common.{rules};
ghost use Rattle.hir_types.specs.Callbacks.{of_some};
ghost use Rattle.hir_types.specs.declared.callbacks.Callback.{Callback};
ghost use Rattle.hir_types.specs.declared.paths.TraitPath.{TraitPath};
ghost use Rattle.hir_ids.specs.declared.owners.InputOrOutput.{InputOrOutput};

use crate::callbacks::{Callback, NoCallback};
use crate::paths::{NoTraitPath, TraitPath};
use crate::positions::{CallbackReturn, Everywhere, InputOnly, OutputOnly, TyPosition};

/// What is made of callbacks and of paths to traits at a position. It stands apart from
/// [`TyPosition`], since a callback is made of types at other positions.
pub trait PositionTypes: TyPosition {
    /// The callback that stands here.
    ghost callback_of: { Self.CallbackInstantiation → Option Callback };

    /// What a callback is here, where the position has callbacks.
    ghost callback_here: { Callback → Option Self.CallbackInstantiation };

    /// What a path to a trait is here, where the position has traits.
    ghost trait_path_here: { TraitPath → Option Self.TraitPath };

    /// The callback that stands here, lent. None where nothing was lent, or where the position has
    /// no callbacks.
    fn callback(cb: Option<&Self::CallbackInstantiation>) -> Option<&Callback>
        ensures { option_copied result ≡ of_some callback_of (option_copied cb.entry) };

    /// The callback as it stands here. None exactly where the position has no callbacks.
    fn build_callback(cb: Callback) -> Option<Self::CallbackInstantiation>
        ensures { result ≡ callback_here cb };

    /// The path to a trait as it stands here. None exactly where the position has no traits.
    fn build_trait_path(trait_path: TraitPath) -> Option<Self::TraitPath>
        ensures { result ≡ trait_path_here trait_path };

    /// What was made of a callback stands for that callback.
    ghost built_is_callback: { (cb : Callback) (made : Self.CallbackInstantiation)
        → callback_here cb ≡ Some made → callback_of made ≡ Some cb };

    /// Positions that have callbacks are those of inputs.
    ghost callbacks_are_inputs: { (cb : Callback) (made : Self.CallbackInstantiation)
        → callback_here cb ≡ Some made → Self.IN_OUT_STATUS ≡ InputOrOutput.Input };

    /// Positions that have traits are those of inputs.
    ghost traits_are_inputs: { (path : TraitPath) (made : Self.TraitPath)
        → trait_path_here path ≡ Some made → Self.IN_OUT_STATUS ≡ InputOrOutput.Input };
}

/// No callback, of one that is let go: once for all positions that have none, since what a callback
/// holds is much to let go.
fn no_callback(_cb: Callback) -> Option<NoCallback>
    ensures { result ≡ None }
{
    None
}

impl PositionTypes for Everywhere {
    ghost callback_of = { λ _. None };

    ghost callback_here = { λ _. None };

    ghost trait_path_here = { λ _. None };

    ghost built_is_callback = { Prim.search rules };

    ghost callbacks_are_inputs = { Prim.search rules };

    ghost traits_are_inputs = { Prim.search rules };

    fn callback(_cb: Option<&NoCallback>) -> Option<&Callback> {
        None
    }

    fn build_callback(cb: Callback) -> Option<NoCallback> {
        no_callback(cb)
    }

    fn build_trait_path(_trait_path: TraitPath) -> Option<NoTraitPath> {
        None
    }
}

impl PositionTypes for OutputOnly {
    ghost callback_of = { λ _. None };

    ghost callback_here = { λ _. None };

    ghost trait_path_here = { λ _. None };

    ghost built_is_callback = { Prim.search rules };

    ghost callbacks_are_inputs = { Prim.search rules };

    ghost traits_are_inputs = { Prim.search rules };

    fn callback(_cb: Option<&NoCallback>) -> Option<&Callback> {
        None
    }

    fn build_callback(cb: Callback) -> Option<NoCallback> {
        no_callback(cb)
    }

    fn build_trait_path(_trait_path: TraitPath) -> Option<NoTraitPath> {
        None
    }
}

impl PositionTypes for CallbackReturn {
    ghost callback_of = { λ _. None };

    ghost callback_here = { λ _. None };

    ghost trait_path_here = { λ path. Some path };

    ghost built_is_callback = { Prim.search rules };

    ghost callbacks_are_inputs = { Prim.search rules };

    ghost traits_are_inputs = { Prim.search rules };

    fn callback(_cb: Option<&NoCallback>) -> Option<&Callback> {
        None
    }

    fn build_callback(cb: Callback) -> Option<NoCallback> {
        no_callback(cb)
    }

    fn build_trait_path(trait_path: TraitPath) -> Option<TraitPath> {
        Some(trait_path)
    }
}

impl PositionTypes for InputOnly {
    ghost callback_of = { λ cb. Some cb };

    ghost callback_here = { λ cb. Some cb };

    ghost trait_path_here = { λ path. Some path };

    ghost built_is_callback = { Prim.search rules };

    ghost callbacks_are_inputs = { Prim.search rules };

    ghost traits_are_inputs = { Prim.search rules };

    fn callback(cb: Option<&Callback>) -> Option<&Callback> {
        cb
    }

    fn build_callback(cb: Callback) -> Option<Callback> {
        Some(cb)
    }

    fn build_trait_path(trait_path: TraitPath) -> Option<TraitPath> {
        Some(trait_path)
    }
}
