//! Callbacks.

ghost use Rattle.std.specs.Prelude.{◌≡◌, option_copied, option_map};

use crate::paths::TraitPath;
use crate::positions::CallbackReturn;
use crate::returns::ReturnType;
use crate::types::OutType;
use bridge_decl::{IdentBuf, Items};
use hir_attrs::Attrs;
use hir_docs::Docs;
use hir_ids::Ident;

/// A function that a method is passed, or a method of a trait.
pub struct Callback {
    /// The trait that a method of a trait takes. None for a function.
    pub param_self: Option<TraitParamSelf>,
    /// What it takes.
    pub params: Items<CallbackParam>,
    /// What it returns.
    pub output: ReturnType<CallbackReturn>,
    /// The name of a method of a trait. None for a function.
    pub name: Option<Ident>,
    /// The marks of a method of a trait. None for a function.
    pub attrs: Option<Attrs>,
    /// What is documented of a method of a trait. None for a function.
    pub docs: Option<Docs>,
}

/// By hand, so that where one is let go the proof has one call.
impl Drop for Callback {
    fn drop(self) {
        let Callback {
            param_self: _,
            params: _,
            output: _,
            name: _,
            attrs: _,
            docs: _,
        } = self;
    }
}

/// The receiver of a method of a trait.
#[derive(Drop)]
pub struct TraitParamSelf {
    /// The trait.
    pub trait_path: TraitPath,
}

/// What a callback takes.
#[derive(Drop)]
pub struct CallbackParam {
    /// Its type.
    pub ty: OutType,
    /// Its name, where it has one.
    pub name: Option<IdentBuf>,
}

/// The callback at positions that have none: there is no such value.
#[derive(Clone, Copy)]
pub enum NoCallback {}

/// What is asked of the callback of any position. A callback that can't be there can't be lent
/// either, so each call takes what may be none.
pub trait CallbackInstantiationFunctionality {
    ghost use Rattle.std.specs.Prelude.{List, Option};
    ghost use Rattle.hir_types.specs.Callbacks.{of_some};
    ghost use Rattle.hir_types.specs.declared.callbacks.Callback.{Callback};

    /// The callback that it is.
    ghost callback_in: { Self → Option Callback };

    /// What the callback takes. None where there is no callback.
    fn get_inputs(callback: Option<&Self>) -> Option<&[CallbackParam]>
        ensures { option_copied result
            ≡ option_map (λ c. c.params) (of_some callback_in (option_copied callback.entry)) };

    /// What the callback returns. None where there is no callback.
    fn get_output_type(callback: Option<&Self>) -> Option<&ReturnType<CallbackReturn>>
        ensures { option_copied result
            ≡ option_map (λ c. c.output) (of_some callback_in (option_copied callback.entry)) };
}

impl CallbackInstantiationFunctionality for Callback {
    ghost use Rattle.std.specs.Prelude.{Some};

    ghost callback_in = { λ callback. Some callback };

    fn get_inputs(callback: Option<&Callback>) -> Option<&[CallbackParam]> {
        match callback {
            Some(callback) => Some(callback.params.as_slice()),
            None => None,
        }
    }

    fn get_output_type(callback: Option<&Callback>) -> Option<&ReturnType<CallbackReturn>> {
        match callback {
            Some(callback) => Some(&callback.output),
            None => None,
        }
    }
}

impl CallbackInstantiationFunctionality for NoCallback {
    ghost use Rattle.std.specs.Prelude.{None};

    ghost callback_in = { λ _. None };

    fn get_inputs(_callback: Option<&NoCallback>) -> Option<&[CallbackParam]> {
        None
    }

    fn get_output_type(_callback: Option<&NoCallback>) -> Option<&ReturnType<CallbackReturn>> {
        None
    }
}
