//! Methods of traits that are joined from their parts.

ghost use Rattle.std.specs.Prelude.{◌≡◌, IfOk, option_map};
ghost use Rattle.hir_traits.specs.TraitMethods.{method_callback};
ghost use Rattle.hir_traits.specs.inside.Parts.{callback_in};

use crate::heads::{NamedParam, TraitMethodHead};
use crate::judging::TraitMethodTypes;
use bridge_decl::{IdentBuf, Items, NoMemory};
use hir_attrs::Attrs;
use hir_docs::Docs;
use hir_ids::Ident;
use hir_methods::{Lacking, join_beside};
use hir_types::{Callback, CallbackParam, CallbackReturn, OutType, ReturnType, TraitParamSelf};
use std::alloc::Global;

impl Lacking for NamedParam {
    ghost use Rattle.hir_traits.specs.TraitMethods.{callback_param};

    type Lack = OutType;

    type Whole = CallbackParam;

    ghost whole = { callback_param };

    fn with(self, lack: OutType) -> CallbackParam {
        CallbackParam {
            ty: lack,
            name: Some(self.name),
        }
    }
}

/// A method without its parameters.
#[derive(Drop)]
pub struct CallbackFrame {
    /// What is documented.
    pub docs: Docs,
    /// Its name.
    pub name: IdentBuf,
    /// Its marks.
    pub attrs: Attrs,
    /// Its receiver.
    pub param_self: Option<TraitParamSelf>,
    /// What it returns.
    pub output: ReturnType<CallbackReturn>,
}

/// It with its parameters.
fn framed(frame: CallbackFrame, params: Items<CallbackParam>) -> Callback
    ensures { result ≡ callback_in frame params }
{
    let CallbackFrame {
        docs,
        name,
        attrs,
        param_self,
        output,
    } = frame;
    Callback {
        param_self,
        params,
        output,
        name: Some(Ident::new(name)),
        attrs: Some(attrs),
        docs: Some(docs),
    }
}

/// A method of these parts.
fn join_types(
    alloc: Global,
    attrs: Attrs,
    head: TraitMethodHead,
    types: TraitMethodTypes,
) -> Result<Callback, NoMemory>
    ensures { IfOk result (λ made. made ≡ method_callback attrs head types) }
{
    let TraitMethodHead { docs, name, params } = head;
    let frame = CallbackFrame {
        docs,
        name,
        attrs,
        param_self: types.param_self,
        output: types.output,
    };
    let (frame, params) = join_beside(alloc, frame, params, types.params)?;
    Ok(framed(frame, params))
}

/// The same, where there are the parts.
pub fn join_whole(
    alloc: Global,
    attrs: Attrs,
    parts: Option<(TraitMethodHead, TraitMethodTypes)>,
) -> Result<Option<Callback>, NoMemory>
    ensures { IfOk result (λ made. made
        ≡ option_map (λ p. method_callback attrs p.0 p.1) parts) }
{
    match parts {
        Some((head, types)) => {
            let method = join_types(alloc, attrs, head, types)?;
            Ok(Some(method))
        }
        None => Ok(None),
    }
}
