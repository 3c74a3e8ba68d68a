//! Methods and functions that are joined from their parts.

ghost use Rattle.std.specs.Prelude.{◌≡◌, IfOk, option_map};
ghost use Rattle.hir_form.specs.ReturnForms.{both_given};
ghost use Rattle.hir_methods.specs.Types.{typed_receiver, whole_of};
ghost use Rattle.hir_methods.specs.inside.Frames.{whole_in};
ghost use Rattle.hir_methods.specs.inside.Gathering.{gathered};

use crate::choosing::paired;
use crate::headings::Heading;
use crate::joining::{Lacking, join_beside};
use crate::params::UntypedParam;
use bridge_decl::{Items, NoMemory};
use hir_attrs::Attrs;
use hir_definitions::{Method, Param, ParamSelf};
use hir_ids::Ident;
use hir_life::LifetimeEnv;
use hir_signatures::SignatureTypes;
use hir_special::with_partial;
use hir_types::{HirType, InputOnly, OutputOnly, ReturnType, SelfType};
use std::alloc::Global;

impl Lacking for UntypedParam {
    ghost use Rattle.hir_methods.specs.Types.{typed_param};

    type Lack = HirType<InputOnly>;

    type Whole = Param;

    ghost whole = { typed_param };

    fn with(self, lack: HirType<InputOnly>) -> Param {
        let UntypedParam { name, attrs } = self;
        Param {
            name,
            ty: lack,
            attrs,
        }
    }
}

/// A method or a function without its parameters.
#[derive(Drop)]
pub struct Frame {
    /// What it has beside its marks and its types.
    pub heading: Heading,
    /// Its marks.
    pub attrs: Attrs,
    /// The lifetimes of its signature.
    pub lifetime_env: LifetimeEnv,
    /// Its receiver.
    pub param_self: Option<ParamSelf>,
    /// What it returns.
    pub output: ReturnType<OutputOnly>,
}

/// A receiver, where it has a type and marks.
fn typed_receiver(ty: Option<SelfType>, attrs: Option<Attrs>) -> Option<ParamSelf>
    ensures { result ≡ both_given typed_receiver ty attrs }
{
    match paired(ty, attrs) {
        Some((ty, attrs)) => Some(ParamSelf { ty, attrs }),
        None => None,
    }
}

/// It with its parameters.
fn framed(frame: Frame, params: Items<Param>) -> Method
    ensures { result ≡ whole_in frame params }
{
    let Frame {
        heading,
        attrs,
        lifetime_env,
        param_self,
        output,
    } = frame;
    let Heading {
        docs,
        name,
        abi_name,
    } = heading;
    Method {
        docs,
        name: Ident::new(name),
        abi_name,
        lifetime_env,
        param_self,
        params,
        output,
        attrs,
    }
}

/// A method or a function without types.
#[derive(Drop)]
pub struct Untyped {
    /// What it has beside its marks and its types.
    pub heading: Heading,
    /// The marks of its receiver, where it has one.
    pub receiver: Option<Attrs>,
    /// Its parameters.
    pub params: Items<UntypedParam>,
}

/// A method or a function of these parts.
fn join_types(
    alloc: Global,
    attrs: Attrs,
    untyped: Untyped,
    it: SignatureTypes,
) -> Result<Method, NoMemory>
    ensures { IfOk result (λ made. made
        ≡ whole_of attrs untyped.heading untyped.receiver untyped.params it) }
{
    let Untyped {
        heading,
        receiver,
        params,
    } = untyped;
    let SignatureTypes { types, lifetimes } = it;
    let attrs = with_partial(attrs, &types.output);
    let frame = Frame {
        heading,
        attrs,
        lifetime_env: lifetimes,
        param_self: typed_receiver(types.param_self, receiver),
        output: types.output,
    };
    let (frame, params) = join_beside(alloc, frame, params, types.params)?;
    Ok(framed(frame, params))
}

/// The same, where there are the parts.
pub(crate) fn join_whole(
    alloc: Global,
    attrs: Attrs,
    parts: Option<(Untyped, SignatureTypes)>,
) -> Result<Option<Method>, NoMemory>
    ensures { IfOk result (λ made. made ≡ option_map
        (λ p. whole_of attrs p.0.heading p.0.receiver p.0.params p.1) parts) }
{
    match parts {
        Some((untyped, it)) => {
            let method = join_types(alloc, attrs, untyped, it)?;
            Ok(Some(method))
        }
        None => Ok(None),
    }
}

/// A method or a function without types, where there are its heading and its parameters.
pub(crate) fn gather(
    heading: Option<Heading>,
    receiver: Option<Attrs>,
    params: Option<Items<UntypedParam>>,
) -> Option<Untyped>
    ensures { result ≡ gathered heading receiver params }
{
    match paired(heading, params) {
        Some((heading, params)) => Some(Untyped {
            heading,
            receiver,
            params,
        }),
        None => None,
    }
}
