//! Parameters, receivers and methods.

ghost use Rattle.std.specs.Prelude.{◌≡◌, ◌∷◌, IfOk, List};
ghost use Rattle.serde_json.specs.Data.{Data};
ghost use Rattle.bridge_form.specs.declared.keys.Key.{Key as Name};
ghost use Rattle.bridge_form.specs.Form.{read_alone};
ghost use Rattle.bridge_read.specs.forms.Methods.{method_head, or_else, signature, trait_signature};
ghost use Rattle.bridge_form.specs.Left.{IsLeft};
ghost use Rattle.bridge_read_parts.specs.Taking.{Takes};

use crate::InputForms;
use bridge_ast::{
    Items, LifetimeEnv, LifetimeNode, Method, NoMemory, Param, PathType, SelfParam, Text,
    TraitMethod, TraitSelfParam, TypeName,
};
use bridge_form::{Fields, Key, Read};
use bridge_read_parts::{
    FromForm, documented, held, listed, needed, no_attrs, optional, read_object,
};
use serde_json::Value;
use std::alloc::Global;

/// The name that is given, or the one that its absence stands for.
pub fn or_name(alloc: Global, name: &Text, given: Option<Text>) -> Result<Text, NoMemory>
    ensures { IfOk result (λ text. text ≡ or_else name.now given) }
{
    match given {
        Some(given) => Ok(given),
        None => name.try_clone(alloc),
    }
}

#[tactic(auto, unfolding(crate::specs::forms::Methods::param, bridge_form::specs::Left::are_apart, bridge_form::specs::Keys::key_text))]
impl FromForm<InputForms> for Param {
    ghost use Rattle.bridge_read.specs.forms.Methods.{param};

    ghost form = { param.read };

    fn from_form(alloc: Global, value: Value) -> Read<Param> {
        read_object!(alloc, value, left, {
            Name => name = needed(alloc, &mut left)?;
            Ty => ty = needed(alloc, &mut left)?;
            Attrs => attrs = held(alloc, &mut left, no_attrs(alloc))?;
        } Ok(Param { name, ty, attrs }))
    }
}

#[tactic(auto, unfolding(crate::specs::forms::Methods::receiver, bridge_form::specs::Left::are_apart, bridge_form::specs::Keys::key_text))]
impl FromForm<InputForms> for SelfParam {
    ghost use Rattle.bridge_read.specs.forms.Methods.{receiver};

    ghost form = { receiver.read };

    fn from_form(alloc: Global, value: Value) -> Read<SelfParam> {
        read_object!(alloc, value, left, {
            Reference => reference = optional(alloc, &mut left)?;
            Path => path_type = needed(alloc, &mut left)?;
            Attrs => attrs = held(alloc, &mut left, no_attrs(alloc))?;
        } Ok(SelfParam { reference, path_type, attrs }))
    }
}

/// The lifetimes, the parameters and the return of a method or function.
#[derive(Drop)]
pub struct Signature {
    /// The declared lifetimes.
    pub nodes: Items<LifetimeNode>,
    /// The parameters.
    pub params: Items<Param>,
    /// The type of the return, if one is written.
    pub returned: Option<TypeName>,
}

/// The signature of a method or function.
#[tactic(auto, unfolding(crate::specs::forms::Methods::signature))]
pub fn signed(alloc: Global, left: &mut Fields) -> Read<Signature>
    ensures { (keys : List Name) (d : Data)
        → IsLeft left.old (Key.Lifetimes ∷ Key.Params ∷ Key.Ret ∷ keys) d
        → Takes result (read_alone signature d) left.new keys d }
{
    Ok(Signature {
        nodes: listed(alloc, left)?,
        params: listed(alloc, left)?,
        returned: optional(alloc, left)?,
    })
}

/// What stands before the signature of a method.
#[derive(Drop)]
pub struct MethodHead {
    /// The name.
    pub name: Text,
    /// The name of the exported symbol.
    pub abi_name: Text,
    /// The type that the method belongs to.
    pub self_type: PathType,
    /// The receiver, if there is one.
    pub self_param: Option<SelfParam>,
}

/// What stands before the signature of a method.
#[tactic(auto, unfolding(crate::specs::forms::Methods::method_head))]
fn method_head(alloc: Global, left: &mut Fields) -> Read<MethodHead>
    ensures { (keys : List Name) (d : Data)
        → IsLeft left.old (Key.Name ∷ Key.AbiName ∷ Key.SelfType ∷ Key.Itself ∷ keys) d
        → Takes result (read_alone method_head d) left.new keys d }
{
    let name = needed(alloc, left)?;
    let abi_name = or_name(alloc, &name, optional(alloc, left)?)?;
    let self_type = needed(alloc, left)?;
    let self_param = optional(alloc, left)?;
    Ok(MethodHead {
        abi_name,
        name,
        self_type,
        self_param,
    })
}

#[tactic(auto, unfolding(crate::specs::forms::Methods::method, crate::specs::forms::Methods::method_head, crate::specs::forms::Methods::signature, bridge_read_parts::specs::forms::Docs::documented, bridge_form::specs::Left::are_apart, bridge_form::specs::Keys::key_text))]
impl FromForm<InputForms> for Method {
    ghost use Rattle.bridge_read.specs.forms.Methods.{method};

    ghost form = { method.read };

    fn from_form(alloc: Global, value: Value) -> Read<Method> {
        read_object!(alloc, value, left, {
            Name AbiName SelfType Itself => head = method_head(alloc, &mut left)?;
            Lifetimes Params Ret => signature = signed(alloc, &mut left)?;
            Docs Attrs => (docs, attrs) = documented(alloc, &mut left)?;
        } Ok(Method {
            name: head.name,
            abi_name: head.abi_name,
            self_type: head.self_type,
            self_param: head.self_param,
            lifetime_env: LifetimeEnv { nodes: signature.nodes },
            params: signature.params,
            return_type: signature.returned,
            docs,
            attrs,
        }))
    }
}

#[tactic(auto, unfolding(crate::specs::forms::Methods::trait_receiver, bridge_form::specs::Left::are_apart, bridge_form::specs::Keys::key_text))]
impl FromForm<InputForms> for TraitSelfParam {
    ghost use Rattle.bridge_read.specs.forms.Methods.{trait_receiver};

    ghost form = { trait_receiver.read };

    fn from_form(alloc: Global, value: Value) -> Read<TraitSelfParam> {
        read_object!(alloc, value, left, {
            Reference => reference = optional(alloc, &mut left)?;
            Path => path_trait = needed(alloc, &mut left)?;
        } Ok(TraitSelfParam { reference, path_trait }))
    }
}

/// What stands between the name of a trait's method and its documentation.
#[derive(Drop)]
pub struct TraitSignature {
    /// The declared lifetimes.
    pub nodes: Items<LifetimeNode>,
    /// The receiver, if there is one.
    pub self_param: Option<TraitSelfParam>,
    /// The parameters.
    pub params: Items<Param>,
    /// The type of the return, if one is written.
    pub returned: Option<TypeName>,
}

/// What stands between the name of a trait's method and its documentation.
#[tactic(auto, unfolding(crate::specs::forms::Methods::trait_signature))]
fn trait_signed(alloc: Global, left: &mut Fields) -> Read<TraitSignature>
    ensures { (keys : List Name) (d : Data)
        → IsLeft left.old (Key.Lifetimes ∷ Key.Itself ∷ Key.Params ∷ Key.Ret ∷ keys) d
        → Takes result (read_alone trait_signature d) left.new keys d }
{
    Ok(TraitSignature {
        nodes: listed(alloc, left)?,
        self_param: optional(alloc, left)?,
        params: listed(alloc, left)?,
        returned: optional(alloc, left)?,
    })
}

#[tactic(auto, unfolding(crate::specs::forms::Methods::trait_method, crate::specs::forms::Methods::trait_signature, bridge_read_parts::specs::forms::Docs::documented, bridge_form::specs::Left::are_apart, bridge_form::specs::Keys::key_text))]
impl FromForm<InputForms> for TraitMethod {
    ghost use Rattle.bridge_read.specs.forms.Methods.{trait_method};

    ghost form = { trait_method.read };

    fn from_form(alloc: Global, value: Value) -> Read<TraitMethod> {
        read_object!(alloc, value, left, {
            Name => name = needed(alloc, &mut left)?;
            Lifetimes Itself Params Ret => signature = trait_signed(alloc, &mut left)?;
            Docs Attrs => (docs, attrs) = documented(alloc, &mut left)?;
        } Ok(TraitMethod {
            name,
            lifetimes: LifetimeEnv { nodes: signature.nodes },
            self_param: signature.self_param,
            params: signature.params,
            output_type: signature.returned,
            docs,
            attrs,
        }))
    }
}
