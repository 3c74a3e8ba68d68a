//! Methods in a notation, and the contexts that they stand in.

ghost use Rattle.std.specs.Prelude.{◌≡◌, IfOk};
ghost use Rattle.hir_context.specs.Fitness.{MethodFits};
ghost use Rattle.hir_life.specs.Environment.{IsSound};

use crate::tests::made::{
    Head, Made, Named, Of, add_structs, common_parts, in_root, lifetime_list, named, nameless,
    opaque_with, struct_path, type_of,
};
use bridge_decl::{IdentBuf, Items, NoMemory};
use hir_attrs::Attrs;
use hir_borrow::methods_of_contexts_fit;
use hir_context::{ContextParts, TypeContext};
use hir_definitions::{Method, Param, ParamSelf};
use hir_ids::MaybeOwn;
use hir_life::{BoundedLifetime, Lifetime, LifetimeEnv, LifetimeList, Lifetimes};
use hir_types::{HirType, InputOnly, OutputOnly, ReturnType, SelfType, SuccessType};
use std::alloc::Global;
use std::test::Fail;

/// A method.
#[derive(Clone, Copy)]
pub struct Signature {
    /// Whether its first two lifetimes have names, as `'a` and `'b: 'a`.
    pub bounded: bool,
    /// How many lifetimes it has.
    pub count: usize,
    /// The struct that it is a method of, by its place and its lifetimes.
    pub receiver: Option<(usize, &'static [usize])>,
    /// What it takes.
    pub params: Named,
    /// The lifetimes of the opaque that it returns.
    pub returned: &'static [usize],
}

/// A named lifetime.
fn node(
    alloc: Global,
    name: &str,
    longer: &[Lifetime],
    shorter: &[Lifetime],
) -> Result<BoundedLifetime, Fail>
    ensures { IfOk result
        (λ node. (node.longer ≡ longer.now) × (node.shorter ≡ shorter.now)) }
{
    let ident = IdentBuf::new(alloc, name)?;
    Ok(BoundedLifetime {
        ident,
        longer: LifetimeList::from_slice(alloc, longer)?,
        shorter: LifetimeList::from_slice(alloc, shorter)?,
    })
}

/// `'a` and `'b: 'a`.
fn bounds(alloc: Global) -> Result<Items<BoundedLifetime>, Fail>
    ensures { IfOk result (λ nodes. IsSound (record { bounds = nodes; count = 2 })) }
{
    let mut nodes = Items::new(alloc);
    nodes.push(node(alloc, "a", &[Lifetime::new(1)], &[])?)?;
    nodes.push(node(alloc, "b", &[], &[Lifetime::new(0)])?)?;
    Ok(nodes)
}

/// The lifetimes of a method.
fn environment(alloc: Global, signature: &Signature) -> Result<LifetimeEnv, Fail> {
    if signature.bounded && signature.count >= 2 {
        let mut env = LifetimeEnv::new(bounds(alloc)?, 2);
        for _ in 2..signature.count {
            if env.num_lifetimes() < usize::MAX {
                env.add_anonymous();
            }
        }
        return Ok(env);
    }
    Ok(nameless(alloc, signature.count))
}

/// A parameter of this type.
fn param_of(alloc: Global, ty: HirType<InputOnly>, name: IdentBuf) -> Param {
    let attrs = Attrs::empty(alloc);
    Param { name, ty, attrs }
}

/// A parameter.
fn param(alloc: Global, called: &str, of: &Of) -> Result<Param, Fail> {
    let name = IdentBuf::new(alloc, called)?;
    let ty = type_of(alloc, of)?;
    Ok(param_of(alloc, ty, name))
}

/// What a method takes.
fn params(alloc: Global, all: &[(&str, Of)]) -> Result<Items<Param>, Fail> {
    let mut params = Items::new(alloc);
    for (called, of) in all {
        params.push(param(alloc, called, of)?)?;
    }
    Ok(params)
}

/// The receiver, where there is one.
fn receiver(
    alloc: Global,
    of: &Option<(usize, &'static [usize])>,
) -> Result<Option<ParamSelf>, NoMemory> {
    match of {
        Some((place, numbers)) => {
            let path = struct_path(alloc, MaybeOwn::Own, *place, numbers)?;
            Ok(Some(ParamSelf {
                ty: SelfType::Struct(path),
                attrs: Attrs::empty(alloc),
            }))
        }
        None => Ok(None),
    }
}

/// What a method returns: a boxed opaque with these lifetimes.
fn output(lifetimes: Lifetimes) -> ReturnType<OutputOnly> {
    let path = opaque_with(MaybeOwn::Own, lifetimes);
    ReturnType::Infallible(SuccessType::OutType(HirType::Opaque(path)))
}

/// What a method has but names.
#[derive(Drop)]
struct Parts {
    lifetimes: LifetimeEnv,
    receiver: Option<ParamSelf>,
    params: Items<Param>,
    output: ReturnType<OutputOnly>,
}

/// That of the signature.
fn parts_of(alloc: Global, signature: &Signature) -> Result<Parts, Fail> {
    let lifetimes = environment(alloc, signature)?;
    let params = params(alloc, signature.params)?;
    let returned = lifetime_list(alloc, signature.returned)?;
    let receiver = receiver(alloc, &signature.receiver)?;
    Ok(Parts {
        lifetimes,
        receiver,
        params,
        output: output(returned),
    })
}

/// A method of these parts.
fn method_of(alloc: Global, head: Head, abi_name: IdentBuf, parts: Parts) -> Method {
    Method {
        docs: head.docs,
        name: head.name,
        abi_name,
        lifetime_env: parts.lifetimes,
        param_self: parts.receiver,
        params: parts.params,
        output: parts.output,
        attrs: Attrs::empty(alloc),
    }
}

/// The method.
fn method(alloc: Global, signature: &Signature) -> Result<Method, Fail> {
    let head = named(alloc, "visit")?;
    let abi_name = IdentBuf::new(alloc, "symbol")?;
    let parts = parts_of(alloc, signature)?;
    Ok(method_of(alloc, head, abi_name, parts))
}

/// Adds the method as a function.
fn add_function(
    alloc: Global,
    parts: &mut ContextParts,
    signature: &Signature,
) -> Result<(), Fail> {
    let def = method(alloc, signature)?;
    parts.functions.push(in_root(alloc, def))?;
    Ok(())
}

/// The context of these parts.
pub fn made(alloc: Global, parts: ContextParts) -> Result<TypeContext, Fail> {
    match TypeContext::new(alloc, parts) {
        Ok(tcx) => Ok(tcx),
        Err(_) => Err(Fail::from("there is no context")),
    }
}

/// The context of these parts, with the method as its only function.
pub fn context_of(
    alloc: Global,
    parts: ContextParts,
    signature: &Signature,
) -> Result<TypeContext, Fail> {
    let mut parts = parts;
    add_function(alloc, &mut parts, signature)?;
    made(alloc, parts)
}

/// The context of these structs, with the method as its only function.
pub fn context(
    alloc: Global,
    structs: &[Made],
    signature: &Signature,
) -> Result<TypeContext, Fail> {
    let mut parts = common_parts(alloc)?;
    add_structs(alloc, &mut parts, structs)?;
    context_of(alloc, parts, signature)
}

/// The function of a context, which fits it.
pub fn function(tcx: &TypeContext) -> Result<&Method, Fail>
    ensures { IfOk result (λ m. MethodFits tcx.now.definitions m.now) }
{
    methods_of_contexts_fit();
    match tcx.functions().first() {
        Some(method) => Ok(method),
        None => Err(Fail::from("there is no function")),
    }
}
