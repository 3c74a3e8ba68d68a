//! Functions.

ghost use Rattle.std.specs.Prelude.{◌≡◌, ◌++◌, codes, IfOk, OnOk};
ghost use Rattle.bridge_generate.specs.Generated.{function_numbered, functions_below, opaque_borrowed_for, outlived, outliving, params_of, plain_param, struct_by_value, two_lifetimes};

use crate::names::function_name;
use crate::parts::{one, plain_attrs, plain_docs};
use crate::types::{opaque_borrowed_for, struct_by_value};
use bridge_ast::{
    Function, Item, Items, LifetimeEnv, LifetimeNode, NoMemory, Param, Text, TypeName,
};
use std::alloc::Global;

/// `'a`, which the lifetime number 1 outlives.
fn outlived(alloc: Global) -> Result<LifetimeNode, NoMemory>
    ensures { IfOk result (λ node. node ≡ outlived) }
{
    Ok(LifetimeNode {
        name: Text::new(alloc, "a")?,
        longer: one(alloc, 1)?,
        shorter: Items::new(alloc),
    })
}

/// `'b`, which outlives the lifetime number 0.
fn outliving(alloc: Global) -> Result<LifetimeNode, NoMemory>
    ensures { IfOk result (λ node. node ≡ outliving) }
{
    Ok(LifetimeNode {
        name: Text::new(alloc, "b")?,
        longer: Items::new(alloc),
        shorter: one(alloc, 0)?,
    })
}

/// `<'a, 'b: 'a>`.
fn two_lifetimes(alloc: Global) -> Result<LifetimeEnv, NoMemory>
    ensures { IfOk result (λ lifetimes. lifetimes ≡ two_lifetimes) }
{
    let mut nodes = one(alloc, outlived(alloc)?)?;
    nodes.push(outliving(alloc)?)?;
    Ok(LifetimeEnv { nodes })
}

/// A parameter of the name and the type.
fn plain_param(alloc: Global, name: Text, ty: TypeName) -> Param
    ensures { result ≡ plain_param name ty }
{
    Param {
        name,
        ty,
        attrs: plain_attrs(alloc),
    }
}

/// `p: S7<'a>`, by the struct's number.
fn struct_param(alloc: Global, number: usize) -> Result<Param, NoMemory>
    ensures { IfOk result (λ it. it ≡ plain_param (codes "p") (struct_by_value number)) }
{
    let name = Text::new(alloc, "p")?;
    let ty = struct_by_value(alloc, number)?;
    Ok(plain_param(alloc, name, ty))
}

/// `q: &'b O`.
fn opaque_param(alloc: Global) -> Result<Param, NoMemory>
    ensures { IfOk result
        (λ it. it ≡ plain_param (codes "q") (opaque_borrowed_for (codes "b"))) }
{
    let name = Text::new(alloc, "q")?;
    let ty = opaque_borrowed_for(alloc, "b")?;
    Ok(plain_param(alloc, name, ty))
}

/// The parameters of the function of a number.
fn params_of(alloc: Global, number: usize) -> Result<Items<Param>, NoMemory>
    ensures { IfOk result (λ params. params ≡ params_of number) }
{
    let mut params = one(alloc, struct_param(alloc, number)?)?;
    params.push(opaque_param(alloc)?)?;
    Ok(params)
}

/// The function of a number.
fn function_numbered(alloc: Global, number: usize) -> Result<Function, NoMemory>
    ensures { IfOk result (λ it. it ≡ function_numbered number) }
{
    let name = function_name(alloc, number)?;
    let abi_name = name.try_clone(alloc)?;
    let lifetimes = two_lifetimes(alloc)?;
    let params = params_of(alloc, number)?;
    let output = opaque_borrowed_for(alloc, "a")?;
    Ok(Function {
        name,
        abi_name,
        lifetimes,
        params,
        output_type: Some(output),
        docs: plain_docs(alloc),
        attrs: plain_attrs(alloc),
    })
}

/// Adds so many functions, by their numbers from 0.
#[tactic(auto, unfolding(crate::specs::Generated::functions_below))]
pub fn add_functions(alloc: Global, items: &mut Items<Item>, count: usize) -> Result<(), NoMemory>
    ensures { OnOk result (items.new ≡ items.old ++ functions_below count) }
{
    for number in 0..count {
        items.push(Item::Function(function_numbered(alloc, number)?))?;
    }
    Ok(())
}
