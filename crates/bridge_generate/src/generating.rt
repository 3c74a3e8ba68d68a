//! All declarations together.

ghost use Rattle.std.specs.Prelude.{◌≡◌, ◌≤◌, [], ◌∷◌, IfOk};
ghost use Rattle.bridge_generate.specs.Generated.{generated_items, generated_module, the_opaque};

use crate::functions::add_functions;
use crate::parts::{one, plain_attrs, plain_docs};
use crate::structs::add_structs;
use bridge_ast::{
    Env, EnvFault, Item, Items, LifetimeEnv, Module, Mutability, NoMemory, OpaqueType, Text,
};
use std::alloc::{AllocError, Global};

/// `O`.
fn the_opaque(alloc: Global) -> Result<OpaqueType, NoMemory>
    ensures { IfOk result (λ it. it ≡ the_opaque) }
{
    let name = Text::new(alloc, "O")?;
    let dtor_abi_name = Text::new(alloc, "O")?;
    Ok(OpaqueType {
        name,
        lifetimes: LifetimeEnv {
            nodes: Items::new(alloc),
        },
        mutability: Mutability::Immutable,
        methods: Items::new(alloc),
        dtor_abi_name,
        docs: plain_docs(alloc),
        attrs: plain_attrs(alloc),
    })
}

/// The opaque, so many structs and as many functions, in this order.
fn items(alloc: Global, count: usize) -> Result<Items<Item>, NoMemory>
    ensures { IfOk result (λ items. items ≡ generated_items count) }
{
    let mut items = one(alloc, Item::Opaque(the_opaque(alloc)?))?;
    add_structs(alloc, &mut items, count)?;
    add_functions(alloc, &mut items, count)?;
    Ok(items)
}

/// The root module with these items, alone.
fn modules(alloc: Global, count: usize) -> Result<Vec<Module>, NoMemory>
    ensures { IfOk result (λ modules. modules.items ≡ generated_module count ∷ []) }
{
    let root = Module {
        path: Items::new(alloc),
        attrs: plain_attrs(alloc),
        items: items(alloc, count)?,
        aliases: Items::new(alloc),
    };
    let mut modules = Vec::new(alloc);
    modules.push(root)?;
    Ok(modules)
}

/// The opaque, `n` structs and as many functions, in the root module. They fit together (`generated_declarations_fit_together`), so want of
/// memory is the only error.
pub fn generated(alloc: Global, n: usize) -> Result<Env, NoMemory>
    requires one { 1 ≤ n }
    requires most { n ≤ 10000 }
    ensures { IfOk result (λ env. env ≡ generated_module n ∷ []) }
{
    match Env::new(alloc, modules(alloc, n)?) {
        Ok(env) => Ok(env),
        Err(EnvFault::NoMemory) => Err(AllocError),
        Err(EnvFault::Bad { .. }) => unreachable!(),
    }
}
