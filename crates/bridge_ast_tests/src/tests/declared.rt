//! Modules and paths that tests declare.

use bridge_ast::{
    Alias, Attrs, CustomType, Docs, Enum, Env, EnvFault, EnvFaultKind, EnvPlace, Item, LifetimeEnv,
    Module, Mutability, OpaqueType, PathType, RenameAttr, Text, Trait,
};
use sqlite_items::Items;
use std::alloc::Global;
use std::test::Fail;

pub fn attrs(alloc: Global) -> Attrs {
    Attrs {
        features: Items::new(alloc),
        marks: Items::new(alloc),
        abi_rename: RenameAttr::empty(),
        deprecated: None,
    }
}

pub fn docs(alloc: Global) -> Docs {
    Docs {
        blocks: Items::new(alloc),
        links: Items::new(alloc),
    }
}

/// The segments of a path, with colons between them.
fn texts(alloc: Global, path: &str) -> Result<Items<Text>, Fail> {
    let mut made = Items::new(alloc);
    for segment in path.split(':') {
        if !segment.is_empty() {
            made.push(Text::new(alloc, segment)?)?;
        }
    }
    Ok(made)
}

fn path_of(alloc: Global, path: &str) -> Result<PathType, Fail> {
    Ok(PathType {
        segments: texts(alloc, path)?,
        lifetimes: Items::new(alloc),
    })
}

fn no_lifetimes(alloc: Global) -> LifetimeEnv {
    LifetimeEnv {
        nodes: Items::new(alloc),
    }
}

fn trait_of(alloc: Global, name: &str) -> Result<Item, Fail> {
    Ok(Item::Trait(Trait {
        name: Text::new(alloc, name)?,
        lifetimes: no_lifetimes(alloc),
        methods: Items::new(alloc),
        is_send: false,
        is_sync: false,
        docs: docs(alloc),
        attrs: attrs(alloc),
    }))
}

fn opaque_of(alloc: Global, name: &str) -> Result<Item, Fail> {
    Ok(Item::Opaque(OpaqueType {
        name: Text::new(alloc, name)?,
        lifetimes: no_lifetimes(alloc),
        mutability: Mutability::Immutable,
        methods: Items::new(alloc),
        dtor_abi_name: Text::new(alloc, name)?,
        docs: docs(alloc),
        attrs: attrs(alloc),
    }))
}

fn enum_of(alloc: Global, name: &str) -> Result<Item, Fail> {
    Ok(Item::Enum(Enum {
        name: Text::new(alloc, name)?,
        variants: Items::new(alloc),
        methods: Items::new(alloc),
        docs: docs(alloc),
        attrs: attrs(alloc),
    }))
}

/// An item that declares nothing: a trait where the name begins with `T`, an opaque with `O`, else an enum.
fn item(alloc: Global, name: &str) -> Result<Item, Fail> {
    if name.starts_with('T') {
        return trait_of(alloc, name);
    }
    if name.starts_with('O') {
        return opaque_of(alloc, name);
    }
    enum_of(alloc, name)
}

/// Items of these names.
pub fn items(alloc: Global, names: &str) -> Result<Items<Item>, Fail> {
    let mut made = Items::new(alloc);
    for name in names.split_whitespace() {
        made.push(item(alloc, name)?)?;
    }
    Ok(made)
}

/// An alias, as its name, `=` and its target.
fn alias(alloc: Global, written: &str) -> Result<Alias, Fail> {
    let mut sides = written.split('=');
    Ok(Alias {
        name: Text::new(alloc, sides.next().unwrap_or(""))?,
        target: texts(alloc, sides.next().unwrap_or(""))?,
    })
}

fn aliases(alloc: Global, written: &str) -> Result<Items<Alias>, Fail> {
    let mut made = Items::new(alloc);
    for one in written.split_whitespace() {
        made.push(alias(alloc, one)?)?;
    }
    Ok(made)
}

/// The path of a module, the names of its items, and its aliases with their targets.
pub type Declared = (&'static str, &'static str, &'static str);

/// A module of these parts.
fn module_of(
    alloc: Global,
    path: Items<Text>,
    items: Items<Item>,
    aliases: Items<Alias>,
) -> Module {
    Module {
        path,
        attrs: attrs(alloc),
        items,
        aliases,
    }
}

fn module(alloc: Global, declared: &Declared) -> Result<Module, Fail> {
    let path = texts(alloc, declared.0)?;
    let items = items(alloc, declared.1)?;
    let aliases = aliases(alloc, declared.2)?;
    Ok(module_of(alloc, path, items, aliases))
}

pub fn modules(alloc: Global, declared: &[Declared]) -> Result<Vec<Module>, Fail> {
    let mut made = Vec::new(alloc);
    for one in declared {
        made.push(module(alloc, one)?)?;
    }
    Ok(made)
}

/// The root with these items and aliases.
pub fn root(alloc: Global, items: Items<Item>, aliases: Items<Alias>) -> Result<Vec<Module>, Fail> {
    let mut made = Vec::new(alloc);
    made.push(module_of(alloc, Items::new(alloc), items, aliases))?;
    Ok(made)
}

/// The kind of a fault, its place and the earlier place.
pub type Expected = (EnvFaultKind, EnvPlace, Option<EnvPlace>);

pub fn fault_of(made: Result<Env, EnvFault>) -> Option<Expected> {
    match made {
        Err(EnvFault::Bad { kind, at, other }) => Some((kind, at, other)),
        Err(EnvFault::NoMemory) | Ok(_) => None,
    }
}

fn type_place(found: Option<CustomType>) -> Option<(usize, usize)> {
    match found? {
        CustomType::Struct(_, place) | CustomType::Opaque(_, place) | CustomType::Enum(_, place) =>
            Some((place.module, place.item)),
    }
}

/// The place of the type that a path names, read in the module of a number.
pub fn type_at(
    alloc: Global,
    env: &Env,
    in_module: usize,
    path: &str,
) -> Result<Option<(usize, usize)>, Fail> {
    if in_module >= env.modules().len() {
        return Err(Fail::from("there is no such module"));
    }
    Ok(type_place(env.resolve(in_module, &path_of(alloc, path)?)))
}

/// The place of the trait that a path names, read in the module of a number.
pub fn trait_at(
    alloc: Global,
    env: &Env,
    in_module: usize,
    path: &str,
) -> Result<Option<(usize, usize)>, Fail> {
    if in_module >= env.modules().len() {
        return Err(Fail::from("there is no such module"));
    }
    let path = path_of(alloc, path)?;
    Ok(
        env.resolve_trait(in_module, &path)
            .map(|found| (found.place.module, found.place.item)),
    )
}
