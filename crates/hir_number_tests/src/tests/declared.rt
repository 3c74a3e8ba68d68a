//! The environment of a row: items of each kind, and last the one that the row declares.
//!
//! | item | declared as |
//! |---|---|
//! | 0 | an opaque `O` |
//! | 1 | an opaque `A<'x>` that is marked as mutable |
//! | 2 | a struct `B<'x, 'y>` |
//! | 3 | an out-struct `X<'x>` |
//! | 4 | an enum `E` |
//! | 5 | a trait `T<'x>` |
//! | 6 | a struct `S<'x>` with a method, a trait `R<'x>` with a method, a function `f`, or a struct `S` with fields |

use bridge_ast::{Env, EnvFault};
use bridge_decl::{
    Attrs, Docs, Enum, Field, Item, Items, LifetimeEnv, LifetimeNode, Method, Module, Mutability,
    NoMemory, OpaqueType, RenameAttr, Struct, Text, Trait, TraitMethod,
};
use std::alloc::Global;

/// The number of the item that a row declares.
pub const OWN: usize = 6;

pub fn attrs(alloc: Global) -> Attrs {
    Attrs {
        features: Items::new(alloc),
        marks: Items::new(alloc),
        abi_rename: RenameAttr::empty(),
        deprecated: None,
    }
}

pub fn docs(alloc: Global) -> Docs {
    Docs {
        blocks: Items::new(alloc),
        links: Items::new(alloc),
    }
}

/// A declared lifetime, as `'b` or `'b:'a`, and its bound, without their apostrophes.
fn sides(word: &str) -> (&str, &str) {
    let mut sides = word.split(':');
    let name = sides.next().unwrap_or("");
    let bound = sides.next().unwrap_or("");
    (
        name.strip_prefix('\'').unwrap_or(name),
        bound.strip_prefix('\'').unwrap_or(bound),
    )
}

/// The places of the lifetimes that have the name, or else the bound.
fn places(
    alloc: Global,
    words: &str,
    wanted: &str,
    by_bound: bool,
) -> Result<Items<usize>, NoMemory> {
    let mut places = Items::new(alloc);
    for (place, word) in words.split_whitespace().enumerate() {
        let (name, bound) = sides(word);
        if wanted == (if by_bound { bound } else { name }) {
            places.push(place)?;
        }
    }
    Ok(places)
}

/// The lifetime that a word declares, among those of the words.
fn node(alloc: Global, words: &str, word: &str) -> Result<LifetimeNode, NoMemory> {
    let (name, bound) = sides(word);
    let longer = places(alloc, words, name, true)?;
    let shorter = places(alloc, words, bound, false)?;
    let name = Text::new(alloc, name)?;
    Ok(LifetimeNode {
        name,
        longer,
        shorter,
    })
}

/// The lifetimes that a text declares, as `'a 'b:'a`.
pub fn lifetimes(alloc: Global, words: &str) -> Result<LifetimeEnv, NoMemory> {
    let mut nodes = Items::new(alloc);
    for word in words.split_whitespace() {
        nodes.push(node(alloc, words, word)?)?;
    }
    Ok(LifetimeEnv { nodes })
}

fn opaque(
    alloc: Global,
    name: &str,
    words: &str,
    mutability: Mutability,
) -> Result<Item, NoMemory> {
    let lifetimes = lifetimes(alloc, words)?;
    let dtor_abi_name = Text::new(alloc, name)?;
    Ok(Item::Opaque(OpaqueType {
        name: Text::new(alloc, name)?,
        lifetimes,
        mutability,
        methods: Items::new(alloc),
        dtor_abi_name,
        docs: docs(alloc),
        attrs: attrs(alloc),
    }))
}

/// A struct of these parts.
pub fn structure(
    alloc: Global,
    name: &str,
    lifetimes: LifetimeEnv,
    fields: Items<Field>,
    methods: Items<Method>,
    output_only: bool,
) -> Result<Item, NoMemory> {
    Ok(Item::Struct(Struct {
        name: Text::new(alloc, name)?,
        lifetimes,
        fields,
        methods,
        output_only,
        docs: docs(alloc),
        attrs: attrs(alloc),
    }))
}

/// A struct without fields and methods.
fn bare_struct(
    alloc: Global,
    name: &str,
    words: &str,
    output_only: bool,
) -> Result<Item, NoMemory> {
    let lifetimes = lifetimes(alloc, words)?;
    structure(
        alloc,
        name,
        lifetimes,
        Items::new(alloc),
        Items::new(alloc),
        output_only,
    )
}

fn enumeration(alloc: Global, name: &str) -> Result<Item, NoMemory> {
    Ok(Item::Enum(Enum {
        name: Text::new(alloc, name)?,
        variants: Items::new(alloc),
        methods: Items::new(alloc),
        docs: docs(alloc),
        attrs: attrs(alloc),
    }))
}

pub fn trait_of(
    alloc: Global,
    name: &str,
    lifetimes: LifetimeEnv,
    methods: Items<TraitMethod>,
) -> Result<Item, NoMemory> {
    Ok(Item::Trait(Trait {
        name: Text::new(alloc, name)?,
        lifetimes,
        methods,
        is_send: false,
        is_sync: false,
        docs: docs(alloc),
        attrs: attrs(alloc),
    }))
}

/// The items that stand before the one of a test.
fn types(alloc: Global) -> Result<Items<Item>, NoMemory> {
    let mut items = Items::new(alloc);
    items.push(opaque(alloc, "O", "", Mutability::Immutable)?)?;
    items.push(opaque(alloc, "A", "'x", Mutability::Mutable)?)?;
    items.push(bare_struct(alloc, "B", "'x 'y", false)?)?;
    items.push(bare_struct(alloc, "X", "'x", true)?)?;
    items.push(enumeration(alloc, "E")?)?;
    let generics = lifetimes(alloc, "'x")?;
    items.push(trait_of(alloc, "T", generics, Items::new(alloc))?)?;
    Ok(items)
}

/// The one module that has these items.
fn only_module(alloc: Global, items: Items<Item>) -> Result<Vec<Module>, NoMemory> {
    let mut modules = Vec::new(alloc);
    modules.push(Module {
        path: Items::new(alloc),
        attrs: attrs(alloc),
        items,
        aliases: Items::new(alloc),
    })?;
    Ok(modules)
}

/// The environment of which the item is the last.
pub fn environment(alloc: Global, own: Item) -> Result<Env, EnvFault> {
    let mut items = types(alloc)?;
    items.push(own)?;
    Env::new(alloc, only_module(alloc, items)?)
}
