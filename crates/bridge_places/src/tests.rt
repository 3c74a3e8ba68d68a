//! The example of the crate's head, and modules that stand out of order.

use crate::{ItemOrder, Kind};
use bridge_ast::{
    Attrs, Docs, Enum, Field, Item, ItemPlace, Items, LifetimeEnv, Module, Mutability, NoMemory,
    OpaqueType, PrimitiveType, RenameAttr, Struct, Text, TypeName,
};
use bridge_order::{Entry, module_order};
use std::alloc::Global;
use std::test::Fail;

fn attrs(alloc: Global) -> Attrs {
    Attrs {
        features: Items::new(alloc),
        marks: Items::new(alloc),
        abi_rename: RenameAttr::empty(),
        deprecated: None,
    }
}

fn docs(alloc: Global) -> Docs {
    Docs {
        blocks: Items::new(alloc),
        links: Items::new(alloc),
    }
}

fn no_lifetimes(alloc: Global) -> LifetimeEnv {
    LifetimeEnv {
        nodes: Items::new(alloc),
    }
}

/// One field, or none.
fn fields(alloc: Global, has_fields: bool) -> Result<Items<Field>, NoMemory> {
    let mut fields = Items::new(alloc);
    if has_fields {
        fields.push(Field {
            name: Text::new(alloc, "width")?,
            ty: TypeName::Primitive(PrimitiveType::u8),
            docs: docs(alloc),
            attrs: attrs(alloc),
        })?;
    }
    Ok(fields)
}

fn structure(alloc: Global, has_fields: bool, output_only: bool) -> Result<Item, NoMemory> {
    Ok(Item::Struct(Struct {
        name: Text::new(alloc, "S")?,
        lifetimes: no_lifetimes(alloc),
        fields: fields(alloc, has_fields)?,
        methods: Items::new(alloc),
        output_only,
        docs: docs(alloc),
        attrs: attrs(alloc),
    }))
}

fn opaque(alloc: Global) -> Result<Item, NoMemory> {
    Ok(Item::Opaque(OpaqueType {
        name: Text::new(alloc, "O")?,
        lifetimes: no_lifetimes(alloc),
        mutability: Mutability::Mutable,
        methods: Items::new(alloc),
        dtor_abi_name: Text::new(alloc, "O_destroy")?,
        docs: docs(alloc),
        attrs: attrs(alloc),
    }))
}

fn enumeration(alloc: Global) -> Result<Item, NoMemory> {
    Ok(Item::Enum(Enum {
        name: Text::new(alloc, "E")?,
        variants: Items::new(alloc),
        methods: Items::new(alloc),
        docs: docs(alloc),
        attrs: attrs(alloc),
    }))
}

/// An item by a letter: a struct with fields, one without, an out-struct, an opaque, or else an enum.
fn item_of(alloc: Global, letter: char) -> Result<Item, NoMemory> {
    match letter {
        's' => structure(alloc, true, false),
        'z' => structure(alloc, false, false),
        'x' => structure(alloc, false, true),
        'o' => opaque(alloc),
        _ => enumeration(alloc),
    }
}

/// The segments of a path that is written with spaces between them.
fn path_of(alloc: Global, words: &str) -> Result<Items<Text>, NoMemory> {
    let mut path = Items::new(alloc);
    for word in words.split_whitespace() {
        path.push(Text::new(alloc, word)?)?;
    }
    Ok(path)
}

/// A module of a path with an item for each letter.
fn module_of(alloc: Global, path: &str, letters: &str) -> Result<Module, NoMemory> {
    let mut items = Items::new(alloc);
    for letter in letters.chars() {
        items.push(item_of(alloc, letter)?)?;
    }
    Ok(Module {
        path: path_of(alloc, path)?,
        attrs: attrs(alloc),
        items,
        aliases: Items::new(alloc),
    })
}

/// A deep module before shallow ones: the order is 1, 2, 0. All items of a kind have one name.
fn modules(alloc: Global) -> Result<Vec<Module>, NoMemory> {
    let mut modules = Vec::new(alloc);
    modules.push(module_of(alloc, "app io", "sxe")?)?;
    modules.push(module_of(alloc, "app", "soe")?)?;
    modules.push(module_of(alloc, "text", "zxs")?)?;
    Ok(modules)
}

fn place(module: usize, item: usize) -> ItemPlace {
    ItemPlace { module, item }
}

/// The entry as its kind, its number and what else it keeps.
fn shown(entry: Entry) -> (char, usize, bool) {
    match entry {
        Entry::Struct(id, has_fields) => ('s', id, has_fields),
        Entry::OutStruct(id, has_fields) => ('x', id, has_fields),
        Entry::Opaque(id, mutability) => ('o', id, matches!(mutability, Mutability::Mutable)),
        Entry::Enum(id) => ('e', id, false),
        Entry::Trait(id) => ('t', id, false),
        Entry::Function(id) => ('f', id, false),
    }
}

#[test]
fn shallow_modules_come_first(rt: HostRuntime) -> Result<(), Fail> {
    let modules = modules(rt.alloc())?;
    let order = module_order(rt.alloc(), &modules)?;
    drop(modules);
    let is_so = order.as_slice() == [1, 2, 0].as_slice();
    drop(order);
    assert!(rt; is_so);
    Ok(())
}

/// Their order, without the modules.
fn order(alloc: Global) -> Result<ItemOrder, NoMemory> {
    let modules = modules(alloc)?;
    let found = ItemOrder::of(alloc, &modules)?;
    drop(modules);
    Ok(found)
}

fn has_places_in_order(found: &ItemOrder) -> bool {
    let structs = [place(1, 0), place(2, 0), place(2, 2), place(0, 0)];
    let out_structs = [place(2, 1), place(0, 1)];
    let enums = [place(1, 2), place(0, 2)];
    found.places.of_kind(Kind::Struct) == structs.as_slice()
        && found.places.of_kind(Kind::OutStruct) == out_structs.as_slice()
        && found.places.of_kind(Kind::Opaque) == [place(1, 1)].as_slice()
        && found.places.of_kind(Kind::Enum) == enums.as_slice()
        && found.places.of_kind(Kind::Trait).len() == 0
}

#[test]
fn places_are_by_kind_in_order(rt: HostRuntime) -> Result<(), Fail> {
    let found = order(rt.alloc())?;
    let are_so = has_places_in_order(&found);
    drop(found);
    assert!(rt; are_so);
    Ok(())
}

/// What stands at each place, by hand.
const ENTRIES: [(usize, usize, (char, usize, bool)); 9] = [
    (0, 0, ('s', 3, true)),
    (0, 1, ('x', 1, false)),
    (0, 2, ('e', 1, false)),
    (1, 0, ('s', 0, true)),
    (1, 1, ('o', 0, true)),
    (1, 2, ('e', 0, false)),
    (2, 0, ('s', 1, false)),
    (2, 1, ('x', 0, false)),
    (2, 2, ('s', 2, true)),
];

fn has_entries(found: &ItemOrder) -> bool {
    for (module, item, expected) in &ENTRIES {
        let entry = found.catalog.entry(place(*module, *item));
        if shown(entry) != *expected || entry.id() != expected.1 {
            return false;
        }
    }
    true
}

#[test]
fn entries_have_ids(rt: HostRuntime) -> Result<(), Fail> {
    let found = order(rt.alloc())?;
    let are_so = has_entries(&found);
    drop(found);
    assert!(rt; are_so);
    Ok(())
}
