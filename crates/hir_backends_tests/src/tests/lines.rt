use bridge_decl::{
    Attrs, DocType, Docs, Item, Items, LifetimeEnv, Module, Mutability, NoMemory, OpaqueType,
    RenameAttr, RustLink, RustLinkDisplay, Text, Trait, TraitMethod,
};
use bridge_links::LinkLines;
use hir_docs::DocsUrlGenerator;
use std::alloc::Global;

fn texts(alloc: Global, words: &[&str]) -> Result<Items<Text>, NoMemory> {
    let mut list = Items::new(alloc);
    for word in words {
        list.push(Text::new(alloc, word)?)?;
    }
    Ok(list)
}

fn no_attrs(alloc: Global) -> Attrs {
    Attrs {
        features: Items::new(alloc),
        marks: Items::new(alloc),
        abi_rename: RenameAttr::empty(),
        deprecated: None,
    }
}

fn docs(alloc: Global, links: &[(&[&str], DocType)]) -> Result<Docs, NoMemory> {
    let mut list = Items::new(alloc);
    for (path, typ) in links {
        list.push(RustLink {
            path: texts(alloc, path)?,
            typ: *typ,
            display: RustLinkDisplay::Hidden,
        })?;
    }
    Ok(Docs {
        blocks: Items::new(alloc),
        links: list,
    })
}

// An opaque `O` with a link to a field, and one that is too short.
fn opaque(alloc: Global) -> Result<Item, NoMemory> {
    let field: &[&str] = &["std", "foo", "bar", "batz"];
    let docs = docs(
        alloc,
        &[
            (field, DocType::StructField),
            (&["std"], DocType::EnumVariantField),
        ],
    )?;
    let name = Text::new(alloc, "O")?;
    let dtor_abi_name = Text::new(alloc, "O_destroy")?;
    Ok(Item::Opaque(OpaqueType {
        name,
        lifetimes: LifetimeEnv {
            nodes: Items::new(alloc),
        },
        mutability: Mutability::Immutable,
        methods: Items::new(alloc),
        dtor_abi_name,
        docs,
        attrs: no_attrs(alloc),
    }))
}

fn method(alloc: Global, name: &str) -> Result<TraitMethod, NoMemory> {
    let name = Text::new(alloc, name)?;
    let docs = docs(alloc, &[(&["icu"], DocType::Mod)])?;
    Ok(TraitMethod {
        name,
        lifetimes: LifetimeEnv {
            nodes: Items::new(alloc),
        },
        self_param: None,
        params: Items::new(alloc),
        output_type: None,
        docs,
        attrs: no_attrs(alloc),
    })
}

// A trait `T` without links, with a method that has one.
fn with_method(alloc: Global) -> Result<Item, NoMemory> {
    let mut methods = Items::new(alloc);
    methods.push(method(alloc, "go")?)?;
    let name = Text::new(alloc, "T")?;
    let docs = docs(alloc, &[])?;
    Ok(Item::Trait(Trait {
        name,
        lifetimes: LifetimeEnv {
            nodes: Items::new(alloc),
        },
        methods,
        is_send: false,
        is_sync: false,
        docs,
        attrs: no_attrs(alloc),
    }))
}

fn module(alloc: Global, path: &[&str], item: Item) -> Result<Module, NoMemory> {
    let mut items = Items::new(alloc);
    items.push(item)?;
    let path = texts(alloc, path)?;
    Ok(Module {
        path,
        attrs: no_attrs(alloc),
        items,
        aliases: Items::new(alloc),
    })
}

// The root with the opaque, and `m` with the trait.
fn modules(alloc: Global) -> Result<Items<Module>, NoMemory> {
    let mut modules = Items::new(alloc);
    modules.push(module(alloc, &[], opaque(alloc)?)?)?;
    modules.push(module(alloc, &["m"], with_method(alloc)?)?)?;
    Ok(modules)
}

// What is told of the links in these modules.
fn told(alloc: Global, modules: &[Module]) -> Result<Text, NoMemory> {
    let urls = DocsUrlGenerator::new(alloc);
    let mut lines = LinkLines::new(alloc);
    for module in modules {
        lines.push_module(alloc, &urls, module)?;
    }
    lines.into_text(alloc)
}

const LINES: &str =
    "O https://docs.rs/std/latest/std/foo/struct.bar.html#structfield.batz\nO -\nm::T::go https://docs.rs/icu/latest/icu/index.html\nlinks 3\n";

#[test]
fn links_are_told_in_order(rt: HostRuntime) -> Result<(), NoMemory> {
    let modules = modules(rt.alloc())?;
    assert!(rt; told(rt.alloc(), modules.as_slice())?.as_str() == LINES);
    Ok(())
}

#[test]
fn without_links_there_is_a_last_line(rt: HostRuntime) -> Result<(), NoMemory> {
    assert!(rt; told(rt.alloc(), &[])?.as_str() == "links 0\n");
    Ok(())
}
