//! Links by the kind of what they lead to, and the number of segments.

use bridge_decl::{DocType, Items, NoMemory, RustLink, RustLinkDisplay, Text};
use hir_docs::{DocsUrlGenerator, LinkFault};
use std::alloc::{AllocError, Global};

const PATH: [&str; 4] = ["std", "foo", "bar", "batz"];

/// Where the links of the path begin: no base is given, so it is that of the first segment's newest version.
const FOLDER: &str = "https://docs.rs/std/latest/";

/// A kind, and the links of the first 0 to 4 segments of the path, after that folder; `-` where there is none.
const ROWS: [(DocType, &str); 22] = [
    (
        DocType::Mod,
        "- std/index.html std/foo/index.html std/foo/bar/index.html std/foo/bar/batz/index.html",
    ),
    (
        DocType::Struct,
        "- struct.std.html std/struct.foo.html std/foo/struct.bar.html std/foo/bar/struct.batz.html",
    ),
    (
        DocType::Enum,
        "- enum.std.html std/enum.foo.html std/foo/enum.bar.html std/foo/bar/enum.batz.html",
    ),
    (
        DocType::Trait,
        "- trait.std.html std/trait.foo.html std/foo/trait.bar.html std/foo/bar/trait.batz.html",
    ),
    (
        DocType::Fn,
        "- fn.std.html std/fn.foo.html std/foo/fn.bar.html std/foo/bar/fn.batz.html",
    ),
    (
        DocType::Macro,
        "- macro.std.html std/macro.foo.html std/foo/macro.bar.html std/foo/bar/macro.batz.html",
    ),
    (
        DocType::Constant,
        "- constant.std.html std/constant.foo.html std/foo/constant.bar.html std/foo/bar/constant.batz.html",
    ),
    (
        DocType::Typedef,
        "- type.std.html std/type.foo.html std/foo/type.bar.html std/foo/bar/type.batz.html",
    ),
    (
        DocType::StructField,
        "- - struct.std.html#structfield.foo std/struct.foo.html#structfield.bar std/foo/struct.bar.html#structfield.batz",
    ),
    (
        DocType::EnumVariant,
        "- - enum.std.html#variant.foo std/enum.foo.html#variant.bar std/foo/enum.bar.html#variant.batz",
    ),
    (
        DocType::EnumVariantField,
        "- - - enum.std.html#variant.foo.field.bar std/enum.foo.html#variant.bar.field.batz",
    ),
    (
        DocType::FnInStruct,
        "- - struct.std.html#method.foo std/struct.foo.html#method.bar std/foo/struct.bar.html#method.batz",
    ),
    (
        DocType::FnInEnum,
        "- - enum.std.html#method.foo std/enum.foo.html#method.bar std/foo/enum.bar.html#method.batz",
    ),
    (
        DocType::FnInTypedef,
        "- - type.std.html#method.foo std/type.foo.html#method.bar std/foo/type.bar.html#method.batz",
    ),
    (
        DocType::FnInTrait,
        "- - trait.std.html#tymethod.foo std/trait.foo.html#tymethod.bar std/foo/trait.bar.html#tymethod.batz",
    ),
    (
        DocType::DefaultFnInTrait,
        "- - trait.std.html#method.foo std/trait.foo.html#method.bar std/foo/trait.bar.html#method.batz",
    ),
    (
        DocType::AssociatedTypeInEnum,
        "- - enum.std.html#associatedtype.foo std/enum.foo.html#associatedtype.bar std/foo/enum.bar.html#associatedtype.batz",
    ),
    (
        DocType::AssociatedTypeInStruct,
        "- - struct.std.html#associatedtype.foo std/struct.foo.html#associatedtype.bar std/foo/struct.bar.html#associatedtype.batz",
    ),
    (
        DocType::AssociatedTypeInTrait,
        "- - trait.std.html#associatedtype.foo std/trait.foo.html#associatedtype.bar std/foo/trait.bar.html#associatedtype.batz",
    ),
    (
        DocType::AssociatedConstantInEnum,
        "- - enum.std.html#associatedconstant.foo std/enum.foo.html#associatedconstant.bar std/foo/enum.bar.html#associatedconstant.batz",
    ),
    (
        DocType::AssociatedConstantInStruct,
        "- - struct.std.html#associatedconstant.foo std/struct.foo.html#associatedconstant.bar std/foo/struct.bar.html#associatedconstant.batz",
    ),
    (
        DocType::AssociatedConstantInTrait,
        "- - trait.std.html#associatedconstant.foo std/trait.foo.html#associatedconstant.bar std/foo/trait.bar.html#associatedconstant.batz",
    ),
];

fn link_of(alloc: Global, kind: DocType, length: usize) -> Result<RustLink, NoMemory> {
    let mut path = Items::new(alloc);
    for segment in PATH.iter().take(length) {
        path.push(Text::new(alloc, segment)?)?;
    }
    Ok(RustLink {
        path,
        typ: kind,
        display: RustLinkDisplay::Normal,
    })
}

/// The link after the folder of the crate's version, or `-` where the path is too short.
fn put_link(alloc: Global, text: &mut String, link: &RustLink) -> Result<(), NoMemory> {
    let urls = DocsUrlGenerator::new(alloc);
    match urls.gen_for_rust_link(alloc, link) {
        Ok(found) => text.push_str(found.as_str().strip_prefix(FOLDER).unwrap_or("?")),
        Err(LinkFault::TooShort) => text.push_str("-"),
        Err(LinkFault::NoMemory) => Err(AllocError),
    }
}

/// The links of the first 0 to 4 segments.
fn links(alloc: Global, kind: DocType) -> Result<String, NoMemory> {
    let mut text = String::new(alloc);
    for length in 0..5usize {
        if !text.is_empty() {
            text.push_str(" ")?;
        }
        put_link(alloc, &mut text, &link_of(alloc, kind, length)?)?;
    }
    Ok(text)
}

#[test]
fn each_kind_has_its_links(rt: HostRuntime) -> Result<(), NoMemory> {
    for (kind, text) in &ROWS {
        let found = links(rt.alloc(), *kind)?;
        assert!(rt; found.as_str() == *text);
    }
    Ok(())
}
