use bridge_decl::{DocType, Items, NoMemory, RustLink, RustLinkDisplay, Text};
use hir_docs::{DocsUrlGenerator, LinkFault};
use std::alloc::Global;
use std::collections::BTreeMap;

pub fn link_to(alloc: Global, path: &[&str], typ: DocType) -> Result<RustLink, NoMemory> {
    let mut segments = Items::new(alloc);
    for segment in path {
        segments.push(Text::new(alloc, segment)?)?;
    }
    Ok(RustLink {
        path: segments,
        typ,
        display: RustLinkDisplay::Normal,
    })
}

// Whether the link is that text; "-" stands for a path that is too short.
fn is_link(
    alloc: Global,
    urls: &DocsUrlGenerator,
    path: &[&str],
    typ: DocType,
    text: &str,
) -> Result<bool, NoMemory> {
    let link = link_to(alloc, path, typ)?;
    match urls.gen_for_rust_link(alloc, &link) {
        Ok(found) => Ok(found.as_str() == text),
        Err(LinkFault::TooShort) => Ok(text == "-"),
        Err(LinkFault::NoMemory) => Ok(false),
    }
}

// Each kind with the text for `std::foo::bar::batz` after the version's folder, and how many segments it takes.
const KINDS: [(DocType, &str, usize); 22] = [
    (DocType::Struct, "foo/bar/struct.batz.html", 1),
    (DocType::Enum, "foo/bar/enum.batz.html", 1),
    (DocType::Trait, "foo/bar/trait.batz.html", 1),
    (DocType::Fn, "foo/bar/fn.batz.html", 1),
    (DocType::Macro, "foo/bar/macro.batz.html", 1),
    (DocType::Constant, "foo/bar/constant.batz.html", 1),
    (DocType::Typedef, "foo/bar/type.batz.html", 1),
    (DocType::Mod, "foo/bar/batz/index.html", 0),
    (
        DocType::StructField,
        "foo/struct.bar.html#structfield.batz",
        2,
    ),
    (DocType::EnumVariant, "foo/enum.bar.html#variant.batz", 2),
    (
        DocType::EnumVariantField,
        "enum.foo.html#variant.bar.field.batz",
        3,
    ),
    (DocType::FnInStruct, "foo/struct.bar.html#method.batz", 2),
    (DocType::FnInEnum, "foo/enum.bar.html#method.batz", 2),
    (DocType::FnInTypedef, "foo/type.bar.html#method.batz", 2),
    (DocType::FnInTrait, "foo/trait.bar.html#tymethod.batz", 2),
    (
        DocType::DefaultFnInTrait,
        "foo/trait.bar.html#method.batz",
        2,
    ),
    (
        DocType::AssociatedTypeInEnum,
        "foo/enum.bar.html#associatedtype.batz",
        2,
    ),
    (
        DocType::AssociatedTypeInStruct,
        "foo/struct.bar.html#associatedtype.batz",
        2,
    ),
    (
        DocType::AssociatedTypeInTrait,
        "foo/trait.bar.html#associatedtype.batz",
        2,
    ),
    (
        DocType::AssociatedConstantInEnum,
        "foo/enum.bar.html#associatedconstant.batz",
        2,
    ),
    (
        DocType::AssociatedConstantInStruct,
        "foo/struct.bar.html#associatedconstant.batz",
        2,
    ),
    (
        DocType::AssociatedConstantInTrait,
        "foo/trait.bar.html#associatedconstant.batz",
        2,
    ),
];

const PATH: [&str; 4] = ["std", "foo", "bar", "batz"];

// Whether the link of that kind to the path is that text after the version's folder.
fn has_page(
    alloc: Global,
    urls: &DocsUrlGenerator,
    kind: DocType,
    text: &str,
) -> Result<bool, NoMemory> {
    let link = link_to(alloc, &PATH, kind)?;
    match urls.gen_for_rust_link(alloc, &link) {
        Ok(found) => Ok(
            found
                .as_str()
                .strip_prefix("https://docs.rs/std/latest/std/")
                == Some(text),
        ),
        Err(_) => Ok(false),
    }
}

#[test]
fn each_kind_has_its_page(rt: HostRuntime) -> Result<(), NoMemory> {
    let urls = DocsUrlGenerator::new(rt.alloc());
    for (kind, text, _taken) in &KINDS {
        assert!(rt; has_page(rt.alloc(), &urls, *kind, text)?);
    }
    Ok(())
}

// Whether so many segments of the path are too short for a link of that kind.
fn is_short(
    alloc: Global,
    urls: &DocsUrlGenerator,
    kind: DocType,
    segments: usize,
) -> Result<bool, NoMemory> {
    let link = link_to(alloc, &PATH[..segments.min(4)], kind)?;
    Ok(urls.gen_for_rust_link(alloc, &link).is_err())
}

// A path of so many segments is too short exactly where it has none, or fewer than its kind takes.
#[test]
fn short_paths_have_no_link(rt: HostRuntime) -> Result<(), NoMemory> {
    let urls = DocsUrlGenerator::new(rt.alloc());
    for (kind, _text, taken) in &KINDS {
        for segments in 0..4usize {
            let lacks_some = segments == 0 || segments < *taken;
            assert!(rt; is_short(rt.alloc(), &urls, *kind, segments)? == lacks_some);
        }
    }
    Ok(())
}

// A base URL ("" for none), a path, a kind, and the link.
const BASES: [(&str, &[&str], DocType, &str); 9] = [
    (
        "http://std-docs.biz/",
        &["std", "foo", "bar", "batz"],
        DocType::Struct,
        "http://std-docs.biz/std/foo/bar/struct.batz.html",
    ),
    (
        "http://std-docs.biz",
        &["std", "foo", "bar", "batz"],
        DocType::Struct,
        "http://std-docs.biz/std/foo/bar/struct.batz.html",
    ),
    (
        "https://docs.rs",
        &["std"],
        DocType::Mod,
        "https://docs.rs/std/latest/std/index.html",
    ),
    (
        "https://docs.rs/x",
        &["std"],
        DocType::Mod,
        "https://docs.rs/x/std/index.html",
    ),
    (
        "",
        &["std"],
        DocType::Mod,
        "https://docs.rs/std/latest/std/index.html",
    ),
    (
        "",
        &["std"],
        DocType::Struct,
        "https://docs.rs/std/latest/struct.std.html",
    ),
    (
        "",
        &["E", "V", "f"],
        DocType::EnumVariantField,
        "https://docs.rs/E/latest/enum.E.html#variant.V.field.f",
    ),
    ("", &["std"], DocType::EnumVariantField, "-"),
    ("", &[], DocType::Mod, "-"),
];

// The base is that of the crate, or the default.
fn based(alloc: Global, base: &str, is_default: bool) -> Result<DocsUrlGenerator, NoMemory> {
    let mut bases = BTreeMap::new(alloc);
    if base.is_empty() {
        return Ok(DocsUrlGenerator::new(alloc));
    }
    if is_default {
        let url = Text::new(alloc, base)?;
        return Ok(DocsUrlGenerator::with_base_urls(Some(url), bases));
    }
    bases.insert(Text::new(alloc, "std")?, Text::new(alloc, base)?)?;
    let other = Text::new(alloc, "http://other.biz/")?;
    Ok(DocsUrlGenerator::with_base_urls(Some(other), bases))
}

// Whether the row holds where its base is that of the crate, or the default.
fn begins_so(
    alloc: Global,
    (base, path, kind, text): &(&str, &[&str], DocType, &str),
    is_default: bool,
) -> Result<bool, NoMemory> {
    let urls = based(alloc, base, is_default)?;
    is_link(alloc, &urls, path, *kind, text)
}

#[test]
fn links_begin_with_the_base(rt: HostRuntime) -> Result<(), NoMemory> {
    for row in &BASES {
        assert!(rt; begins_so(rt.alloc(), row, true)?);
        assert!(rt; begins_so(rt.alloc(), row, false)?);
    }
    Ok(())
}
