//! Links to the documentation of Rust items.

ghost use Rattle.std.specs.Prelude.{◌≡◌, ◌++◌, ◌↔◌, IfOk, OnOk, IsErrOf, None, Some, false, length, map, string_bytes};
ghost use Rattle.hir_docs.specs.Links.{layout, ends_with_slash, slashed, chosen_base, rooted, root_of, folder, folders, anchored, page_text, is_short, within_root, link_text};
ghost use Rattle.hir_docs.specs.inside.Shown.{shown};

use crate::urls::DocsUrlGenerator;
use bridge_decl::{DocType, NoMemory, RustLink, Text};
use std::alloc::{AllocError, Global};
use thiserror::Error;

/// Why there is no link.
#[derive(Clone, Copy, Debug, Error, PartialEq, Eq)]
pub enum LinkFault {
    /// The path has no segment, or too few for what it is said to name.
    #[error("TooShort")]
    TooShort,
    /// There was no memory for the text.
    #[error("NoMemory")]
    NoMemory,
}

impl From<AllocError> for LinkFault {
    ghost use Rattle.std.specs.Prelude.{◌≡◌};
    ghost use Rattle.hir_docs.specs.declared.links.LinkFault.{LinkFault};

    ghost from_gives = { λ _ fault. fault ≡ LinkFault.NoMemory };

    fn from(_error: AllocError) -> LinkFault {
        LinkFault::NoMemory
    }
}

/// The prefix of a page, and a text before each further name in it.
type Page = (&'static str, &'static [&'static str]);

/// How rustdoc lays out what a path names: a page, or for None the index of a folder.
#[tactic(auto, unfolding(crate::specs::Links::layout))]
fn page_of(kind: DocType) -> Option<Page>
    ensures { shown result ≡ layout kind }
{
    match kind {
        DocType::Mod => None,
        DocType::Struct => Some(("struct.", &[])),
        DocType::Enum => Some(("enum.", &[])),
        DocType::Trait => Some(("trait.", &[])),
        DocType::Fn => Some(("fn.", &[])),
        DocType::Macro => Some(("macro.", &[])),
        DocType::Constant => Some(("constant.", &[])),
        DocType::Typedef => Some(("type.", &[])),
        DocType::FnInStruct => Some(("struct.", &["#method."])),
        DocType::FnInEnum => Some(("enum.", &["#method."])),
        DocType::FnInTypedef => Some(("type.", &["#method."])),
        DocType::DefaultFnInTrait => Some(("trait.", &["#method."])),
        DocType::FnInTrait => Some(("trait.", &["#tymethod."])),
        DocType::EnumVariant => Some(("enum.", &["#variant."])),
        DocType::StructField => Some(("struct.", &["#structfield."])),
        DocType::AssociatedTypeInEnum => Some(("enum.", &["#associatedtype."])),
        DocType::AssociatedTypeInStruct => Some(("struct.", &["#associatedtype."])),
        DocType::AssociatedTypeInTrait => Some(("trait.", &["#associatedtype."])),
        DocType::AssociatedConstantInEnum => Some(("enum.", &["#associatedconstant."])),
        DocType::AssociatedConstantInStruct => Some(("struct.", &["#associatedconstant."])),
        DocType::AssociatedConstantInTrait => Some(("trait.", &["#associatedconstant."])),
        DocType::EnumVariantField => Some(("enum.", &["#variant.", ".field."])),
    }
}

/// Whether a path has too few segments for its kind.
fn is_short(kind: DocType, segments: usize) -> bool
    ensures { result ≡ is_short (layout kind) segments }
{
    match page_of(kind) {
        Some((_, anchors)) => segments <= anchors.len(),
        None => false,
    }
}

/// Whether a URL ends with `/`.
fn ends_with_slash(url: &str) -> bool
    ensures { result ≡ ends_with_slash url.now }
{
    match url.as_bytes().last() {
        Some(last) => *last == b'/',
        None => false,
    }
}

/// A copy of a URL with `/` at its end.
fn slashed(alloc: Global, url: &str) -> Result<String, NoMemory>
    ensures { IfOk result (λ text. string_bytes text ≡ slashed url.now) }
{
    let mut text = String::from_str(alloc, url)?;
    if !ends_with_slash(url) {
        text.push_str("/")?;
    }
    Ok(text)
}

const DOCS_RS: &str = "https://docs.rs/";

/// Adds the folder of a crate, where the base is that of all crates.
#[tactic(auto, unfolding(crate::specs::Links::docs_rs))]
fn push_crate(base: String, crate_name: &Text) -> Result<String, NoMemory>
    ensures { IfOk result
        (λ text. string_bytes text ≡ rooted (string_bytes base) crate_name.now) }
{
    let mut text = base;
    if text.as_str() == DOCS_RS {
        text.push_str(crate_name.as_str())?;
        text.push_str("/latest/")?;
    }
    Ok(text)
}

/// Adds a folder.
fn push_folder(text: &mut String, segment: &Text) -> Result<(), NoMemory>
    ensures { OnOk result (string_bytes text.new ≡ string_bytes text.old ++ folder segment.now) }
{
    text.push_str(segment.as_str())?;
    text.push_str("/")?;
    Ok(())
}

/// Adds a folder for each segment.
fn push_folders(text: &mut String, segments: &[Text]) -> Result<(), NoMemory>
    ensures { OnOk result (string_bytes text.new
        ≡ string_bytes text.old ++ folders segments.now) }
{
    for segment in segments {
        push_folder(text, segment)?;
    }
    Ok(())
}

/// Adds the further names within a page, each after its text.
fn push_anchored(text: &mut String, anchors: &[&str], names: &[Text]) -> Result<(), NoMemory>
    ensures { OnOk result (string_bytes text.new
        ≡ string_bytes text.old
        ++ anchored (map (λ anchor. anchor.now) anchors.entry.now) names.now) }
{
    match anchors {
        [] => Ok(()),
        [anchor, anchors @ ..] => match names {
            [] => Ok(()),
            [name, names @ ..] => {
                text.push_str(anchor)?;
                text.push_str(name.as_str())?;
                push_anchored(text, anchors, names)
            }
        },
    }
}

/// Adds the page of the first of these names, and the place of the others in it.
fn push_page(
    text: &mut String,
    prefix: &str,
    anchors: &[&str],
    names: &[Text],
) -> Result<(), NoMemory>
    ensures { OnOk result (string_bytes text.new ≡ string_bytes text.old
        ++ page_text prefix.now (map (λ anchor. anchor.now) anchors.entry.now) names.now) }
{
    match names {
        [] => Ok(()),
        [name, others @ ..] => {
            text.push_str(prefix)?;
            text.push_str(name.as_str())?;
            text.push_str(".html")?;
            push_anchored(text, anchors, others)
        }
    }
}

/// Adds where a path leads in the folder of its crate.
fn push_within(text: &mut String, kind: DocType, path: &[Text]) -> Result<(), NoMemory>
    requires { is_short (layout kind) (length path.now) ≡ false }
    ensures { OnOk result (string_bytes text.new
        ≡ string_bytes text.old ++ within_root (layout kind) path.now) }
{
    match page_of(kind) {
        Some((prefix, anchors)) => {
            let (front, names) = path.split_at(path.len() - 1 - anchors.len());
            push_folders(text, front)?;
            push_page(text, prefix, anchors, names)
        }
        None => {
            push_folders(text, path)?;
            text.push_str("index.html")?;
            Ok(())
        }
    }
}

impl DocsUrlGenerator {
    /// The base URL of a crate: its own, else that for all others, else that of docs.rs.
    #[tactic(auto, unfolding(crate::specs::Links::docs_rs))]
    fn chosen_base(&self, crate_name: &Text) -> &str
        ensures { result.now ≡ chosen_base self.now crate_name.now }
    {
        match self.base_url(crate_name) {
            Some(url) => url,
            None => self.default_url().unwrap_or(DOCS_RS),
        }
    }

    /// The link to what a path names, whose first segment is the crate.
    fn link(
        &self,
        alloc: Global,
        crate_name: &Text,
        kind: DocType,
        path: &[Text],
    ) -> Result<Text, NoMemory>
        requires { is_short (layout kind) (length path.now) ≡ false }
        ensures { IfOk result (λ text. text
            ≡ root_of self.now crate_name.now ++ within_root (layout kind) path.now) }
    {
        let base = slashed(alloc, self.chosen_base(crate_name))?;
        let mut text = push_crate(base, crate_name)?;
        push_within(&mut text, kind, path)?;
        Ok(Text::from(text))
    }

    /// The link to the documentation of a Rust item: the base URL, a folder for each segment of the item's module, and the item's page,
    /// with the place in it of what stands within the item. As `DocsUrlGenerator::gen_for_rust_link` of `diplomat_core`, which panics
    /// where this is `TooShort`.
    ///
    /// `TooShort` comes exactly where the path has no segment, or too few for what it is said to name; `NoMemory` only where it hasn't.
    pub fn gen_for_rust_link(&self, alloc: Global, rust_link: &RustLink) -> Result<Text, LinkFault>
        ensures text { IfOk result (λ text. link_text self.now rust_link.now.typ rust_link.now.path
            ≡ Some text) }
        ensures short { IsErrOf result LinkFault.TooShort
            ↔ (link_text self.now rust_link.now.typ rust_link.now.path ≡ None) }
    {
        let path = rust_link.path.as_slice();
        let Some(crate_name) = path.first() else {
            return Err(LinkFault::TooShort);
        };
        if is_short(rust_link.typ, path.len()) {
            return Err(LinkFault::TooShort);
        }
        Ok(self.link(alloc, crate_name, rust_link.typ, path)?)
    }
}
