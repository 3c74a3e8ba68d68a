//! The documentation of declarations.

ghost use Rattle.std.specs.Prelude.{◌≡◌, IfOk};

use crate::attrs::{Attrs, DiplomatBackendAttrCfg};
use bridge_text::{NoMemory, Text, clone_items, clone_texts};
use sqlite_items::Items;
use std::alloc::Global;

/// What documents one declaration.
pub struct Docs {
    /// The blocks of text, in order.
    pub blocks: Items<DocBlock>,
    /// The links to Rust's documentation, in order.
    pub links: Items<RustLink>,
}

/// By hand, so that where one is let go the proof has one call.
impl Drop for Docs {
    fn drop(self) {
        let Docs {
            blocks: _,
            links: _,
        } = self;
    }
}

impl Docs {
    /// A copy, which is equal to the documentation.
    pub fn try_clone(&self, alloc: Global) -> Result<Docs, NoMemory>
        ensures { IfOk result (λ copy. copy ≡ self.now) }
    {
        Ok(Docs {
            blocks: clone_items(alloc, &self.blocks, DocBlock::try_clone)?,
            links: clone_items(alloc, &self.links, RustLink::try_clone)?,
        })
    }
}

/// Lines for the backends that meet a condition.
#[derive(Drop)]
pub struct DocBlock {
    /// Where the lines count.
    pub cfg: DiplomatBackendAttrCfg,
    /// The lines.
    pub lines: Text,
}

impl DocBlock {
    /// A copy, which is equal to the block.
    pub fn try_clone(&self, alloc: Global) -> Result<DocBlock, NoMemory>
        ensures { IfOk result (λ copy. copy ≡ self.now) }
    {
        let lines = self.lines.try_clone(alloc)?;
        let cfg = self.cfg.try_clone(alloc)?;
        Ok(DocBlock { cfg, lines })
    }
}

/// A link to the documentation of a Rust item.
#[derive(Drop)]
pub struct RustLink {
    /// The segments of the item's path, its crate first.
    pub path: Items<Text>,
    /// What the path names.
    pub typ: DocType,
    /// How the link is shown.
    pub display: RustLinkDisplay,
}

impl RustLink {
    /// A copy, which is equal to the link.
    pub fn try_clone(&self, alloc: Global) -> Result<RustLink, NoMemory>
        ensures { IfOk result (λ copy. copy ≡ self.now) }
    {
        Ok(RustLink {
            path: clone_texts(alloc, &self.path)?,
            typ: self.typ,
            display: self.display,
        })
    }
}

/// How a link is shown.
#[derive(Clone, Copy)]
pub enum RustLinkDisplay {
    /// As a sentence.
    Normal,
    /// As the bare link.
    Compact,
    /// Not at all.
    Hidden,
}

/// What a documented path names: the kinds of pages and anchors of rustdoc.
#[derive(Clone, Copy)]
pub enum DocType {
    Struct,
    StructField,
    Enum,
    EnumVariant,
    EnumVariantField,
    Trait,
    FnInStruct,
    FnInTypedef,
    FnInEnum,
    FnInTrait,
    DefaultFnInTrait,
    Fn,
    Mod,
    Constant,
    AssociatedConstantInEnum,
    AssociatedConstantInTrait,
    AssociatedConstantInStruct,
    Macro,
    AssociatedTypeInEnum,
    AssociatedTypeInTrait,
    AssociatedTypeInStruct,
    Typedef,
}

/// A copy of what documents and marks a declaration, which is equal to them.
pub(crate) fn clone_notes(
    alloc: Global,
    docs: &Docs,
    attrs: &Attrs,
) -> Result<(Docs, Attrs), NoMemory>
    ensures { IfOk result (λ copy. copy ≡ (docs.now, attrs.now)) }
{
    let docs = docs.try_clone(alloc)?;
    let attrs = attrs.try_clone(alloc)?;
    Ok((docs, attrs))
}
