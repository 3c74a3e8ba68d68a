//! Lines of links of items and modules.

ghost use Rattle.std.specs.Prelude.{◌≡◌, OnOk, None};
ghost use Rattle.bridge_decl.specs.Names.{item_name};
ghost use Rattle.bridge_links.specs.LinkLines.{inner_links, item_links, module_links, own_docs, with_links};

use crate::lines::LinkLines;
use bridge_decl::{Docs, Item, Items, Module, NoMemory, Text};
use hir_docs::DocsUrlGenerator;
use std::alloc::Global;

/// The name of an item.
fn name_of(item: &Item) -> &Text
    ensures { result.now ≡ item_name item.now }
{
    match item {
        Item::Struct(item) => &item.name,
        Item::Opaque(item) => &item.name,
        Item::Enum(item) => &item.name,
        Item::Trait(item) => &item.name,
        Item::Function(item) => &item.name,
    }
}

/// What documents an item itself.
fn docs_of(item: &Item) -> &Docs
    ensures { result.now ≡ own_docs item.now }
{
    match item {
        Item::Struct(item) => &item.docs,
        Item::Opaque(item) => &item.docs,
        Item::Enum(item) => &item.docs,
        Item::Trait(item) => &item.docs,
        Item::Function(item) => &item.docs,
    }
}

/// Adds the lines of an item's methods.
#[tactic(auto, using(crate::proofs::LinkLaws::with_none))]
fn push_inner(
    alloc: Global,
    lines: &mut LinkLines,
    urls: &DocsUrlGenerator,
    path: &Items<Text>,
    item: &Item,
) -> Result<(), NoMemory>
    ensures { OnOk result (lines.new ≡ with_links urls.now lines.old
        (inner_links path.now item.now)) }
{
    match item {
        Item::Struct(item) => {
            lines.push_methods(alloc, urls, path, &item.name, item.methods.as_slice())
        }
        Item::Opaque(item) => {
            lines.push_methods(alloc, urls, path, &item.name, item.methods.as_slice())
        }
        Item::Enum(item) => {
            lines.push_methods(alloc, urls, path, &item.name, item.methods.as_slice())
        }
        Item::Trait(item) => {
            lines.push_trait_methods(alloc, urls, path, &item.name, item.methods.as_slice())
        }
        Item::Function(_) => Ok(()),
    }
}

/// Adds the lines of an item, and then of each of its methods.
#[tactic(auto, using(crate::proofs::LinkLaws::with_more))]
fn push_item(
    alloc: Global,
    lines: &mut LinkLines,
    urls: &DocsUrlGenerator,
    path: &Items<Text>,
    item: &Item,
) -> Result<(), NoMemory>
    ensures { OnOk result (lines.new ≡ with_links urls.now lines.old
        (item_links path.now item.now)) }
{
    lines.push_at(alloc, urls, path, name_of(item), None, docs_of(item))?;
    push_inner(alloc, lines, urls, path, item)
}

impl LinkLines {
    #[tactic(auto, using(crate::proofs::LinkLaws::with_step, crate::proofs::LinkLaws::with_none))]
    /// Adds the lines of a module's items in order: of each the item's own links, then those of each of its methods, those of traits and
    /// disabled ones too. `NoMemory` where there is no memory for them.
    pub fn push_module(
        &mut self,
        alloc: Global,
        urls: &DocsUrlGenerator,
        module: &Module,
    ) -> Result<(), NoMemory>
        ensures { OnOk result (self.new ≡ with_links urls.now self.old
            (module_links «module».now)) }
    {
        for item in module.items.as_slice() {
            push_item(alloc, self, urls, &module.path, item)?;
        }
        Ok(())
    }
}
