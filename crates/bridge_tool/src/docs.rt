//! The page of the links to documentation.

ghost use Rattle.std.specs.Prelude.{◌≡◌, IfOk, OnOk};
ghost use Rattle.std.specs.List.{flat_map};
ghost use Rattle.bridge_order.specs.Order.{module_order};
ghost use Rattle.bridge_links.specs.LinkLines.{with_links};
ghost use Rattle.bridge_tool.specs.DocsPage.{docs_page, links_at};

use bridge_ast::{Module, NoMemory, Text};
use bridge_links::LinkLines;
use bridge_order::module_order;
use bridge_read::Input;
use hir_docs::DocsUrlGenerator;
use sqlite_items::at;
use std::alloc::Global;

/// Adds the lines of the module of that number, if there is one.
fn push_number(
    alloc: Global,
    lines: &mut LinkLines,
    urls: &DocsUrlGenerator,
    modules: &[Module],
    number: usize,
) -> Result<(), NoMemory>
    ensures { OnOk result (lines.new ≡ with_links urls.now lines.old
        (links_at modules.now number)) }
{
    match at(modules, number) {
        Some(module) => lines.push_module(alloc, urls, module),
        None => Ok(()),
    }
}

/// Adds the lines of the modules of these numbers, in order.
#[tactic(auto, using(crate::proofs::DocsLemmas::docs_step, crate::proofs::DocsLemmas::docs_none))]
fn push_modules(
    alloc: Global,
    lines: &mut LinkLines,
    urls: &DocsUrlGenerator,
    modules: &[Module],
    order: &[usize],
) -> Result<(), NoMemory>
    ensures { OnOk result (lines.new ≡ with_links urls.now lines.old
        (flat_map (links_at modules.now) order.now)) }
{
    for number in order {
        push_number(alloc, lines, urls, modules, *number)?;
    }
    Ok(())
}

/// The lines of the links of an input's declarations, and last how many they are. No rule is tested. `NoMemory` where there is no memory
/// for the text.
pub fn docs_page(alloc: Global, input: &Input) -> Result<Text, NoMemory>
    ensures { IfOk result (λ text. text ≡ docs_page input.now) }
{
    let modules = input.env.modules();
    let order = module_order(alloc, modules)?;
    let mut lines = LinkLines::new(alloc);
    push_modules(alloc, &mut lines, &input.urls, modules, &order)?;
    lines.into_text(alloc)
}
