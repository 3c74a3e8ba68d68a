//! Lines of links, added module by module.

ghost use Rattle.std.specs.Prelude.{◌≡◌, List, IfOk, OnOk, string_bytes};
ghost use Rattle.std.specs.List.{flat_map};
ghost use Rattle.std.specs.Option.{option_copied};
ghost use Rattle.bridge_links.specs.LinkLines.{docs_links, link_or_dash, links_page, method_links, no_lines, printed_place, link_at, PlacedLink, trait_method_links, with_links};
ghost use Rattle.bridge_links.specs.inside.Pushing.{with_line, with_link};
ghost use Rattle.hir_docs.specs.Urls.{BaseUrls};
ghost use Rattle.hir_docs.specs.Links.{link_text};

use bridge_decl::{Docs, Items, Method, NoMemory, RustLink, Text, TraitMethod, clone_texts};
use hir_docs::{DocsUrlGenerator, LinkFault};
use hir_reports::ErrorContext;
use std::alloc::{AllocError, Global};
use std::marker::Model;

/// Lines of links, and how many they are.
#[derive(Drop)]
pub struct LinkLines {
    text: String,
    count: usize,
}

impl Model for LinkLines {
    ghost use Rattle.std.specs.Prelude.{string_bytes};
    ghost use Rattle.bridge_links.specs.LinkLines.{Lines};

    ghost Value = { Lines };

    ghost view = { λ it. record { text = string_bytes it.text; count = it.count } };
}

/// The URL of a link, or a dash.
fn url_or_dash(alloc: Global, urls: &DocsUrlGenerator, link: &RustLink) -> Result<Text, NoMemory>
    ensures { IfOk result (λ text. text
        ≡ link_or_dash (link_text urls.now link.now.typ link.now.path)) }
{
    match urls.gen_for_rust_link(alloc, link) {
        Ok(text) => Ok(text),
        Err(LinkFault::TooShort) => Text::new(alloc, "-"),
        Err(LinkFault::NoMemory) => Err(AllocError),
    }
}

/// Where an item or a method stands.
fn place(
    alloc: Global,
    path: &Items<Text>,
    item: &Text,
    method: Option<&Text>,
) -> Result<String, NoMemory>
    ensures { IfOk result (λ text. string_bytes text
        ≡ printed_place path.now item.now (option_copied method.entry)) }
{
    let subitem = match method {
        Some(name) => Some(name.try_clone(alloc)?),
        None => None,
    };
    let context = ErrorContext {
        module: clone_texts(alloc, path)?,
        item: item.try_clone(alloc)?,
        subitem,
    };
    context.to_string(alloc)
}

impl LinkLines {
    /// No lines.
    pub fn new(alloc: Global) -> LinkLines
        ensures { result ≡ no_lines }
    {
        LinkLines {
            text: String::new(alloc),
            count: 0,
        }
    }

    /// Adds the line of a link.
    fn push_line(&mut self, place: &str, url: &str) -> Result<(), NoMemory>
        ensures { OnOk result (self.new ≡ with_line self.old place.now url.now) }
    {
        let Some(count) = self.count.checked_add(1) else {
            return Err(AllocError);
        };
        self.text.push_str(place)?;
        self.text.push_str(" ")?;
        self.text.push_str(url)?;
        self.text.push_str("\n")?;
        self.count = count;
        Ok(())
    }

    /// Adds the line of a link at a place.
    fn push_link(
        &mut self,
        alloc: Global,
        urls: &DocsUrlGenerator,
        place: &str,
        link: &RustLink,
    ) -> Result<(), NoMemory>
        ensures { OnOk result (self.new
            ≡ with_link urls.now self.old (link_at place.now link.now)) }
    {
        let url = url_or_dash(alloc, urls, link)?;
        self.push_line(place, url.as_str())
    }

    /// Adds the lines of a declaration's links.
    #[tactic(auto, using(crate::proofs::LinkLaws::with_step_one, crate::proofs::LinkLaws::with_none))]
    fn push_docs(
        &mut self,
        alloc: Global,
        urls: &DocsUrlGenerator,
        place: &str,
        docs: &Docs,
    ) -> Result<(), NoMemory>
        ensures { OnOk result (self.new ≡ with_links urls.now self.old
            (docs_links place.now docs.now)) }
    {
        for link in docs.links.as_slice() {
            self.push_link(alloc, urls, place, link)?;
        }
        Ok(())
    }

    /// Adds the lines of the links of a declaration that stands there.
    pub(crate) fn push_at(
        &mut self,
        alloc: Global,
        urls: &DocsUrlGenerator,
        path: &Items<Text>,
        item: &Text,
        method: Option<&Text>,
        docs: &Docs,
    ) -> Result<(), NoMemory>
        ensures { OnOk result (self.new ≡ with_links urls.now self.old
            (docs_links (printed_place path.now item.now (option_copied method.entry)) docs.now)) }
    {
        let place = place(alloc, path, item, method)?;
        self.push_docs(alloc, urls, place.as_str(), docs)
    }

    /// Adds the lines of methods.
    #[tactic(auto, using(crate::proofs::LinkLaws::with_step, crate::proofs::LinkLaws::with_none))]
    pub(crate) fn push_methods(
        &mut self,
        alloc: Global,
        urls: &DocsUrlGenerator,
        path: &Items<Text>,
        item: &Text,
        methods: &[Method],
    ) -> Result<(), NoMemory>
        ensures { OnOk result (self.new ≡ with_links urls.now self.old
            (flat_map (method_links path.now item.now) methods.now)) }
    {
        for method in methods {
            self.push_at(alloc, urls, path, item, Some(&method.name), &method.docs)?;
        }
        Ok(())
    }

    /// Adds the lines of a trait's methods.
    #[tactic(auto, using(crate::proofs::LinkLaws::with_step, crate::proofs::LinkLaws::with_none))]
    pub(crate) fn push_trait_methods(
        &mut self,
        alloc: Global,
        urls: &DocsUrlGenerator,
        path: &Items<Text>,
        item: &Text,
        methods: &[TraitMethod],
    ) -> Result<(), NoMemory>
        ensures { OnOk result (self.new ≡ with_links urls.now self.old
            (flat_map (trait_method_links path.now item.now) methods.now)) }
    {
        for method in methods {
            self.push_at(alloc, urls, path, item, Some(&method.name), &method.docs)?;
        }
        Ok(())
    }

    /// All lines, and last how many they are. `NoMemory` where there is no memory for the last line.
    pub fn into_text(self, alloc: Global) -> Result<Text, NoMemory>
        ensures all { (urls : BaseUrls) (links : List PlacedLink)
            → self ≡ with_links urls no_lines links
            → IfOk result (λ text. text ≡ links_page urls links) }
    {
        let LinkLines { text, count } = self;
        let mut text = text;
        text.push_str("links ")?;
        text.push_str(count.to_string(alloc)?.as_str())?;
        text.push_str("\n")?;
        Ok(Text::from(text))
    }
}
