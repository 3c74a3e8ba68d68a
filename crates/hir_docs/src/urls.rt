//! The URLs under which the documentation of crates lies.

ghost use Rattle.std.specs.Prelude.{◌≡◌, [], None};
ghost use Rattle.std.specs.Option.{option_copied};
ghost use Rattle.hir_docs.specs.Urls.{base_of};

use bridge_decl::Text;
use std::alloc::Global;
use std::collections::BTreeMap;
use std::marker::Model;

/// Where links to the documentation of Rust items lead: a base URL for each of some crates, and one for all others, if there is
/// one. As `diplomat_core::hir::DocsUrlGenerator`.
#[derive(Drop)]
pub struct DocsUrlGenerator {
    default_url: Option<Text>,
    base_urls: BTreeMap<Text, Text>,
}

impl Model for DocsUrlGenerator {
    ghost use Rattle.hir_docs.specs.Urls.{BaseUrls};

    ghost Value = { BaseUrls };

    ghost view = { λ it. record { default = it.default_url; bases = it.base_urls.entries } };
}

impl DocsUrlGenerator {
    /// The generator that has no base URL for any crate.
    pub fn new(alloc: Global) -> DocsUrlGenerator
        ensures { result ≡ record { default = None; bases = [] } }
    {
        DocsUrlGenerator {
            default_url: None,
            base_urls: BTreeMap::new(alloc),
        }
    }

    /// The generator with these base URLs, by the names of crates, and with that one for all other crates.
    pub fn with_base_urls(
        default_url: Option<Text>,
        base_urls: BTreeMap<Text, Text>,
    ) -> DocsUrlGenerator
        ensures { result ≡ record { default = default_url; bases = base_urls.entries } }
    {
        DocsUrlGenerator {
            default_url,
            base_urls,
        }
    }

    /// The base URL for crates that have none of their own. None where there is no such URL.
    pub fn default_url(&self) -> Option<&str>
        ensures { option_copied result ≡ self.now.default }
    {
        match &self.default_url {
            Some(url) => Some(url.as_str()),
            None => None,
        }
    }

    /// The base URL of the crate of that name. None where the crate has none of its own.
    pub fn base_url(&self, crate_name: &Text) -> Option<&str>
        ensures { option_copied result ≡ base_of self.now crate_name.now }
    {
        match self.base_urls.get(crate_name) {
            Some(url) => Some(url.as_str()),
            None => None,
        }
    }
}
