//! What an input says besides declarations: the backend, the configuration, and where documentation lies.

ghost use Rattle.std.specs.Prelude.{◌≡◌, [], ◌∷◌, List};
ghost use Rattle.serde_json.specs.Data.{Data};
ghost use Rattle.hir_backends.specs.Support.{no_flags};
ghost use Rattle.bridge_form.specs.declared.keys.Key.{Key as Name};
ghost use Rattle.bridge_form.specs.Form.{find_word, read_alone};
ghost use Rattle.bridge_form.specs.Reading.{list_of, text_of};
ghost use Rattle.bridge_read.specs.forms.Settings.{backend_names, flag_words, name_value, turned_on};
ghost use Rattle.bridge_form.specs.Left.{IsLeft};
ghost use Rattle.bridge_read_parts.specs.Taking.{Takes, held};

use crate::InputForms;
use bridge_ast::{Items, NoMemory, Text};
use bridge_form::{Fields, Key, Read, ReadFault, in_member_named, members, text};
use bridge_read_parts::{FromForm, flag, held, listed, needed, optional, read_object};
use hir_backends::{BackendAttrSupport, BasicAttributeValidator, Names, Pairs, SupportFlag};
use hir_config::LoweringConfig;
use hir_docs::DocsUrlGenerator;
use serde_json::Value;
use std::alloc::Global;
use std::collections::BTreeMap;
use std::marker::Model;

/// The flag of that name.
fn flag_called(name: &str) -> Option<SupportFlag>
    ensures { result ≡ find_word flag_words name.now }
{
    for flag in SupportFlag::all() {
        if flag.text() == name {
            return Some(*flag);
        }
    }
    None
}

#[tactic(auto, unfolding(crate::specs::forms::Settings::support_flag))]
impl FromForm<InputForms> for SupportFlag {
    ghost use Rattle.bridge_read.specs.forms.Settings.{support_flag};

    ghost form = { support_flag.read };

    fn from_form(alloc: Global, value: Value) -> Read<SupportFlag> {
        flag_called(text(alloc, &value)?).ok_or(ReadFault::wrong_form(alloc))
    }
}

/// The support with these flags on and no others.
#[tactic(auto, using(crate::proofs::SettingLemmas::turned_on_more))]
fn turned_on(flags: &[SupportFlag]) -> BackendAttrSupport
    ensures { result ≡ turned_on no_flags flags.now }
{
    let mut support = BackendAttrSupport::none();
    for flag in flags {
        support = support.with(*flag);
    }
    support
}

#[tactic(auto, unfolding(crate::specs::forms::Settings::supported))]
impl FromForm<InputForms> for BackendAttrSupport {
    ghost use Rattle.bridge_read.specs.forms.Settings.{supported};

    ghost form = { supported.read };

    fn from_form(alloc: Global, value: Value) -> Read<BackendAttrSupport> {
        let flags = Items::from_form(alloc, value)?;
        Ok(turned_on(flags.as_slice()))
    }
}

#[tactic(auto, unfolding(crate::specs::forms::Settings::name_value, bridge_form::specs::Left::are_apart, bridge_form::specs::Keys::key_text))]
impl FromForm<InputForms> for (Text, Text) {
    ghost use Rattle.bridge_read.specs.forms.Settings.{name_value};

    ghost form = { name_value.read };

    fn from_form(alloc: Global, value: Value) -> Read<(Text, Text)> {
        read_object!(alloc, value, left, {
            Name => name = needed(alloc, &mut left)?;
            Value => value = needed(alloc, &mut left)?;
        } Ok((name, value)))
    }
}

/// The names under the next key; none where nothing stands there.
fn names(alloc: Global, left: &mut Fields) -> Read<Names>
    ensures { (key : Name) (keys : List Name) (d : Data) → IsLeft left.old (key ∷ keys) d
        → Takes result (held [] (list_of text_of) key d) left.new keys d }
{
    Ok(Names::new(alloc, listed(alloc, left)?)?)
}

/// The pairs under the next key; none where nothing stands there.
fn pairs(alloc: Global, left: &mut Fields) -> Read<Pairs>
    ensures { (key : Name) (keys : List Name) (d : Data) → IsLeft left.old (key ∷ keys) d
        → Takes result (held [] (list_of name_value.read) key d) left.new keys d }
{
    Ok(Pairs::new(alloc, listed(alloc, left)?)?)
}

/// The names of a backend, with what it supports.
type BackendNames = (Text, Names, BackendAttrSupport);

/// The keys that the backend begins with.
#[tactic(auto, unfolding(crate::specs::forms::Settings::backend_names))]
fn backend_names(alloc: Global, left: &mut Fields) -> Read<BackendNames>
    ensures { (keys : List Name) (d : Data)
        → IsLeft left.old (Key.Name ∷ Key.OtherNames ∷ Key.Supports ∷ keys) d
        → Takes result (read_alone backend_names d) left.new keys d }
{
    let name = held(alloc, left, Text::new(alloc, "")?)?;
    let others = names(alloc, left)?;
    let support = held(alloc, left, BackendAttrSupport::none())?;
    Ok((name, others, support))
}

#[tactic(auto, unfolding(crate::specs::forms::Settings::backend, crate::specs::forms::Settings::backend_names, bridge_form::specs::Left::are_apart, bridge_form::specs::Keys::key_text))]
impl FromForm<InputForms> for BasicAttributeValidator {
    ghost use Rattle.bridge_form.specs.Form.{find_word, read_alone};
    ghost use Rattle.bridge_read.specs.forms.Settings.{backend};

    ghost form = { backend.read };

    fn from_form(alloc: Global, value: Value) -> Read<BasicAttributeValidator> {
        read_object!(alloc, value, left, {
            Name OtherNames Supports => called = backend_names(alloc, &mut left)?;
            Pairs => name_values = pairs(alloc, &mut left)?;
            Features => features_enabled = names(alloc, &mut left)?;
            Unstable => semver_unstable_features = names(alloc, &mut left)?;
        } {
            let (backend_name, other_backend_names, support) = called;
            Ok(BasicAttributeValidator {
                backend_name, support, other_backend_names, name_values, features_enabled,
                semver_unstable_features,
            })
        })
    }
}

#[tactic(auto, unfolding(crate::specs::forms::Settings::config, bridge_form::specs::Left::are_apart, bridge_form::specs::Keys::key_text))]
impl FromForm<InputForms> for LoweringConfig {
    ghost use Rattle.bridge_read.specs.forms.Settings.{config};

    ghost form = { config.read };

    fn from_form(alloc: Global, value: Value) -> Read<LoweringConfig> {
        read_object!(alloc, value, left, {
            UnsafeReferences => unsafe_references_in_callbacks = flag(alloc, &mut left)?;
        } Ok(LoweringConfig { unsafe_references_in_callbacks }))
    }
}

/// The URLs of crates, as contracts see them: the names of the crates in order, each with its URL.
#[derive(Drop)]
pub struct Bases {
    urls: BTreeMap<Text, Text>,
}

impl Model for Bases {
    ghost use Rattle.std.specs.Prelude.{List, ℕ};

    ghost Value = { List (List ℕ × List ℕ) };

    ghost view = { λ it. it.urls.entries };
}

impl Bases {
    ghost use Rattle.std.specs.BTreeMap.{insert_entry};
    ghost use Rattle.std.specs.Cmp.Lexicographic.{slice_cmp};
    ghost use Rattle.std.specs.Ordering.{nat_cmp};
    ghost use Rattle.std.specs.Prelude.{OnOk};

    /// No URLs.
    fn new(alloc: Global) -> Bases
        ensures { result ≡ [] }
    {
        Bases {
            urls: BTreeMap::new(alloc),
        }
    }

    /// Adds the URL of the crate of that name.
    fn put(&mut self, name: Text, url: Text) -> Result<(), NoMemory>
        ensures { OnOk result (self.new ≡ insert_entry (slice_cmp nat_cmp) self.old name url) }
    {
        self.urls.insert(name, url)?;
        Ok(())
    }

    /// The URLs by the names of the crates.
    fn into_map(self) -> BTreeMap<Text, Text>
        ensures { result.entries ≡ self }
    {
        self.urls
    }
}

#[tactic(auto, unfolding(crate::specs::forms::Settings::bases))]
impl FromForm<InputForms> for Bases {
    ghost use Rattle.bridge_read.specs.forms.Settings.{bases};

    ghost form = { bases.read };

    fn from_form(alloc: Global, value: Value) -> Read<Bases> {
        let mut bases = Bases::new(alloc);
        for (name, entry) in members(alloc, value)? {
            if !entry.is_null() {
                let url = Text::from_form(alloc, entry);
                let url = in_member_named(alloc, name.as_str(), url)?;
                bases.put(Text::from(name), url)?;
            }
        }
        Ok(bases)
    }
}

#[tactic(auto, unfolding(crate::specs::forms::Settings::urls, bridge_form::specs::Left::are_apart, bridge_form::specs::Keys::key_text))]
impl FromForm<InputForms> for DocsUrlGenerator {
    ghost use Rattle.bridge_read.specs.forms.Settings.{urls};

    ghost form = { urls.read };

    fn from_form(alloc: Global, value: Value) -> Read<DocsUrlGenerator> {
        read_object!(alloc, value, left, {
            Default => default = optional(alloc, &mut left)?;
            Bases => bases = held(alloc, &mut left, Bases::new(alloc))?;
        } Ok(DocsUrlGenerator::with_base_urls(default, bases.into_map())))
    }
}
