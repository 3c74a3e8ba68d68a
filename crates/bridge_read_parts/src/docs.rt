//! The documentation of declarations.

ghost use Rattle.std.specs.Prelude.{◌≡◌, ◌∷◌, List};
ghost use Rattle.serde_json.specs.Data.{Data};
ghost use Rattle.bridge_form.specs.declared.keys.Key.{Key as Name};
ghost use Rattle.bridge_form.specs.Form.{read_alone};
ghost use Rattle.bridge_read_parts.specs.forms.Docs.{no_docs, documented};
ghost use Rattle.bridge_form.specs.Left.{IsLeft};
ghost use Rattle.bridge_read_parts.specs.Taking.{Takes};

use crate::attrs::no_attrs;
use crate::read_object;
use crate::reading::{FromForm, PartForms, held, listed, needed, needed_word};
use bridge_ast::{Attrs, DocBlock, Docs, Items, RustLink};
use bridge_form::{Fields, Key, Read};
use serde_json::Value;
use std::alloc::Global;

#[tactic(auto, unfolding(crate::specs::forms::Docs::block, bridge_form::specs::Left::are_apart, bridge_form::specs::Keys::key_text))]
impl FromForm<PartForms> for DocBlock {
    ghost use Rattle.bridge_read_parts.specs.forms.Docs.{block};

    ghost form = { block.read };

    fn from_form(alloc: Global, value: Value) -> Read<DocBlock> {
        read_object!(alloc, value, left, {
            Condition => cfg = needed(alloc, &mut left)?;
            Lines => lines = needed(alloc, &mut left)?;
        } Ok(DocBlock { cfg, lines }))
    }
}

#[tactic(auto, unfolding(crate::specs::forms::Docs::link, crate::specs::forms::Docs::doc_kind, crate::specs::forms::Docs::display, bridge_form::specs::Left::are_apart, bridge_form::specs::Keys::key_text))]
impl FromForm<PartForms> for RustLink {
    ghost use Rattle.bridge_read_parts.specs.forms.Docs.{link};

    ghost form = { link.read };

    fn from_form(alloc: Global, value: Value) -> Read<RustLink> {
        read_object!(alloc, value, left, {
            Path => path = needed(alloc, &mut left)?;
            Kind => typ = needed_word(alloc, &mut left)?;
            Display => display = needed_word(alloc, &mut left)?;
        } Ok(RustLink { path, typ, display }))
    }
}

#[tactic(auto, unfolding(crate::specs::forms::Docs::docs, bridge_form::specs::Left::are_apart, bridge_form::specs::Keys::key_text))]
impl FromForm<PartForms> for Docs {
    ghost use Rattle.bridge_read_parts.specs.forms.Docs.{docs};

    ghost form = { docs.read };

    fn from_form(alloc: Global, value: Value) -> Read<Docs> {
        read_object!(alloc, value, left, {
            Blocks => blocks = listed(alloc, &mut left)?;
            Links => links = listed(alloc, &mut left)?;
        } Ok(Docs { blocks, links }))
    }
}

/// The documentation of a declaration that has none.
pub fn no_docs(alloc: Global) -> Docs
    ensures { result ≡ no_docs }
{
    Docs {
        blocks: Items::new(alloc),
        links: Items::new(alloc),
    }
}

/// The documentation and the attributes of a declaration.
#[tactic(auto, unfolding(crate::specs::forms::Docs::documented))]
pub fn documented(alloc: Global, left: &mut Fields) -> Read<(Docs, Attrs)>
    ensures { (keys : List Name) (d : Data) → IsLeft left.old (Key.Docs ∷ Key.Attrs ∷ keys) d
        → Takes result (read_alone documented d) left.new keys d }
{
    let docs = held(alloc, left, no_docs(alloc))?;
    let attrs = held(alloc, left, no_attrs(alloc))?;
    Ok((docs, attrs))
}
