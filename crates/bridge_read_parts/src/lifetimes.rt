//! Lifetimes.

ghost use Rattle.std.specs.Prelude.{◌≡◌};
ghost use Rattle.bridge_read_parts.specs.forms.Lifetimes.{lifetime_called, mutability};

use crate::read_object;
use crate::reading::{FromForm, PartForms, flag, listed, needed, needed_some};
use bridge_ast::Mutability::{Immutable, Mutable};
use bridge_ast::{Lifetime, LifetimeNode, Mutability, PathType, Text};
use bridge_form::Read;
use serde_json::Value;
use std::alloc::Global;

#[tactic(auto, unfolding(crate::specs::forms::Lifetimes::node, bridge_form::specs::Left::are_apart, bridge_form::specs::Keys::key_text))]
impl FromForm<PartForms> for LifetimeNode {
    ghost use Rattle.bridge_read_parts.specs.forms.Lifetimes.{node};

    ghost form = { node.read };

    fn from_form(alloc: Global, value: Value) -> Read<LifetimeNode> {
        read_object!(alloc, value, left, {
            Name => name = needed(alloc, &mut left)?;
            Longer => longer = listed(alloc, &mut left)?;
            Shorter => shorter = listed(alloc, &mut left)?;
        } Ok(LifetimeNode { name, longer, shorter }))
    }
}

/// A lifetime by its text: `static`, `_` for an anonymous one, or a name.
#[tactic(auto, unfolding(crate::specs::forms::Lifetimes::lifetime_called))]
fn lifetime_called(name: Text) -> Lifetime
    ensures { result ≡ lifetime_called name }
{
    match name.as_str() {
        "static" => Lifetime::Static,
        "_" => Lifetime::Anonymous,
        _ => Lifetime::Named(name),
    }
}

#[tactic(auto, unfolding(crate::specs::forms::Lifetimes::lifetime))]
impl FromForm<PartForms> for Lifetime {
    ghost use Rattle.bridge_read_parts.specs.forms.Lifetimes.{lifetime};

    ghost form = { lifetime.read };

    fn from_form(alloc: Global, value: Value) -> Read<Lifetime> {
        Ok(lifetime_called(Text::from_form(alloc, value)?))
    }
}

/// Whether a reference may be written through.
pub fn mutability(mutable: bool) -> Mutability
    ensures { result ≡ mutability mutable }
{
    if mutable { Mutable } else { Immutable }
}

#[tactic(auto, unfolding(crate::specs::forms::Lifetimes::reference, bridge_form::specs::Left::are_apart, bridge_form::specs::Keys::key_text))]
impl FromForm<PartForms> for (Lifetime, Mutability) {
    ghost use Rattle.bridge_read_parts.specs.forms.Lifetimes.{reference};

    ghost form = { reference.read };

    fn from_form(alloc: Global, value: Value) -> Read<(Lifetime, Mutability)> {
        read_object!(alloc, value, left, {
            Lifetime => lifetime = needed(alloc, &mut left)?;
            Mutable => mutable = flag(alloc, &mut left)?;
        } Ok((lifetime, mutability(mutable))))
    }
}

#[tactic(auto, unfolding(crate::specs::forms::Lifetimes::path, bridge_form::specs::Left::are_apart, bridge_form::specs::Keys::key_text))]
impl FromForm<PartForms> for PathType {
    ghost use Rattle.bridge_read_parts.specs.forms.Lifetimes.{path};

    ghost form = { path.read };

    fn from_form(alloc: Global, value: Value) -> Read<PathType> {
        read_object!(alloc, value, left, {
            Segments => segments = needed_some(alloc, &mut left)?;
            Lifetimes => lifetimes = listed(alloc, &mut left)?;
        } Ok(PathType { segments, lifetimes }))
    }
}
