//! Items, whose keys depend on their kind.

ghost use Rattle.serde_json.specs.View.{view};
ghost use Rattle.bridge_form.specs.Form.{object_with, one_word};
ghost use Rattle.bridge_form.specs.Given.{Gives};
ghost use Rattle.bridge_read_parts.specs.Taking.{needed};
ghost use Rattle.bridge_words.specs.Words.{item_kind_words};
ghost use Rattle.bridge_read.specs.forms.Items.{struct_parts, opaque_parts, enum_parts, trait_parts, function_parts};

use crate::InputForms;
use crate::methods::{or_name, signed};
use bridge_ast::{Enum, Field, Function, Item, LifetimeEnv, OpaqueType, Struct, Trait, Variant};
use bridge_form::{Key, Read, ReadFault, in_member, object, under};
use bridge_read_parts::{
    FromForm, documented, flag, listed, mutability, needed, optional, read_object,
};
use bridge_words::{ItemKind, one_word};
use serde_json::Value;
use std::alloc::Global;

#[tactic(auto, unfolding(crate::specs::forms::Items::field, bridge_read_parts::specs::forms::Docs::documented, bridge_form::specs::Left::are_apart, bridge_form::specs::Keys::key_text))]
impl FromForm<InputForms> for Field {
    ghost use Rattle.bridge_read.specs.forms.Items.{field};

    ghost form = { field.read };

    fn from_form(alloc: Global, value: Value) -> Read<Field> {
        read_object!(alloc, value, left, {
            Name => name = needed(alloc, &mut left)?;
            Ty => ty = needed(alloc, &mut left)?;
            Docs Attrs => (docs, attrs) = documented(alloc, &mut left)?;
        } Ok(Field { name, ty, docs, attrs }))
    }
}

#[tactic(auto, unfolding(crate::specs::forms::Items::variant, bridge_read_parts::specs::forms::Docs::documented, bridge_form::specs::Left::are_apart, bridge_form::specs::Keys::key_text))]
impl FromForm<InputForms> for Variant {
    ghost use Rattle.bridge_read.specs.forms.Items.{variant};

    ghost form = { variant.read };

    fn from_form(alloc: Global, value: Value) -> Read<Variant> {
        read_object!(alloc, value, left, {
            Name => name = needed(alloc, &mut left)?;
            Discriminant => discriminant = needed(alloc, &mut left)?;
            Docs Attrs => (docs, attrs) = documented(alloc, &mut left)?;
        } Ok(Variant { name, discriminant, docs, attrs }))
    }
}

/// A struct, or an out-struct.
#[tactic(auto, unfolding(bridge_read_parts::specs::forms::Docs::documented, bridge_form::specs::Left::are_apart, bridge_form::specs::Keys::key_text))]
fn struct_item(alloc: Global, value: Value, output_only: bool) -> Read<Item>
    ensures { Gives result ((object_with (struct_parts output_only)).read (view value)) }
{
    read_object!(alloc, value, left, {
        Kind => _ = left.next();
        Name => name = needed(alloc, &mut left)?;
        Lifetimes => nodes = listed(alloc, &mut left)?;
        Fields => fields = listed(alloc, &mut left)?;
        Methods => methods = listed(alloc, &mut left)?;
        Docs Attrs => (docs, attrs) = documented(alloc, &mut left)?;
    } {
        let lifetimes = LifetimeEnv { nodes };
        Ok(Item::Struct(Struct { name, lifetimes, fields, methods, output_only, docs, attrs }))
    })
}

/// An opaque.
#[tactic(auto, unfolding(crate::specs::forms::Items::opaque_parts, bridge_read_parts::specs::forms::Docs::documented, bridge_form::specs::Left::are_apart, bridge_form::specs::Keys::key_text))]
fn opaque(alloc: Global, value: Value) -> Read<Item>
    ensures { Gives result ((object_with opaque_parts).read (view value)) }
{
    read_object!(alloc, value, left, {
        Kind => _ = left.next();
        Name => name = needed(alloc, &mut left)?;
        Lifetimes => nodes = listed(alloc, &mut left)?;
        Mutable => mutable = flag(alloc, &mut left)?;
        Methods => methods = listed(alloc, &mut left)?;
        DtorAbiName => dtor_abi_name = or_name(alloc, &name, optional(alloc, &mut left)?)?;
        Docs Attrs => (docs, attrs) = documented(alloc, &mut left)?;
    } {
        let (lifetimes, mutability) = (LifetimeEnv { nodes }, mutability(mutable));
        Ok(Item::Opaque(OpaqueType {
            dtor_abi_name, name, lifetimes, mutability, methods, docs, attrs,
        }))
    })
}

/// An enum.
#[tactic(auto, unfolding(crate::specs::forms::Items::enum_parts, bridge_read_parts::specs::forms::Docs::documented, bridge_form::specs::Left::are_apart, bridge_form::specs::Keys::key_text))]
fn enum_item(alloc: Global, value: Value) -> Read<Item>
    ensures { Gives result ((object_with enum_parts).read (view value)) }
{
    read_object!(alloc, value, left, {
        Kind => _ = left.next();
        Name => name = needed(alloc, &mut left)?;
        Variants => variants = listed(alloc, &mut left)?;
        Methods => methods = listed(alloc, &mut left)?;
        Docs Attrs => (docs, attrs) = documented(alloc, &mut left)?;
    } Ok(Item::Enum(Enum { name, variants, methods, docs, attrs })))
}

/// A trait.
#[tactic(auto, unfolding(crate::specs::forms::Items::trait_parts, bridge_read_parts::specs::forms::Docs::documented, bridge_form::specs::Left::are_apart, bridge_form::specs::Keys::key_text))]
fn trait_item(alloc: Global, value: Value) -> Read<Item>
    ensures { Gives result ((object_with trait_parts).read (view value)) }
{
    read_object!(alloc, value, left, {
        Kind => _ = left.next();
        Name => name = needed(alloc, &mut left)?;
        Lifetimes => nodes = listed(alloc, &mut left)?;
        Methods => methods = listed(alloc, &mut left)?;
        IsSend => is_send = flag(alloc, &mut left)?;
        IsSync => is_sync = flag(alloc, &mut left)?;
        Docs Attrs => (docs, attrs) = documented(alloc, &mut left)?;
    } {
        let lifetimes = LifetimeEnv { nodes };
        Ok(Item::Trait(Trait { name, lifetimes, methods, is_send, is_sync, docs, attrs }))
    })
}

/// A function.
#[tactic(auto, unfolding(crate::specs::forms::Items::function_parts, crate::specs::forms::Methods::signature, bridge_read_parts::specs::forms::Docs::documented, bridge_form::specs::Left::are_apart, bridge_form::specs::Keys::key_text))]
fn function(alloc: Global, value: Value) -> Read<Item>
    ensures { Gives result ((object_with function_parts).read (view value)) }
{
    read_object!(alloc, value, left, {
        Kind => _ = left.next();
        Name => name = needed(alloc, &mut left)?;
        AbiName => abi_name = or_name(alloc, &name, optional(alloc, &mut left)?)?;
        Lifetimes Params Ret => signature = signed(alloc, &mut left)?;
        Docs Attrs => (docs, attrs) = documented(alloc, &mut left)?;
    } {
        let (params, output_type) = (signature.params, signature.returned);
        let lifetimes = LifetimeEnv { nodes: signature.nodes };
        Ok(Item::Function(Function { abi_name, name, lifetimes, params, output_type, docs, attrs }))
    })
}

/// The kind of an item.
fn kind_of(alloc: Global, value: &Value) -> Read<ItemKind>
    ensures { Gives result
        (needed (one_word item_kind_words).read Key.Kind (view value.now)) }
{
    match under(value, Key::Kind) {
        Some(kind) => in_member(alloc, Key::Kind, one_word(alloc, kind)),
        None => Err(ReadFault::missing_key(alloc)),
    }
}

#[tactic(auto, unfolding(crate::specs::forms::Items::item_form))]
impl FromForm<InputForms> for Item {
    ghost use Rattle.bridge_read.specs.forms.Items.{item_form};

    ghost form = { item_form.read };

    fn from_form(alloc: Global, value: Value) -> Read<Item> {
        object(alloc, &value)?;
        match kind_of(alloc, &value)? {
            ItemKind::Struct => struct_item(alloc, value, false),
            ItemKind::OutStruct => struct_item(alloc, value, true),
            ItemKind::Opaque => opaque(alloc, value),
            ItemKind::Enum => enum_item(alloc, value),
            ItemKind::Trait => trait_item(alloc, value),
            ItemKind::Function => function(alloc, value),
        }
    }
}
