//! Attributes: conditions, literals and marks.

ghost use Rattle.std.specs.Prelude.{◌≡◌, None, Some};
ghost use Rattle.std.specs.Str.{all_ascii_digits};
ghost use Rattle.serde_json.specs.View.{view};
ghost use Rattle.bridge_form.specs.Reading.{list_of};
ghost use Rattle.bridge_form.specs.Given.{Gives};
ghost use Rattle.bridge_read_parts.specs.forms.Attrs.{condition_under, condition_within, condition_word, argument_of, digits, literal_called, literal_under, literal_word, no_attrs, sole_char};

use crate::read_object;
use crate::reading::{
    FromForm, PartForms, held, keys_of, listed, needed, needed_some, optional, room_for, two,
    under_key,
};
use bridge_ast::{
    Assign, Attrs, Boxed, DiplomatBackendAttr, DiplomatBackendAttrCfg as Condition, Items, Lit,
    Meta, MetaValue, RenameAttr, RenameFault, Text,
};
use bridge_form::{Key, Read, ReadFault, entries, in_entry, in_member, sole, text};
use serde_json::Value;
use std::alloc::Global;

/// A condition for which a word stands: `*` or `auto`.
#[tactic(auto, unfolding(crate::specs::forms::Attrs::condition_word, crate::specs::forms::Attrs::condition_called))]
fn condition_word(alloc: Global, value: &Value) -> Read<Condition>
    ensures { Gives result (condition_word.read (view value.now)) }
{
    match text(alloc, value)? {
        "*" => Ok(Condition::Star),
        "auto" => Ok(Condition::Auto),
        _ => Err(ReadFault::wrong_form(alloc)),
    }
}

/// The conditions of a list.
#[cycle(conditions)]
fn condition_list(alloc: Global, value: Value, levels: usize) -> Read<Items<Condition>>
    ensures { Gives result (list_of (condition_within levels).read (view value)) }
{
    let entries = entries(alloc, value)?;
    let mut list = room_for(alloc, entries.len())?;
    for entry in entries {
        let number = list.as_slice().len();
        list.push(in_entry(number, condition_within(alloc, entry, levels))?)?;
    }
    Ok(list)
}

/// The rows of a condition: each key, and what is read under it.
macro_rules! condition_rows {
    ($then:ident $key:ident $alloc:ident $value:ident $levels:ident) => {
        $then!($key $alloc {
            Backend => Ok(Condition::BackendName(Text::from_form($alloc, $value)?)),
            Pair => {
                let (name, value) = two($alloc, $value)?;
                Ok(Condition::NameValue(name, value))
            },
            Not => {
                let inner = condition_within($alloc, $value, $levels)?;
                Ok(Condition::Not(Boxed::new($alloc, inner)?))
            },
            Any => Ok(Condition::Any(condition_list($alloc, $value, $levels)?)),
            All => Ok(Condition::All(condition_list($alloc, $value, $levels)?)),
        })
    };
}

/// What stands under the key of a condition, by the key.
#[cycle(conditions)]
fn condition_under(alloc: Global, key: Key, value: Value, levels: usize) -> Read<Condition>
    ensures { Gives result ((condition_under (condition_within levels) key).read (view value)) }
{
    condition_rows!(under_key key alloc value levels)
}

/// A condition in which conditions nest at most so deep.
#[cycle(conditions)]
#[tactic(auto, unfolding(bridge_form::specs::Left::are_apart, bridge_form::specs::Keys::key_text))]
fn condition_within(alloc: Global, value: Value, levels: usize) -> Read<Condition>
    ensures { Gives result ((condition_within levels).read (view value)) }
{
    let Some(inner) = levels.checked_sub(1) else {
        return Err(ReadFault::wrong_form(alloc));
    };
    if let Some(_) = value.as_str() {
        return condition_word(alloc, &value);
    }
    let (key, found) = sole(
        alloc,
        value,
        condition_rows!(keys_of key alloc value levels),
    )?;
    in_member(alloc, key, condition_under(alloc, key, found, inner))
}

#[tactic(auto, unfolding(crate::specs::forms::Attrs::condition))]
impl FromForm<PartForms> for Condition {
    ghost use Rattle.bridge_read_parts.specs.forms.Attrs.{condition};

    ghost form = { condition.read };

    fn from_form(alloc: Global, value: Value) -> Read<Condition> {
        condition_within(alloc, value, 128)
    }
}

/// The character of a text that has one.
#[tactic(auto, unfolding(crate::specs::forms::Attrs::sole_char))]
fn sole_char(written: &str) -> Option<char>
    ensures { result ≡ sole_char written.now }
{
    let mut chars = written.chars();
    let first = chars.next()?;
    match chars.next() {
        Some(_) => None,
        None => Some(first),
    }
}

/// Whether all bytes are decimal digits.
fn are_digits(bytes: &[u8]) -> bool
    ensures { result ≡ all_ascii_digits bytes.now }
{
    for byte in bytes {
        if !byte.is_ascii_digit() {
            return false;
        }
    }
    true
}

/// A text of one or more decimal digits.
#[tactic(auto, unfolding(crate::specs::forms::Attrs::digits))]
fn digits(alloc: Global, value: Value) -> Read<Text>
    ensures { Gives result (digits.read (view value)) }
{
    let written = Text::from_form(alloc, value)?;
    if written.as_str().is_empty() || !are_digits(written.as_str().as_bytes()) {
        return Err(ReadFault::wrong_form(alloc));
    }
    Ok(written)
}

/// The literal for which a word stands: `other`.
#[tactic(auto, unfolding(crate::specs::forms::Attrs::literal_word, crate::specs::forms::Attrs::literal_called))]
fn literal_word(alloc: Global, value: &Value) -> Read<Lit>
    ensures { Gives result (literal_word.read (view value.now)) }
{
    if text(alloc, value)? == "other" {
        Ok(Lit::Other)
    } else {
        Err(ReadFault::wrong_form(alloc))
    }
}

/// The rows of a literal: each key, and what is read under it.
macro_rules! literal_rows {
    ($then:ident $key:ident $alloc:ident $value:ident) => {
        $then!($key $alloc {
            Bool => Ok(Lit::Bool(bool::from_form($alloc, $value)?)),
            Char => {
                let char = sole_char(text($alloc, &$value)?);
                Ok(Lit::Char(char.ok_or(ReadFault::wrong_form($alloc))?))
            },
            Byte => Ok(Lit::Byte(u8::from_form($alloc, $value)?)),
            Int => Ok(Lit::Int(digits($alloc, $value)?)),
            Float => {
                text($alloc, &$value)?;
                Ok(Lit::Float)
            },
            Str => Ok(Lit::Str(Text::from_form($alloc, $value)?)),
        })
    };
}

/// What stands under the key of a literal, by the key.
fn literal_under(alloc: Global, key: Key, value: Value) -> Read<Lit>
    ensures { Gives result ((literal_under key).read (view value)) }
{
    literal_rows!(under_key key alloc value)
}

#[tactic(auto, unfolding(crate::specs::forms::Attrs::literal, bridge_form::specs::Left::are_apart, bridge_form::specs::Keys::key_text))]
impl FromForm<PartForms> for Lit {
    ghost use Rattle.bridge_read_parts.specs.forms.Attrs.{literal};

    ghost form = { literal.read };

    fn from_form(alloc: Global, value: Value) -> Read<Lit> {
        if let Some(_) = value.as_str() {
            return literal_word(alloc, &value);
        }
        let (key, found) = sole(alloc, value, literal_rows!(keys_of key alloc value))?;
        in_member(alloc, key, literal_under(alloc, key, found))
    }
}

#[tactic(auto, unfolding(crate::specs::forms::Attrs::assign, bridge_form::specs::Left::are_apart, bridge_form::specs::Keys::key_text))]
impl FromForm<PartForms> for Assign {
    ghost use Rattle.bridge_read_parts.specs.forms.Attrs.{assign};

    ghost form = { assign.read };

    fn from_form(alloc: Global, value: Value) -> Read<Assign> {
        read_object!(alloc, value, left, {
            Name => name = needed(alloc, &mut left)?;
            Value => value = needed(alloc, &mut left)?;
        } Ok(Assign { name, value }))
    }
}

/// The argument of a mark, which has a value or a list and not both.
fn argument_of(value: Option<Lit>, list: Option<Items<Assign>>) -> Option<MetaValue>
    ensures { result ≡ argument_of value list }
{
    match (value, list) {
        (None, None) => Some(MetaValue::Empty),
        (Some(value), None) => Some(MetaValue::Literal(value)),
        (None, Some(assigns)) => Some(MetaValue::Assignments(assigns)),
        (Some(_), Some(_)) => None,
    }
}

#[tactic(auto, unfolding(crate::specs::forms::Attrs::mark, bridge_form::specs::Left::are_apart, bridge_form::specs::Keys::key_text))]
impl FromForm<PartForms> for DiplomatBackendAttr {
    ghost use Rattle.bridge_read_parts.specs.forms.Attrs.{mark};

    ghost form = { mark.read };

    fn from_form(alloc: Global, value: Value) -> Read<DiplomatBackendAttr> {
        read_object!(alloc, value, left, {
            Condition => cfg = needed(alloc, &mut left)?;
            Mark => path = needed_some(alloc, &mut left)?;
            Value => literal = optional(alloc, &mut left)?;
            List => assigns = optional(alloc, &mut left)?;
        } match argument_of(literal, assigns) {
            Some(value) => Ok(DiplomatBackendAttr { cfg, meta: Meta { path, value } }),
            None => Err(ReadFault::wrong_form(alloc)),
        })
    }
}

#[tactic(auto, unfolding(crate::specs::forms::Attrs::pattern, crate::specs::forms::Attrs::pattern_of))]
impl FromForm<PartForms> for RenameAttr {
    ghost use Rattle.bridge_read_parts.specs.forms.Attrs.{pattern};

    ghost form = { pattern.read };

    fn from_form(alloc: Global, value: Value) -> Read<RenameAttr> {
        match RenameAttr::new(alloc, text(alloc, &value)?) {
            Ok(attr) => Ok(attr),
            Err(RenameFault::Pattern) => Err(ReadFault::wrong_form(alloc)),
            Err(RenameFault::NoMemory) => Err(ReadFault::NoMemory),
        }
    }
}

#[tactic(auto, unfolding(crate::specs::forms::Attrs::attrs, bridge_form::specs::Left::are_apart, bridge_form::specs::Keys::key_text))]
impl FromForm<PartForms> for Attrs {
    ghost use Rattle.bridge_read_parts.specs.forms.Attrs.{attrs};

    ghost form = { attrs.read };

    fn from_form(alloc: Global, value: Value) -> Read<Attrs> {
        read_object!(alloc, value, left, {
            Features => features = listed(alloc, &mut left)?;
            Marks => marks = listed(alloc, &mut left)?;
            AbiRename => abi_rename = held(alloc, &mut left, RenameAttr::empty())?;
            Deprecated => deprecated = optional(alloc, &mut left)?;
        } Ok(Attrs { features, marks, abi_rename, deprecated }))
    }
}

/// The attributes of a declaration on which nothing is written.
pub fn no_attrs(alloc: Global) -> Attrs
    ensures { result ≡ no_attrs }
{
    Attrs {
        features: Items::new(alloc),
        marks: Items::new(alloc),
        abi_rename: RenameAttr::empty(),
        deprecated: None,
    }
}
