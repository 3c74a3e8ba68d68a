//! What can be read from a JSON value.

ghost use Rattle.std.specs.Prelude.{◌≡◌, [], ◌∷◌, List, false, IfOk, string_bytes};
ghost use Rattle.serde_json.specs.Data.{Data};
ghost use Rattle.serde_json.specs.View.{view, items_view};
ghost use Rattle.bridge_form.specs.declared.keys.Key.{Key as Name};
ghost use Rattle.bridge_form.specs.Form.{one_word, two_of};
ghost use Rattle.bridge_form.specs.Given.{Gives, GivesBy};
ghost use Rattle.bridge_read_parts.specs.Taking.{Takes, held, needed, optional};
ghost use Rattle.bridge_read_parts.specs.inside.Lists.{some_of};
ghost use Rattle.bridge_form.specs.Left.{IsLeft};
ghost use Rattle.bridge_form.specs.Reading.{entries_of, flag_of, list_of, text_of};

use bridge_ast::{Items, NoMemory, Text};
use bridge_form::{Fields, Read, ReadFault, entries, in_entry, in_member, owned_text};
use bridge_words::{Word, one_word};
use serde_json::Value;
use std::alloc::Global;

/// Keys of the form, in order.
#[macro_export]
macro_rules! keys {
    ($($key:ident)*) => { &[$(bridge_form::Key::$key),*] };
}

/// Reads an object of the form, and makes what it spells. Each row has the keys that are read together, in the order of the form, the variables
/// that take what stands under them, and the call that reads it; a row without a key makes something of the rows before it.
#[macro_export]
macro_rules! read_object {
    ($alloc:ident, $value:ident, $left:ident, {
        $($($key:ident)* => $part:pat = $read:expr;)*
    } $made:expr) => {{
        let mut $left =
            bridge_form::Fields::of($alloc, $value, $crate::keys![$($($key)*)*])?;
        $(let $part = $read;)*
        $made
    }};
}

/// The keys of an object of which one alone may have something under it, of its rows: each has a key, and what reads what stands under it.
macro_rules! keys_of {
    ($key:ident $alloc:ident { $($name:ident => $read:expr,)* }) => {
        $crate::keys![$($name)*]
    };
}

/// What stands under the key of such an object, read by the row of that key.
macro_rules! under_key {
    ($key:ident $alloc:ident { $($name:ident => $read:expr,)* }) => {
        match $key {
            $(bridge_form::Key::$name => $read,)*
            _ => Err(bridge_form::ReadFault::wrong_form($alloc)),
        }
    };
}

pub(crate) use keys_of;
pub(crate) use under_key;

/// The forms of this crate.
pub struct PartForms;

/// What a JSON value of a form spells.
///
/// `Forms` is a type of the crate that has the form: a crate may implement this for a type of another crate only where it names
/// one of its own (the Rust Reference, orphan rules).
pub trait FromForm<Forms>: Drop {
    ghost use Rattle.std.specs.Prelude.{Result};
    ghost use Rattle.serde_json.specs.Data.{Data};
    ghost use Rattle.bridge_form.specs.declared.fault.Fault.{Fault as Wrong};

    /// What a value is read as, or its first fault.
    ghost form: { Data → Result Self Wrong };

    /// What the value is read as, or its first fault.
    fn from_form(alloc: Global, value: Value) -> Read<Self>
        ensures { Gives result (form (view value)) };
}

/// The empty list, with room for so many entries.
pub fn room_for<T>(alloc: Global, count: usize) -> Result<Items<T>, NoMemory>
    ensures { IfOk result (λ list. list ≡ []) }
{
    Ok(Items::from_vec(Vec::with_capacity(alloc, count)?))
}

fn list_of<Forms, T: FromForm<Forms>>(alloc: Global, value: Value) -> Read<Items<T>>
    ensures { Gives result (list_of T.form (view value)) }
{
    let entries = entries(alloc, value)?;
    let mut list = room_for(alloc, entries.len())?;
    for entry in entries {
        let number = list.as_slice().len();
        list.push(in_entry(number, T::from_form(alloc, entry))?)?;
    }
    Ok(list)
}

/// The list that a value is, which isn't empty.
pub fn some_list_of<Forms, T: FromForm<Forms>>(alloc: Global, value: Value) -> Read<Items<T>>
    ensures { Gives result (some_of (list_of T.form) (view value)) }
{
    let list = list_of(alloc, value)?;
    if list.as_slice().is_empty() {
        return Err(ReadFault::wrong_form(alloc));
    }
    Ok(list)
}

impl<Forms, T: FromForm<Forms>> FromForm<Forms> for Items<T> {
    ghost form = { list_of T.form };

    fn from_form(alloc: Global, value: Value) -> Read<Items<T>> {
        list_of(alloc, value)
    }
}

#[tactic(auto, unfolding(bridge_form::specs::Reading::text_of))]
impl FromForm<PartForms> for Text {
    ghost use Rattle.bridge_form.specs.Reading.{text_of};

    ghost form = { text_of };

    fn from_form(alloc: Global, value: Value) -> Read<Text> {
        Ok(Text::from(owned_text(alloc, value)?))
    }
}

#[tactic(auto, unfolding(bridge_form::specs::Reading::number_read))]
impl FromForm<PartForms> for usize {
    ghost use Rattle.bridge_form.specs.Reading.{number_read};

    ghost form = { number_read };

    fn from_form(alloc: Global, value: Value) -> Read<usize> {
        Ok(value.as_u64().ok_or(ReadFault::wrong_form(alloc))? as usize)
    }
}

#[tactic(auto, unfolding(bridge_form::specs::Reading::flag_of))]
impl FromForm<PartForms> for bool {
    ghost use Rattle.bridge_form.specs.Reading.{flag_of};

    ghost form = { flag_of };

    fn from_form(alloc: Global, value: Value) -> Read<bool> {
        value.as_bool().ok_or(ReadFault::wrong_form(alloc))
    }
}

#[tactic(auto, unfolding(bridge_form::specs::Reading::byte_of))]
impl FromForm<PartForms> for u8 {
    ghost use Rattle.bridge_form.specs.Reading.{byte_of};

    ghost form = { byte_of };

    fn from_form(alloc: Global, value: Value) -> Read<u8> {
        match value.as_u64() {
            Some(number) if number < 256 => Ok(number as u8),
            _ => Err(ReadFault::wrong_form(alloc)),
        }
    }
}

#[tactic(auto, unfolding(bridge_form::specs::Reading::integer_of))]
impl FromForm<PartForms> for i64 {
    ghost use Rattle.bridge_form.specs.Reading.{integer_of};

    ghost form = { integer_of };

    fn from_form(alloc: Global, value: Value) -> Read<i64> {
        value.as_i64().ok_or(ReadFault::wrong_form(alloc))
    }
}

/// The entries of a list of two.
pub fn two<Forms, T: FromForm<Forms>>(alloc: Global, value: Value) -> Read<(T, T)>
    ensures { Gives result (two_of T.form (view value)) }
{
    let mut entries = entries(alloc, value)?.into_iter();
    match (entries.next(), entries.next(), entries.next()) {
        (Some(first), Some(second), None) => {
            let first = in_entry(0, T::from_form(alloc, first))?;
            let second = in_entry(1, T::from_form(alloc, second))?;
            Ok((first, second))
        }
        _ => Err(ReadFault::wrong_form(alloc)),
    }
}

/// What stands under the next key, which is required.
pub fn needed<Forms, T: FromForm<Forms>>(alloc: Global, left: &mut Fields) -> Read<T>
    ensures { (key : Name) (keys : List Name) (d : Data) → IsLeft left.old (key ∷ keys) d
        → Takes result (needed T.form key d) left.new keys d }
{
    match left.next() {
        Some((key, Some(value))) => in_member(alloc, key, T::from_form(alloc, value)),
        _ => Err(ReadFault::missing_key(alloc)),
    }
}

/// What the word under the next key stands for, which is required.
pub fn needed_word<W: Word>(alloc: Global, left: &mut Fields) -> Read<W>
    ensures { (key : Name) (keys : List Name) (d : Data) → IsLeft left.old (key ∷ keys) d
        → Takes result (needed (one_word W.words).read key d) left.new keys d }
{
    match left.next() {
        Some((key, Some(value))) => in_member(alloc, key, one_word(alloc, &value)),
        _ => Err(ReadFault::missing_key(alloc)),
    }
}

/// What stands under the next key, if anything does.
pub fn optional<Forms, T: FromForm<Forms>>(alloc: Global, left: &mut Fields) -> Read<Option<T>>
    ensures { (key : Name) (keys : List Name) (d : Data) → IsLeft left.old (key ∷ keys) d
        → Takes result (optional T.form key d) left.new keys d }
{
    match left.next() {
        Some((key, Some(value))) => Ok(Some(in_member(alloc, key, T::from_form(alloc, value))?)),
        _ => Ok(None),
    }
}

/// What stands under the next key, or what its absence stands for.
pub fn held<Forms, T: FromForm<Forms>>(alloc: Global, left: &mut Fields, absent: T) -> Read<T>
    ensures { (key : Name) (keys : List Name) (d : Data) → IsLeft left.old (key ∷ keys) d
        → Takes result (held absent T.form key d) left.new keys d }
{
    match left.next() {
        Some((key, Some(value))) => in_member(alloc, key, T::from_form(alloc, value)),
        _ => Ok(absent),
    }
}

/// The list under the next key; the empty one where nothing stands there.
pub fn listed<Forms, T: FromForm<Forms>>(alloc: Global, left: &mut Fields) -> Read<Items<T>>
    ensures { (key : Name) (keys : List Name) (d : Data) → IsLeft left.old (key ∷ keys) d
        → Takes result (held [] (list_of T.form) key d) left.new keys d }
{
    held(alloc, left, Items::new(alloc))
}

/// The list under the next key, which is required and not empty.
pub fn needed_some<Forms, T: FromForm<Forms>>(alloc: Global, left: &mut Fields) -> Read<Items<T>>
    ensures { (key : Name) (keys : List Name) (d : Data) → IsLeft left.old (key ∷ keys) d
        → Takes result (needed (some_of (list_of T.form)) key d) left.new keys d }
{
    match left.next() {
        Some((key, Some(value))) => in_member(alloc, key, some_list_of(alloc, value)),
        _ => Err(ReadFault::missing_key(alloc)),
    }
}

/// Whether `true` stands under the next key.
pub fn flag(alloc: Global, left: &mut Fields) -> Read<bool>
    ensures { (key : Name) (keys : List Name) (d : Data) → IsLeft left.old (key ∷ keys) d
        → Takes result (held false flag_of key d) left.new keys d }
{
    held(alloc, left, false)
}
