//! Objects: what stands under each key of the form is put into a slot of its own, and the slots are then read in order.

ghost use Rattle.std.specs.Prelude.{◌≡◌, ℕ, ◌+◌, ◌<◌, ◌≤◌, [], ◌∷◌, true, drop, length, replicate, List, IfOk, IfSome, None, Some, option_map, slice_get, slice_set, string_cmp};
ghost use Rattle.std.specs.BTreeMap.{keys};
ghost use Rattle.std.specs.Str.{bytes_eq};
ghost use Rattle.std.specs.List.Sorted.{IsStrictlySortedBy};
ghost use Rattle.serde_json.specs.Data.{Data};
ghost use Rattle.serde_json.specs.View.{view, members_view};
ghost use Rattle.bridge_form.specs.declared.keys.Key.{Key as Name};
ghost use Rattle.bridge_form.specs.Form.{sole_under};
ghost use Rattle.bridge_form.specs.Reading.{not_null, under};
ghost use Rattle.bridge_form.specs.Given.{GivesBy};
ghost use Rattle.bridge_form.specs.Left.{IsLeft, Opens, are_apart, one_seen, seen, slots_seen};
ghost use Rattle.bridge_form.specs.inside.Filling.{key_number, slots_after};

use crate::fault::{Fault, Read, ReadFault};
use crate::keys::Key;
use crate::objects::members;
use bridge_text::NoMemory;
use serde_json::{Map, Value};
use std::alloc::Global;

/// What is left to read of an object.
#[derive(Drop)]
pub struct Fields<'k> {
    /// The keys of its form, in order.
    pub keys: &'k [Key],
    /// How many of them were read.
    pub read: usize,
    /// What stands under each of them, until it is read; none where nothing does, or null.
    pub slots: Vec<Option<Value>>,
}

impl<'k> Fields<'k> {
    /// All keys of the object that the value is; the fault of a value that is none, or of its first key that is none of these.
    #[tactic(auto, using(crate::proofs::FieldLemmas::refused, crate::proofs::FieldLemmas::no_object))]
    pub fn of(alloc: Global, value: Value, keys: &'k [Key]) -> Read<Fields<'k>>
        requires { are_apart keys.now ≡ true }
        ensures { Opens result keys.now (view value) }
    {
        let slots = fill(alloc, keys, members(alloc, value)?)?;
        Ok(Fields {
            keys,
            read: 0,
            slots,
        })
    }

    /// The next key, with what stands under it, where null stands for nothing; none where no key is left.
    pub fn next(&mut self) -> Option<(Key, Option<Value>)>
        ensures ends { length self.old.keys.now ≤ self.old.read
            → (result ≡ None) × (self.new ≡ self.old) }
        ensures left { (key : Name) (keys : List Name) (d : Data)
            → IsLeft self.old (key ∷ keys) d
            → (option_map seen result ≡ Some (key, under key d)) × IsLeft self.new keys d }
    {
        let number = self.read;
        if number < self.keys.len() && number < self.slots.len() {
            self.read = number + 1;
            return Some((self.keys[number], take(&mut self.slots, number)));
        }
        None
    }
}

/// The value, unless it is null.
fn unless_null(value: Value) -> Option<Value>
    ensures { option_map view result ≡ not_null (view value) }
{
    if value.is_null() { None } else { Some(value) }
}

/// Takes what lies in the slot of that number.
fn take(slots: &mut Vec<Option<Value>>, number: usize) -> Option<Value>
    requires { number < length slots.old.items }
    ensures taken { slice_get (slots_seen slots.old.items) number
        ≡ Some (option_map view result) }
    ensures left { drop (number + 1) (slots_seen slots.new.items)
        ≡ drop (number + 1) (slots_seen slots.old.items) }
{
    // Most keys are absent: an empty slot isn't copied.
    if slots[number].is_none() {
        return None;
    }
    slots[number].take()
}

/// Puts the value into the slot of that number.
fn put(slots: &mut [Option<Value>], number: usize, value: Value)
    requires { number < length slots.old }
    ensures put { slots_seen slots.new
        ≡ slice_set (slots_seen slots.old) number (not_null (view value)) }
    ensures kept { length slots.new ≡ length slots.old }
{
    slots[number] = unless_null(value);
}

/// Whether two texts are the same. Most keys differ in their length or their first byte, which is told faster so than by comparing words.
#[inline(always)]
fn is_same(one: &str, other: &str) -> bool
    ensures { result ≡ bytes_eq one.now other.now }
{
    let (one, other) = (one.as_bytes(), other.as_bytes());
    if one.len() != other.len() {
        return false;
    }
    for (place, byte) in one.iter().enumerate() {
        if *byte != other[place] {
            return false;
        }
    }
    true
}

/// The number of the key of that name, if it is one of these.
fn key_number(keys: &[Key], name: &str) -> Option<usize>
    ensures found { result ≡ key_number keys.now name.now }
    ensures within { IfSome result (λ number. number < length keys.now) }
{
    for (number, key) in keys.iter().enumerate() {
        if is_same(key.text(), name) {
            return Some(number);
        }
    }
    None
}

/// So many slots in which nothing lies.
fn empty_slots(alloc: Global, count: usize) -> Result<Vec<Option<Value>>, NoMemory>
    ensures { IfOk result (λ slots. (slots_seen slots.items ≡ replicate count None)
        × (length slots.items ≡ count)) }
{
    let mut slots = Vec::with_capacity(alloc, count)?;
    for _number in 0..count {
        slots.push(None)?;
    }
    Ok(slots)
}

/// A slot for each key of the form, with what stands under it; the fault of the first member whose key is none of these.
fn fill(alloc: Global, form: &[Key], mut members: Map<String, Value>) -> Read<Vec<Option<Value>>>
    ensures filled { GivesBy (λ slots. slots_seen slots.items) result
        (slots_after form.now (replicate (length form.now) None) (members_view members.entries)) }
    ensures long { IfOk result (λ slots. length slots.items ≡ length form.now) }
    ensures ordered { IsStrictlySortedBy string_cmp (keys members) }
{
    let mut slots = empty_slots(alloc, form.len())?;
    // To take each value out of the map and let the map go at the end costs half of what taking its members out would.
    for (name, value) in members.iter_mut() {
        match key_number(form, name.as_str()) {
            Some(number) => put(slots.as_mut_slice(), number, value.take()),
            None => return Err(ReadFault::Bad(Fault::unknown_key(alloc, name.as_str())?)),
        }
    }
    Ok(slots)
}

/// The one key of an object under which something stands, with what stands there; the fault of a value that is no object, or of its first
/// key that is none of these; else the wrong form, where something stands under no key or under more than one.
#[tactic(auto, using(crate::proofs::SoleLemmas::sole_refused))]
pub fn sole(alloc: Global, value: Value, form: &[Key]) -> Read<(Key, Value)>
    requires { are_apart form.now ≡ true }
    ensures { GivesBy one_seen result (sole_under form.now (view value)) }
{
    let mut left = Fields::of(alloc, value, form)?;
    let mut lone = None;
    for _number in 0..form.len() {
        let Some((key, held)) = left.next() else {
            continue;
        };
        let Some(found) = held else {
            continue;
        };
        if lone.is_some() {
            return Err(ReadFault::wrong_form(alloc));
        }
        lone = Some((key, found));
    }
    match lone {
        Some(one) => Ok(one),
        None => Err(ReadFault::wrong_form(alloc)),
    }
}
