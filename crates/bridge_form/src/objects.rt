//! Objects, lists and texts of the form, whatever they spell.

ghost use Rattle.std.specs.Prelude.{◌≡◌, option_map, string_bytes, Result};
ghost use Rattle.serde_json.specs.View.{view, items_view, members_view};
ghost use Rattle.bridge_form.specs.declared.fault.Fault.{Fault as Wrong};
ghost use Rattle.bridge_form.specs.declared.pointer.Step.TheVariants as step;
ghost use Rattle.bridge_form.specs.Form.{members_in, object_of};
ghost use Rattle.bridge_form.specs.Reading.{at_key, entries_of, inside, text_of, under};
ghost use Rattle.bridge_form.specs.Given.{Gives, GivesBy};

use crate::fault::{Read, ReadFault};
use crate::keys::Key;
use crate::pointer::Step;
use bridge_text::Text;
use serde_json::{Map, Value};
use std::alloc::Global;

/// What stands under a key of an object; none where the key is absent or null.
#[tactic(auto, unfolding(crate::specs::Reading::under))]
pub fn under(value: &Value, key: Key) -> Option<&Value>
    ensures { option_map (λ v. view v.now) result ≡ under key (view value.now) }
{
    match value.get(key.text()) {
        Some(found) if !found.is_null() => Some(found),
        _ => None,
    }
}

/// What was read of the value under a key of that name, or its fault as one of the object.
#[inline(always)]
pub fn in_member_named<T: Drop>(alloc: Global, name: &str, read: Read<T>) -> Read<T>
    ensures { (was : Result T Wrong) → Gives read was
        → Gives result (inside (step.Member name.now) was) }
{
    match read {
        Ok(value) => Ok(value),
        Err(ReadFault::Bad(fault)) => {
            let step = Step::Member(Text::new(alloc, name)?);
            Err(ReadFault::Bad(fault.within(step)?))
        }
        Err(ReadFault::NoMemory) => Err(ReadFault::NoMemory),
    }
}

/// What was read of the value under a key, or its fault as one of the object.
#[inline(always)]
pub fn in_member<T: Drop>(alloc: Global, key: Key, read: Read<T>) -> Read<T>
    ensures { (was : Result T Wrong) → Gives read was → Gives result (inside (at_key key) was) }
{
    in_member_named(alloc, key.text(), read)
}

/// What was read of an entry of a list, or its fault as one of the list.
#[inline(always)]
pub fn in_entry<T: Drop>(number: usize, read: Read<T>) -> Read<T>
    ensures { (was : Result T Wrong) → Gives read was
        → Gives result (inside (step.Index number) was) }
{
    match read {
        Ok(value) => Ok(value),
        Err(ReadFault::Bad(fault)) => Err(ReadFault::Bad(fault.within(Step::Index(number))?)),
        Err(ReadFault::NoMemory) => Err(ReadFault::NoMemory),
    }
}

/// The members of an object.
#[tactic(auto, unfolding(crate::specs::Form::members_in))]
pub fn members(alloc: Global, value: Value) -> Read<Map<String, Value>>
    ensures { GivesBy (λ ms. members_view ms.entries) result (members_in (view value)) }
{
    let Value::Object(members) = value else {
        return Err(ReadFault::wrong_form(alloc));
    };
    Ok(members)
}

/// Tests that the value is an object.
#[tactic(auto, unfolding(crate::specs::Form::object_of))]
pub fn object(alloc: Global, value: &Value) -> Read<()>
    ensures { Gives result (object_of (view value.now)) }
{
    match value.as_object() {
        Some(_) => Ok(()),
        None => Err(ReadFault::wrong_form(alloc)),
    }
}

/// The text that a value is, lent.
#[tactic(auto, unfolding(crate::specs::Reading::text_of))]
pub fn text(alloc: Global, value: &Value) -> Read<&str>
    ensures { GivesBy (λ s. s.now) result (text_of (view value.now)) }
{
    match value.as_str() {
        Some(text) => Ok(text),
        None => Err(ReadFault::wrong_form(alloc)),
    }
}

/// The text that a value is.
#[tactic(auto, unfolding(crate::specs::Reading::text_of))]
pub fn owned_text(alloc: Global, value: Value) -> Read<String>
    ensures { GivesBy string_bytes result (text_of (view value)) }
{
    let Value::String(text) = value else {
        return Err(ReadFault::wrong_form(alloc));
    };
    Ok(text)
}

/// The entries of a list.
#[tactic(auto, unfolding(crate::specs::Reading::entries_of))]
pub fn entries(alloc: Global, value: Value) -> Read<Vec<Value>>
    ensures { GivesBy (λ vs. items_view vs.items) result (entries_of (view value)) }
{
    let Value::Array(entries) = value else {
        return Err(ReadFault::wrong_form(alloc));
    };
    Ok(entries)
}
