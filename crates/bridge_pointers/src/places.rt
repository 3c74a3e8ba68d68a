//! Where the parts of declarations stand in the JSON value that spells them.

ghost use Rattle.std.specs.Prelude.{◌≡◌, ◌∷◌, [], IfOk, slice_index_or};
ghost use Rattle.serde_json.specs.View.{items_view};
ghost use Rattle.serde_json.specs.View.{view};
ghost use Rattle.bridge_pointers.specs.inside.Places.{Searches};
ghost use Rattle.bridge_pointers.specs.Pointers.{entry, in_entries, items_of, method_steps, module_pointers, modules_within, part_steps, place_steps};
ghost use Rattle.bridge_form.specs.Reading.{at_key};

use bridge_ast::{EnvPart, EnvPlace};
use bridge_form::{Key, Pointer, Step, under};
use bridge_text::{NoMemory, Text};
use serde_json::Value;
use std::alloc::Global;

/// How a search for the module of a number ends.
#[derive(Drop)]
pub enum Search {
    /// At the module's pointer.
    Found(Pointer),
    /// With so many modules left to count.
    Left(usize),
}

/// The pointer, as one from the object under whose key its start stands.
fn under_key(alloc: Global, key: Key, pointer: Pointer) -> Result<Pointer, NoMemory>
    ensures { IfOk result (λ longer. longer ≡ at_key key ∷ pointer) }
{
    pointer.within(Step::Member(Text::new(alloc, key.text())?))
}

/// The pointer, as one from the object in whose list under the key its start stands.
fn entry(alloc: Global, key: Key, number: usize, pointer: Pointer) -> Result<Pointer, NoMemory>
    ensures { IfOk result (λ longer. longer ≡ entry key number pointer) }
{
    under_key(alloc, key, pointer.within(Step::Index(number))?)
}

/// The entries of a list; none of anything else.
#[tactic(auto, unfolding(crate::specs::Pointers::items_of))]
fn list_in(value: &Value) -> &[Value]
    ensures { items_view result.now ≡ items_of (view value.now) }
{
    match value.as_array() {
        Some(list) => list.as_slice(),
        None => &[],
    }
}

/// The module of a number, in a module and those in it.
#[cycle(places)]
fn module_within(
    alloc: Global,
    value: &Value,
    levels: usize,
    number: usize,
) -> Result<Search, NoMemory>
    ensures { IfOk result (λ search.
        Searches (modules_within levels (view value.now)) number search) }
{
    let Some(inner) = levels.checked_sub(1) else {
        return Ok(Search::Left(number));
    };
    let Some(rest) = number.checked_sub(1) else {
        return Ok(Search::Found(Pointer::here(alloc)));
    };
    let Some(modules) = under(value, Key::Modules) else {
        return Ok(Search::Left(rest));
    };
    match module_in(alloc, list_in(modules), inner, rest)? {
        Search::Found(pointer) => Ok(Search::Found(under_key(alloc, Key::Modules, pointer)?)),
        Search::Left(left) => Ok(Search::Left(left)),
    }
}

/// The module of a number, in the modules of a list and those in them.
#[cycle(places)]
fn module_in(
    alloc: Global,
    list: &[Value],
    levels: usize,
    number: usize,
) -> Result<Search, NoMemory>
    ensures { IfOk result (λ search.
        Searches (in_entries (modules_within levels) 0 (items_view list.now)) number search) }
{
    let mut left = number;
    for (place, entry) in list.iter().enumerate() {
        match module_within(alloc, entry, levels, left)? {
            Search::Found(pointer) => {
                return Ok(Search::Found(pointer.within(Step::Index(place))?));
            }
            Search::Left(others) => left = others,
        }
    }
    Ok(Search::Left(left))
}

/// The pointer of the module of a number; that of the whole where there is no such module.
fn module_pointer(alloc: Global, value: &Value, number: usize) -> Result<Pointer, NoMemory>
    ensures { IfOk result (λ pointer.
        pointer ≡ slice_index_or (module_pointers (view value.now)) number []) }
{
    let Some(root) = under(value, Key::Root) else {
        return Ok(Pointer::here(alloc));
    };
    match module_within(alloc, root, 65, number)? {
        Search::Found(pointer) => under_key(alloc, Key::Root, pointer),
        Search::Left(_) => Ok(Pointer::here(alloc)),
    }
}

/// From an item or one of its methods to the lifetime of a number.
fn lifetime_pointer(alloc: Global, method: Option<usize>, node: usize) -> Result<Pointer, NoMemory>
    ensures { IfOk result (λ pointer.
        pointer ≡ method_steps method (entry Key.Lifetimes node [])) }
{
    let lifetime = entry(alloc, Key::Lifetimes, node, Pointer::here(alloc))?;
    match method {
        Some(number) => entry(alloc, Key::Methods, number, lifetime),
        None => Ok(lifetime),
    }
}

/// From a module to a part of it.
fn part_pointer(alloc: Global, part: EnvPart) -> Result<Pointer, NoMemory>
    ensures { IfOk result (λ pointer. pointer ≡ part_steps part) }
{
    match part {
        EnvPart::Module => Ok(Pointer::here(alloc)),
        EnvPart::Item(number) => entry(alloc, Key::Items, number, Pointer::here(alloc)),
        EnvPart::Alias(number) => entry(alloc, Key::Aliases, number, Pointer::here(alloc)),
        EnvPart::Node { item, method, node } => {
            let lifetime = lifetime_pointer(alloc, method, node)?;
            entry(alloc, Key::Items, item, lifetime)
        }
    }
}

/// The pointer of a place of the modules that the value spells.
pub fn place_pointer(alloc: Global, value: &Value, at: EnvPlace) -> Result<Pointer, NoMemory>
    ensures { IfOk result (λ pointer.
        pointer ≡ place_steps (module_pointers (view value.now)) at) }
{
    let inner = part_pointer(alloc, at.part)?;
    module_pointer(alloc, value, at.module)?.followed_by(inner)
}
