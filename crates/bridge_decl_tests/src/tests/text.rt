ghost use Rattle.std.specs.Prelude.{◌≡◌, ◌↔◌, IsTrue, Some, is_some, IfOk, OnOk};
ghost use Rattle.std.specs.BTreeMap.{get};
ghost use Rattle.std.specs.Cmp.Lexicographic.{slice_cmp};
ghost use Rattle.std.specs.Ordering.{nat_cmp};

use bridge_decl::{NoMemory, Text};
use std::alloc::Global;
use std::cmp::Ordering;
use std::collections::BTreeMap;

fn are_same(first: &Text, second: &Text) -> bool
    ensures { IsTrue result ↔ (first.now ≡ second.now) }
{
    first == second
}

// A map with texts as keys remembers the place of a text.
fn remember(
    places: &mut BTreeMap<Text, usize>,
    text: Text,
    place: usize,
) -> Result<Option<usize>, NoMemory>
    ensures before { IfOk result (λ old. old ≡ get (slice_cmp nat_cmp) places.old text) }
    ensures after { OnOk result (get (slice_cmp nat_cmp) places.new text ≡ Some place) }
{
    Ok(places.insert(text, place)?)
}

fn place_of(places: &BTreeMap<Text, usize>, text: &Text) -> Option<usize>
    ensures { result ≡ get (slice_cmp nat_cmp) places.now text.now }
{
    places.get(text).copied()
}

fn is_known(places: &BTreeMap<Text, usize>, text: &Text) -> bool
    ensures { result ≡ is_some (get (slice_cmp nat_cmp) places.now text.now) }
{
    places.contains_key(text)
}

// Takes each text for its place in turn; whether the map had for each what stands with it.
fn had(
    alloc: Global,
    places: &mut BTreeMap<Text, usize>,
    rows: &[(&str, usize, Option<usize>)],
) -> Result<bool, NoMemory> {
    for (text, place, before) in rows {
        let text = Text::new(alloc, text)?;
        if remember(places, text, *place)? != *before {
            return Ok(false);
        }
    }
    Ok(true)
}

// Whether the text has that place in the map, by both look-ups.
fn stands_at(
    alloc: Global,
    places: &BTreeMap<Text, usize>,
    text: &str,
    place: Option<usize>,
) -> Result<bool, NoMemory> {
    let text = Text::new(alloc, text)?;
    Ok(place_of(places, &text) == place && is_known(places, &text) == place.is_some())
}

#[test]
fn texts_are_keys(rt: HostRuntime) -> Result<(), NoMemory> {
    let mut places = BTreeMap::new(rt.alloc());
    let rows = [
        ("b", 0, None),
        ("ab", 1, None),
        ("", 2, None),
        ("a", 3, None),
        ("ab", 9, Some(1)),
    ];
    assert!(rt; had(rt.alloc(), &mut places, &rows)?);
    let found = [
        ("ab", Some(9)),
        ("abc", None),
        ("", Some(2)),
        ("b", Some(0)),
    ];
    for (text, place) in found {
        assert!(rt; stands_at(rt.alloc(), &places, text, place)?);
    }
    Ok(())
}

// The longest text that lies in the value itself, and one longer by a byte.
const SIXTEEN: &str = "abcdefghijklmn\u{ef}";

const SEVENTEEN: &str = "abcdefghijklmno\u{ef}";

#[test]
fn texts_compare_by_bytes(rt: HostRuntime) -> Result<(), NoMemory> {
    let cases = [
        ("", "", Ordering::Equal),
        ("", "a", Ordering::Less),
        ("b", "ab", Ordering::Greater),
        ("ab", "abc", Ordering::Less),
        ("Z", "a", Ordering::Less),
        ("é", "z", Ordering::Greater),
        (SIXTEEN, SEVENTEEN, Ordering::Greater),
        ("b", SEVENTEEN, Ordering::Greater),
        (SEVENTEEN, SEVENTEEN, Ordering::Equal),
    ];
    for (first, second, order) in cases {
        let first = Text::new(rt.alloc(), first)?;
        let second = Text::new(rt.alloc(), second)?;
        assert!(rt; first.cmp(&second) == order);
        assert!(rt; (first == second) == order.is_eq());
        assert!(rt; (first < second) == order.is_lt());
    }
    Ok(())
}

#[test]
fn texts_are_copied_and_printed(rt: HostRuntime) -> Result<(), NoMemory> {
    for word in ["na\u{ef}ve", SIXTEEN, SEVENTEEN] {
        let text = Text::new(rt.alloc(), word)?;
        assert!(rt; text.try_clone(rt.alloc())?.as_str() == word);
        assert!(rt; text.to_string(rt.alloc())?.as_str() == word);
    }
    Ok(())
}

#[test]
fn a_string_is_a_text_of_its_bytes(rt: HostRuntime) -> Result<(), NoMemory> {
    for word in ["", "ab", "na\u{ef}ve", SIXTEEN, SEVENTEEN] {
        let text = Text::from(String::from_str(rt.alloc(), word)?);
        assert!(rt; text.as_str() == word);
        assert!(rt; text == Text::new(rt.alloc(), word)?);
    }
    Ok(())
}
