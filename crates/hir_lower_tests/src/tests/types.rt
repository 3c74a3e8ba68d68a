//! Types in Rust's notation.

use crate::tests::frames::{Frame, Writer};
use crate::tests::pending::{Held, Pending};
use bridge_decl::NoMemory;

/// The types of one word that are no path.
const PLAIN: [(&str, &str); 7] = [
    ("Ordering", r#""ordering""#),
    ("unit", r#""unit""#),
    ("strs", r#"{"strs":{"encoding":"utf8"}}"#),
    ("DiplomatWrite", r#"{"write":"str"}"#),
    ("DiplomatWrite16", r#"{"write":"str16"}"#),
    ("WriteU8", r#"{"write":"u8"}"#),
    ("SelfO", r#"{"self":{"segments":["O"]}}"#),
];

/// The primitive types.
const PRIMITIVES: [&str; 17] = [
    "i8", "u8", "i16", "u16", "i32", "u32", "i64", "u64", "isize", "usize", "i128", "u128", "f32",
    "f64", "bool", "char", "byte",
];

/// The strings.
const STRINGS: [(&str, &str); 3] = [
    ("str", r#""encoding":"utf8","std":true}}"#),
    ("DiplomatStr", r#""encoding":"unvalidated_utf8"}}"#),
    ("DiplomatStr16", r#""encoding":"unvalidated_utf16"}}"#),
];

/// What holds types.
const HOLDERS: [(&str, Frame, &str); 4] = [
    ("Option", Frame::Single, r#"{"option":"#),
    ("DiplomatOption", Frame::Single, r#"{"diplomat_option":"#),
    ("Box", Frame::Single, r#"{"box":"#),
    ("Result", Frame::Success, r#"{"result":{"ok":"#),
];

/// The text that a table has for a word.
pub fn found(table: &[(&'static str, &'static str)], word: &str) -> Option<&'static str> {
    for (name, text) in table {
        if *name == word {
            return Some(*text);
        }
    }
    None
}

fn is_primitive(word: &str) -> bool {
    for name in &PRIMITIVES {
        if *name == word {
            return true;
        }
    }
    false
}

fn holder(word: &str) -> Option<(Frame, &'static str)> {
    for (name, frame, text) in &HOLDERS {
        if *name == word {
            return Some((*frame, *text));
        }
    }
    None
}

/// The flag of what is borrowed.
fn mutability(held: &Held<'_>) -> &'static str {
    if held.is_mutable {
        return r#"","mutable":true,"#;
    }
    r#"","mutable":false,"#
}

/// Writes the reference that was read.
pub fn put_reference(writer: &mut Writer, pending: &mut Pending<'_>) -> Result<(), NoMemory> {
    match pending.held.take() {
        Some(held) => {
            writer.open(Frame::Reference, r#"{"ref":{"lifetime":""#)?;
            writer.put_in(held.lifetime, mutability(&held), r#""to":"#)
        }
        None => Ok(()),
    }
}

/// Writes the lifetime of a slice, if it has one.
fn put_borrow(writer: &mut Writer, pending: &mut Pending<'_>) -> Result<(), NoMemory> {
    match pending.held.take() {
        Some(held) => writer.put_in(r#""lifetime":""#, held.lifetime, mutability(&held)),
        None => Ok(()),
    }
}

/// Begins a slice at its element.
pub fn put_slice(
    writer: &mut Writer,
    pending: &mut Pending<'_>,
    element: &str,
) -> Result<(), NoMemory> {
    let kind = if is_primitive(element) {
        r#"{"slice":{"#
    } else {
        r#"{"custom_slice":{"#
    };
    writer.open(Frame::Slice, kind)?;
    put_borrow(writer, pending)?;
    pending.is_element = false;
    let spelling = if pending.is_own {
        r#""of":"#
    } else {
        r#""std":true,"of":"#
    };
    pending.is_own = false;
    writer.put(spelling)
}

/// Writes a string, with the lifetime that was read.
fn put_string(
    writer: &mut Writer,
    pending: &mut Pending<'_>,
    text: &'static str,
) -> Result<(), NoMemory> {
    let lifetime = pending.held.take().map_or("", |held| held.lifetime);
    if lifetime.is_empty() {
        return writer.put_in(r#"{"str":"#, "{", text);
    }
    writer.put_in(r#"{"str":{"lifetime":""#, lifetime, r#"","#)?;
    writer.put(text)
}

/// Writes segments.
pub fn put_segments(writer: &mut Writer, path: &str) -> Result<(), NoMemory> {
    for segment in path.split(':') {
        if !segment.is_empty() {
            writer.put_next()?;
            writer.put_in("\"", segment, "\"")?;
        }
    }
    Ok(())
}

/// Begins a path.
fn put_path(writer: &mut Writer, pending: &mut Pending<'_>, path: &str) -> Result<(), NoMemory> {
    let kind = if pending.is_impl {
        r#"{"impl":{"segments":["#
    } else {
        r#"{"named":{"segments":["#
    };
    pending.is_impl = false;
    writer.open(Frame::Path, kind)?;
    put_segments(writer, path)?;
    writer.put("]")
}

/// Begins a function as a type.
fn put_callback(
    writer: &mut Writer,
    pending: &mut Pending<'_>,
    word: &str,
) -> Result<(), NoMemory> {
    let text = if word == "FnMut" {
        r#"{"fn":{"mutable":true,"params":["#
    } else {
        r#"{"fn":{"params":["#
    };
    pending.is_impl = false;
    writer.open(Frame::Callback, text)?;
    writer.open(Frame::Taken, "")
}

/// Writes a word of one type that is no string.
fn put_word(writer: &mut Writer, pending: &mut Pending<'_>, word: &str) -> Result<(), NoMemory> {
    if is_primitive(word) {
        return writer.put_in("\"", word, "\"");
    }
    if word == "Self" {
        return writer.put_in(r#"{"self":"#, pending.path.as_str(), "]}}");
    }
    if word == "Fn" || word == "FnMut" {
        return put_callback(writer, pending, word);
    }
    match found(&PLAIN, word) {
        Some(text) => writer.put(text),
        None => match holder(word) {
            Some((frame, text)) => writer.open(frame, text),
            None => put_path(writer, pending, word),
        },
    }
}

/// Writes a word of a type.
pub fn put_type(
    writer: &mut Writer,
    pending: &mut Pending<'_>,
    word: &str,
) -> Result<(), NoMemory> {
    match found(&STRINGS, word) {
        Some(text) => put_string(writer, pending, text),
        None => {
            put_reference(writer, pending)?;
            put_word(writer, pending, word)
        }
    }
}
