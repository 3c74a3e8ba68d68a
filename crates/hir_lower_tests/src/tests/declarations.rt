//! Declarations as they are written: items and their parts.

use crate::tests::frames::{Frame, Writer};
use crate::tests::pending::{Held, Pending};
use crate::tests::types::put_segments;
use bridge_decl::NoMemory;

/// Writes the keys that were read.
fn put_keys(writer: &mut Writer, pending: &mut Pending<'_>) -> Result<(), NoMemory> {
    writer.put(pending.keys.as_str())?;
    pending.keys.clear();
    if !pending.marks.is_empty() {
        writer.put_in(r#""attrs":{"marks":["#, pending.marks.as_str(), "]},")?;
        pending.marks.clear();
    }
    Ok(())
}

/// What `Self` is in what follows, without its lifetimes.
fn set_path(pending: &mut Pending<'_>, name: &str) -> Result<(), NoMemory> {
    pending.path.clear();
    for piece in [r#"{"segments":[""#, name, r#""],"lifetimes":["#] {
        pending.path.push_str(piece)?;
    }
    Ok(())
}

/// Begins an item that isn't a function.
fn put_item(
    writer: &mut Writer,
    pending: &mut Pending<'_>,
    kind: &str,
    name: &str,
) -> Result<(), NoMemory> {
    writer.end_item()?;
    writer.put_next()?;
    writer.open(Frame::Item, "{")?;
    put_keys(writer, pending)?;
    writer.put_in(r#""kind":""#, kind, r#"","name":""#)?;
    writer.put_in(name, "\"", "")?;
    pending.is_trait = kind == "trait";
    set_path(pending, name)
}

/// Begins a method.
fn put_method(writer: &mut Writer, pending: &mut Pending<'_>, name: &str) -> Result<(), NoMemory> {
    writer.put_next()?;
    writer.open(Frame::Signature, "{")?;
    if !pending.is_trait {
        writer.put_in(r#""self_type":"#, pending.path.as_str(), "]},")?;
    }
    put_keys(writer, pending)?;
    writer.put_in(r#""name":""#, name, "\"")
}

/// Begins a function.
fn put_function(
    writer: &mut Writer,
    pending: &mut Pending<'_>,
    name: &str,
) -> Result<(), NoMemory> {
    writer.end_item()?;
    writer.put_next()?;
    writer.open(Frame::Signature, r#"{"kind":"function","#)?;
    put_keys(writer, pending)?;
    writer.put_in(r#""name":""#, name, "\"")
}

/// Begins a function or a method.
fn put_signature(
    writer: &mut Writer,
    pending: &mut Pending<'_>,
    name: &str,
) -> Result<(), NoMemory> {
    writer.end_if(Frame::Signature)?;
    if writer.top() == Frame::Methods {
        put_method(writer, pending, name)
    } else {
        put_function(writer, pending, name)
    }
}

/// Goes on to a later list of a module.
fn turn(writer: &mut Writer, frame: Frame, key: &'static str) -> Result<(), NoMemory> {
    writer.end_item()?;
    if writer.top() != frame {
        writer.turn(frame, key)?;
    }
    writer.put_next()
}

/// Begins a module.
fn put_module(writer: &mut Writer, pending: &mut Pending<'_>, name: &str) -> Result<(), NoMemory> {
    turn(writer, Frame::Modules, r#"],"modules":["#)?;
    writer.open(Frame::Items, "{")?;
    put_keys(writer, pending)?;
    writer.put_in(r#""name":""#, name, r#"","items":["#)
}

/// Writes an alias, as `Desk=shop::Till`.
fn put_alias(writer: &mut Writer, text: &str) -> Result<(), NoMemory> {
    turn(writer, Frame::Aliases, r#"],"aliases":["#)?;
    let (name, target) = text.split_once("=").unwrap_or((text, ""));
    writer.put_in(r#"{"name":""#, name, r#"","target":["#)?;
    put_segments(writer, target)?;
    writer.put("]}")
}

/// Writes what a keyword and a name begin.
pub fn put_named(
    writer: &mut Writer,
    pending: &mut Pending<'_>,
    keyword: &str,
    name: &str,
) -> Result<(), NoMemory> {
    if keyword == "fn" {
        put_signature(writer, pending, name)
    } else if keyword == "mod" {
        put_module(writer, pending, name)
    } else if keyword == "use" {
        put_alias(writer, name)
    } else {
        put_item(writer, pending, keyword, name)
    }
}

/// Begins a field or a parameter.
pub fn put_part(
    writer: &mut Writer,
    pending: &mut Pending<'_>,
    name: &str,
) -> Result<(), NoMemory> {
    if writer.top() == Frame::Signature {
        writer.open(Frame::Params, r#","params":["#)?;
    }
    writer.put_next()?;
    writer.open(Frame::Part, "{")?;
    put_keys(writer, pending)?;
    writer.put_in(r#""name":""#, name, r#"","ty":"#)
}

/// Begins a variant, as `Long=1`.
pub fn put_variant(
    writer: &mut Writer,
    pending: &mut Pending<'_>,
    text: &str,
) -> Result<(), NoMemory> {
    let (name, number) = text.split_once("=").unwrap_or((text, "0"));
    writer.put_next()?;
    writer.open(Frame::Part, "{")?;
    put_keys(writer, pending)?;
    writer.put_in(r#""name":""#, name, r#"","discriminant":"#)?;
    writer.put(number)
}

/// Writes the reference of a receiver.
fn put_borrowed(writer: &mut Writer, held: Held<'_>) -> Result<(), NoMemory> {
    let flag = if held.is_mutable {
        r#"","mutable":true},"#
    } else {
        r#"","mutable":false},"#
    };
    writer.put_in(r#""reference":{"lifetime":""#, held.lifetime, flag)
}

/// Writes the receiver.
pub fn put_receiver(writer: &mut Writer, pending: &mut Pending<'_>) -> Result<(), NoMemory> {
    writer.put(r#","self":{"#)?;
    put_keys(writer, pending)?;
    if let Some(held) = pending.held.take() {
        put_borrowed(writer, held)?;
    }
    writer.put_in(r#""path":"#, pending.path.as_str(), "]}}")
}

/// Adds a lifetime to what `Self` is.
fn add_to_path(pending: &mut Pending<'_>, name: &str) -> Result<(), NoMemory> {
    if !pending.path.as_str().ends_with("[") {
        pending.path.push_str(",")?;
    }
    pending.path.push_str("\"")?;
    pending.path.push_str(name)?;
    pending.path.push_str("\"")
}

/// Writes so many lifetimes, which are called `l0` and so on.
fn put_lifetimes(writer: &mut Writer, count: usize) -> Result<(), NoMemory> {
    for number in 0..count {
        writer.put_next()?;
        writer.put_number(r#"{"name":"l"#, number, r#""}"#)?;
    }
    Ok(())
}

/// Writes the name of a lifetime that is declared or written; `*4095` stands for so many that are declared.
pub fn put_lifetime(
    writer: &mut Writer,
    pending: &mut Pending<'_>,
    name: &str,
) -> Result<(), NoMemory> {
    if let Some(count) = name.strip_prefix("*") {
        return put_lifetimes(writer, count.parse::<usize>().unwrap_or(0));
    }
    writer.put_next()?;
    match writer.top() {
        Frame::Lifetimes => writer.put_in("\"", name, "\""),
        Frame::Generics => {
            add_to_path(pending, name)?;
            writer.put_in(r#"{"name":""#, name, "\"}")
        }
        _ => writer.put_in(r#"{"name":""#, name, "\"}"),
    }
}
