//! Declarations in Rust's notation, expanded to JSON.
//!
//! A declaration is written as in Rust, with these changes. `opaque`, `out_struct` and `enum` begin items of their own. `impl` with
//! methods stands right after its item, whose name and lifetimes are what `Self` is. In a module aliases come after items, as
//! `use Desk=shop::Till`, and modules after these. A variant is `Long=1`. `unit` is `()`, `strs` a slice of strings, `str` and `[u8]`
//! without a reference are owned, and `Diplomat[u8]` is spelled by Diplomat's type. `#disable` is a mark for all backends,
//! `#auto.disable` one for those that support it, and `#rename=x` one with a text; `keys` has the others, and the keys that are
//! written out, as `@mutable`. `-option` says that the backend doesn't support it, `+option` that it does.

use crate::tests::declarations::{put_lifetime, put_named, put_part, put_receiver, put_variant};
use crate::tests::frames::{Frame, Writer};
use crate::tests::keys::{read_key, read_mark};
use crate::tests::pending::{Held, Pending, awaits_type, nothing};
use crate::tests::types::{put_reference, put_slice, put_type};
use bridge_decl::NoMemory;
use std::alloc::Global;

/// The words that items begin with, and what their first braces have.
const KINDS: [(&str, Frame); 5] = [
    ("struct", Frame::Fields),
    ("out_struct", Frame::Fields),
    ("opaque", Frame::Methods),
    ("enum", Frame::Variants),
    ("trait", Frame::Methods),
];

/// What the first braces of an item have.
fn body_of(keyword: &str) -> Option<Frame> {
    for (word, frame) in &KINDS {
        if *word == keyword {
            return Some(*frame);
        }
    }
    None
}

/// The key of a list of an item.
fn key_of(frame: Frame) -> &'static str {
    match frame {
        Frame::Fields => r#","fields":["#,
        Frame::Variants => r#","variants":["#,
        _ => r#","methods":["#,
    }
}

/// Reads a lifetime.
fn read_lifetime<'t>(
    writer: &mut Writer,
    pending: &mut Pending<'t>,
    name: &'t str,
) -> Result<(), NoMemory> {
    match pending.held.take() {
        Some(held) => {
            pending.held = Some(Held {
                lifetime: name,
                is_mutable: held.is_mutable,
            });
            Ok(())
        }
        None => put_lifetime(writer, pending, name),
    }
}

/// Reads that a reference is mutable.
fn read_mut(pending: &mut Pending<'_>) {
    if let Some(held) = pending.held.take() {
        pending.held = Some(Held {
            lifetime: held.lifetime,
            is_mutable: true,
        });
    }
}

/// Reads that a reference begins.
fn read_reference(writer: &mut Writer, pending: &mut Pending<'_>) -> Result<(), NoMemory> {
    put_reference(writer, pending)?;
    pending.held = Some(Held {
        lifetime: "_",
        is_mutable: false,
    });
    Ok(())
}

/// Opens lifetimes where some may stand.
fn put_generics(writer: &mut Writer) -> Result<(), NoMemory> {
    match writer.top() {
        Frame::Path => writer.open(Frame::Lifetimes, r#","lifetimes":["#),
        Frame::Item => writer.open(Frame::Generics, r#","lifetimes":["#),
        Frame::Signature => writer.open(Frame::Declared, r#","lifetimes":["#),
        _ => Ok(()),
    }
}

/// Ends a field or a parameter, or goes on to the other side of a result.
fn put_comma(writer: &mut Writer) -> Result<(), NoMemory> {
    match writer.top() {
        Frame::Part => writer.end(),
        Frame::Success => writer.turn(Frame::Failure, r#","err":"#),
        Frame::Taken => writer.put(","),
        _ => Ok(()),
    }
}

/// Writes that a return stands next; in a type it stands there once its first token is read.
fn put_arrow(writer: &mut Writer, pending: &mut Pending<'_>) -> Result<(), NoMemory> {
    if writer.top() == Frame::Callback {
        pending.is_return = true;
        return Ok(());
    }
    writer.put(r#","ret":"#)
}

/// Ends parameters.
fn end_params(writer: &mut Writer) -> Result<(), NoMemory> {
    writer.end_if(Frame::Part)?;
    if writer.top() == Frame::Params || writer.top() == Frame::Taken {
        return writer.end();
    }
    Ok(())
}

/// Opens what braces have.
fn put_body(writer: &mut Writer, pending: &Pending<'_>) -> Result<(), NoMemory> {
    if writer.top() == Frame::Item {
        return writer.open(pending.body, key_of(pending.body));
    }
    Ok(())
}

/// Reads `impl`, before methods or before a trait.
fn read_impl(writer: &Writer, pending: &mut Pending<'_>) {
    if writer.top() == Frame::Item {
        pending.body = Frame::Methods;
    } else {
        pending.is_impl = true;
    }
}

/// Reads a sign that types, fields, parameters or lifetimes have between them.
fn read_sign(writer: &mut Writer, pending: &mut Pending<'_>, sign: &str) -> Result<(), NoMemory> {
    if sign == "&" {
        read_reference(writer, pending)
    } else if sign == "<" {
        put_generics(writer)
    } else if sign == ">" || sign == "]" {
        writer.end()
    } else if sign == "," {
        put_comma(writer)
    } else if sign == ")" {
        end_params(writer)
    } else if sign == "{" {
        put_body(writer, pending)
    } else if sign == "}" {
        writer.end_braced()
    } else if sign == "->" {
        put_arrow(writer, pending)
    } else {
        Ok(())
    }
}

/// Reads a word that isn't a name.
fn read_word<'t>(
    writer: &mut Writer,
    pending: &mut Pending<'t>,
    word: &'t str,
) -> Result<(), NoMemory> {
    if word == "self" {
        put_receiver(writer, pending)
    } else if let Some(name) = word.strip_suffix(":") {
        put_part(writer, pending, name)
    } else if writer.top() == Frame::Variants {
        put_variant(writer, pending, word)
    } else {
        put_type(writer, pending, word)
    }
}

/// Reads a word that only says something of what follows; whether it was one.
fn is_read<'t>(writer: &Writer, pending: &mut Pending<'t>, word: &'t str) -> bool {
    if word == "mut" {
        read_mut(pending);
    } else if word == "[" {
        pending.is_element = true;
    } else if word == "Diplomat" {
        pending.is_own = true;
    } else if word == "impl" {
        read_impl(writer, pending);
    } else if word == "fn" || word == "mod" || word == "use" {
        pending.keyword = word;
    } else if let Some(body) = body_of(word) {
        pending.keyword = word;
        pending.body = body;
    } else {
        return false;
    }
    true
}

/// Whether it is a sign.
fn is_sign(token: &str) -> bool {
    for sign in ["&", "<", ">", "]", ",", "(", ")", "{", "}", "->"] {
        if sign == token {
            return true;
        }
    }
    false
}

/// Reads a token that isn't a name.
fn read_other<'t>(
    writer: &mut Writer,
    pending: &mut Pending<'t>,
    token: &'t str,
) -> Result<(), NoMemory> {
    if let Some(name) = token.strip_prefix("'") {
        return read_lifetime(writer, pending, name);
    }
    if let Some(name) = token.strip_prefix("#") {
        return read_mark(pending, name);
    }
    if let Some(name) = token.strip_prefix("@") {
        return read_key(pending, name);
    }
    if is_sign(token) {
        return read_sign(writer, pending, token);
    }
    if is_read(writer, pending, token) {
        return Ok(());
    }
    read_word(writer, pending, token)
}

/// Ends what ends before a token, and begins a slice at its element.
fn settle(writer: &mut Writer, pending: &mut Pending<'_>, token: &str) -> Result<(), NoMemory> {
    if pending.is_return {
        pending.is_return = false;
        return writer.turn(Frame::Reference, r#","ret":"#);
    }
    if pending.is_element {
        return put_slice(writer, pending, token);
    }
    if awaits_type(pending) {
        return Ok(());
    }
    writer.end_types(token)
}

/// Reads a token.
fn read_token<'t>(
    writer: &mut Writer,
    pending: &mut Pending<'t>,
    token: &'t str,
) -> Result<(), NoMemory> {
    let keyword = pending.keyword;
    pending.keyword = "";
    if keyword.is_empty() {
        settle(writer, pending, token)?;
        return read_other(writer, pending, token);
    }
    put_named(writer, pending, keyword, token)
}

/// Whether it says what the backend supports.
fn is_setting(token: &str) -> bool {
    token != "->" && (token.starts_with("-") || token.starts_with("+"))
}

/// Text with a space around each sign.
fn spaced(alloc: Global, text: &str) -> Result<String, NoMemory> {
    let mut made = String::new(alloc);
    let mut before = ' ';
    for c in text.chars() {
        let is_arrow = c == '>' && before == '-';
        match c {
            '(' | ')' | '{' | '}' | '<' | '>' | '[' | ']' | ',' | '&' => {
                made.push_str(if is_arrow { "" } else { " " })?;
                made.push(c)?;
                made.push(' ')?;
            }
            _ => made.push(c)?,
        }
        before = c;
    }
    Ok(made)
}

/// The root module of an input, in which the input stands open.
pub fn expand(alloc: Global, text: &str) -> Result<String, NoMemory> {
    let spaced = spaced(alloc, text)?;
    let mut writer = Writer::new(alloc)?;
    let mut pending = nothing(alloc);
    for token in spaced.as_str().split_whitespace() {
        if !is_setting(token) {
            read_token(&mut writer, &mut pending, token)?;
        }
    }
    writer.end_all()?;
    Ok(writer.into_text())
}
