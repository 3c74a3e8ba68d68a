//! Marks as texts.
//!
//! A declaration's marks stand with `; ` between each two. A mark is its condition, `, ` and its name, and then nothing, ` = ` and a
//! literal, or a list of literals with names in parentheses. In a condition a space stands between each two parts, after `any(`, `all(`
//! and `not(`, and before `)`.

use bridge_decl::{
    Assign, Boxed, DiplomatBackendAttr, DiplomatBackendAttrCfg, Items, Lit, Meta, MetaValue,
    NoMemory, RenameAttr, RenameFault, Text,
};
use std::alloc::{AllocError, Global};

/// What a list of conditions asks of its parts.
#[derive(Clone, Copy)]
enum Form {
    Any,
    All,
    Not,
}

/// A list that isn't closed yet.
#[derive(Drop)]
struct Open {
    form: Form,
    parts: Items<DiplomatBackendAttrCfg>,
}

/// The innermost list that isn't closed, and those around it.
#[derive(Drop)]
struct Lists {
    inner: Open,
    outer: Vec<Open>,
}

fn opened(alloc: Global, form: Form) -> Open {
    Open {
        form,
        parts: Items::new(alloc),
    }
}

fn enter(alloc: Global, lists: Lists, form: Form) -> Result<Lists, NoMemory> {
    let Lists { inner, outer } = lists;
    let mut outer = outer;
    outer.push(inner)?;
    Ok(Lists {
        inner: opened(alloc, form),
        outer,
    })
}

fn add(lists: Lists, part: DiplomatBackendAttrCfg) -> Result<Lists, NoMemory> {
    let Lists { inner, outer } = lists;
    let Open { form, parts } = inner;
    let mut parts = parts;
    parts.push(part)?;
    Ok(Lists {
        inner: Open { form, parts },
        outer,
    })
}

/// The condition that a list is; `not` is of its last part.
fn closed(alloc: Global, open: Open) -> Result<DiplomatBackendAttrCfg, NoMemory> {
    let Open { form, parts } = open;
    let mut parts = parts;
    match form {
        Form::Any => Ok(DiplomatBackendAttrCfg::Any(parts)),
        Form::All => Ok(DiplomatBackendAttrCfg::All(parts)),
        Form::Not => match parts.pop() {
            Some(part) => Ok(DiplomatBackendAttrCfg::Not(Boxed::new(alloc, part)?)),
            None => Ok(DiplomatBackendAttrCfg::Any(parts)),
        },
    }
}

fn leave(alloc: Global, lists: Lists) -> Result<Lists, NoMemory> {
    let Lists { inner, outer } = lists;
    let mut outer = outer;
    let part = closed(alloc, inner)?;
    let inner = match outer.pop() {
        Some(inner) => inner,
        None => opened(alloc, Form::Any),
    };
    add(Lists { inner, outer }, part)
}

/// `*`, `auto`, a pair written `name=value`, or the name of a backend.
fn plain(alloc: Global, text: &str) -> Result<DiplomatBackendAttrCfg, NoMemory> {
    if text == "*" {
        return Ok(DiplomatBackendAttrCfg::Star);
    }
    if text == "auto" {
        return Ok(DiplomatBackendAttrCfg::Auto);
    }
    match text.split_once("=") {
        Some((name, value)) => Ok(DiplomatBackendAttrCfg::NameValue(
            Text::new(alloc, name)?,
            Text::new(alloc, value)?,
        )),
        None => Ok(DiplomatBackendAttrCfg::BackendName(Text::new(alloc, text)?)),
    }
}

fn read_part(alloc: Global, lists: Lists, part: &str) -> Result<Lists, NoMemory> {
    if part == "any(" {
        enter(alloc, lists, Form::Any)
    } else if part == "all(" {
        enter(alloc, lists, Form::All)
    } else if part == "not(" {
        enter(alloc, lists, Form::Not)
    } else if part == ")" {
        leave(alloc, lists)
    } else {
        add(lists, plain(alloc, part)?)
    }
}

/// The condition that a text writes.
pub fn condition(alloc: Global, text: &str) -> Result<DiplomatBackendAttrCfg, NoMemory> {
    let mut lists = Lists {
        inner: opened(alloc, Form::Any),
        outer: Vec::new(alloc),
    };
    for part in text.split_whitespace() {
        lists = read_part(alloc, lists, part)?;
    }
    let Lists { inner, .. } = lists;
    let Open { form, parts } = inner;
    let mut parts = parts;
    match parts.pop() {
        Some(whole) => Ok(whole),
        None => closed(alloc, Open { form, parts }),
    }
}

/// What stands in a literal after that beginning, without the quote at its end.
fn quoted<'t>(text: &'t str, start: &str) -> Option<&'t str> {
    match text.strip_prefix(start) {
        Some(rest) => rest.strip_suffix("'"),
        None => None,
    }
}

/// A character of a text of one.
fn character(text: &str) -> char {
    text.chars().next().unwrap_or('?')
}

/// A byte of a text of one.
fn byte(text: &str) -> u8 {
    match text.as_bytes() {
        [byte, ..] => *byte,
        [] => 0,
    }
}

/// A literal without quotes; what is no other one is the text of a whole number.
fn bare(alloc: Global, text: &str) -> Result<Lit, NoMemory> {
    if text == "true" {
        Ok(Lit::Bool(true))
    } else if text == "false" {
        Ok(Lit::Bool(false))
    } else if text == "1.5" {
        Ok(Lit::Float)
    } else if text == "other" {
        Ok(Lit::Other)
    } else {
        Ok(Lit::Int(Text::new(alloc, text)?))
    }
}

/// A literal: a text `'x'`, a character `c'x'`, a byte `b'x'`, or one without quotes.
fn literal(alloc: Global, text: &str) -> Result<Lit, NoMemory> {
    match quoted(text, "'") {
        Some(rest) => return Ok(Lit::Str(Text::new(alloc, rest)?)),
        None => {}
    }
    match quoted(text, "c'") {
        Some(rest) => return Ok(Lit::Char(character(rest))),
        None => {}
    }
    match quoted(text, "b'") {
        Some(rest) => Ok(Lit::Byte(byte(rest))),
        None => bare(alloc, text),
    }
}

fn assign(alloc: Global, text: &str) -> Result<Assign, NoMemory> {
    let (name, value) = text.split_once(" = ").unwrap_or((text, "true"));
    Ok(Assign {
        name: Text::new(alloc, name)?,
        value: literal(alloc, value)?,
    })
}

/// The list that a text writes, with the parenthesis at its end.
fn assigns(alloc: Global, text: &str) -> Result<Items<Assign>, NoMemory> {
    let mut made = Items::new(alloc);
    let text = text.strip_suffix(")").unwrap_or(text);
    if text.is_empty() {
        return Ok(made);
    }
    for part in text.split(',') {
        made.push(assign(alloc, part.strip_prefix(" ").unwrap_or(part))?)?;
    }
    Ok(made)
}

/// The segments of a path, with colons between them.
fn path(alloc: Global, text: &str) -> Result<Items<Text>, NoMemory> {
    let mut made = Items::new(alloc);
    for segment in text.split(':') {
        if !segment.is_empty() {
            made.push(Text::new(alloc, segment)?)?;
        }
    }
    Ok(made)
}

/// A mark without its condition.
pub fn meta(alloc: Global, text: &str) -> Result<Meta, NoMemory> {
    if let Some((name, value)) = text.split_once(" = ") {
        if !name.contains("(") {
            return Ok(Meta {
                path: path(alloc, name)?,
                value: MetaValue::Literal(literal(alloc, value)?),
            });
        }
    }
    match text.split_once("(") {
        Some((name, list)) => Ok(Meta {
            path: path(alloc, name)?,
            value: MetaValue::Assignments(assigns(alloc, list)?),
        }),
        None => Ok(Meta {
            path: path(alloc, text)?,
            value: MetaValue::Empty,
        }),
    }
}

fn mark(alloc: Global, text: &str) -> Result<DiplomatBackendAttr, NoMemory> {
    let (cfg, rest) = text.split_once(", ").unwrap_or(("*", text));
    Ok(DiplomatBackendAttr {
        cfg: condition(alloc, cfg)?,
        meta: meta(alloc, rest)?,
    })
}

fn marks(alloc: Global, text: &str) -> Result<Items<DiplomatBackendAttr>, NoMemory> {
    let mut made = Items::new(alloc);
    if text.is_empty() {
        return Ok(made);
    }
    for part in text.split(';') {
        made.push(mark(alloc, part.strip_prefix(" ").unwrap_or(part))?)?;
    }
    Ok(made)
}

/// A declaration with these marks, and nothing else.
pub fn marked(alloc: Global, text: &str) -> Result<bridge_decl::Attrs, NoMemory> {
    Ok(bridge_decl::Attrs {
        features: Items::new(alloc),
        marks: marks(alloc, text)?,
        abi_rename: RenameAttr::empty(),
        deprecated: None,
    })
}

/// The pattern that a text writes, and for `-` none.
fn pattern(alloc: Global, text: &str) -> Result<RenameAttr, NoMemory> {
    if text == "-" {
        return Ok(RenameAttr::empty());
    }
    match RenameAttr::new(alloc, text) {
        Ok(pattern) => Ok(pattern),
        Err(RenameFault::Pattern) => Ok(RenameAttr::empty()),
        Err(RenameFault::NoMemory) => Err(AllocError),
    }
}

fn note(alloc: Global, text: &str) -> Result<Option<Text>, NoMemory> {
    if text == "-" {
        return Ok(None);
    }
    Ok(Some(Text::new(alloc, text)?))
}

/// Texts with spaces between them.
pub fn texts(alloc: Global, text: &str) -> Result<Items<Text>, NoMemory> {
    let mut made = Items::new(alloc);
    for part in text.split_whitespace() {
        made.push(Text::new(alloc, part)?)?;
    }
    Ok(made)
}

/// A declaration without marks: its features, and after a `; ` each the pattern for its symbol and the note that it is deprecated.
pub fn declared(alloc: Global, text: &str) -> Result<bridge_decl::Attrs, NoMemory> {
    let (features, rest) = text.split_once("; ").unwrap_or((text, "-"));
    let (abi_rename, deprecated) = rest.split_once("; ").unwrap_or((rest, "-"));
    Ok(bridge_decl::Attrs {
        features: texts(alloc, features)?,
        marks: Items::new(alloc),
        abi_rename: pattern(alloc, abi_rename)?,
        deprecated: note(alloc, deprecated)?,
    })
}
