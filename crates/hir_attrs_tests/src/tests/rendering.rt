//! Sets of marks and broken rules as texts.

use bridge_decl::{NoMemory, Text};
use hir_attrs::{
    Attrs, DefaultArgValue, IncludeLocation, IncludeSource, LoweringError, LoweringReport,
    SpecialMethod,
};
use std::alloc::Global;

/// A word more, with a space before it where it isn't the first.
fn put(text: &mut String, word: &str) -> Result<(), NoMemory> {
    if !text.is_empty() {
        text.push_str(" ")?;
    }
    text.push_str(word)
}

/// A word, and something in parentheses.
fn put_with(text: &mut String, word: &str, inner: &str) -> Result<(), NoMemory> {
    put(text, word)?;
    text.push_str("(")?;
    text.push_str(inner)?;
    text.push_str(")")
}

fn put_flags(text: &mut String, attrs: &Attrs) -> Result<(), NoMemory> {
    let flags = [
        (attrs.disable, "disable"),
        (attrs.unstable, "unstable"),
        (attrs.custom_errors, "custom_errors"),
        (attrs.default, "default"),
        (
            attrs.generate_mocking_interface,
            "generate_mocking_interface",
        ),
        (attrs.manually_disposable, "manually_disposable"),
        (attrs.abi_compatible, "abi_compatible"),
        (attrs.ffi_error, "ffi_error"),
        (attrs.mut_struct_ref, "mut_struct_ref"),
        (attrs.tuple, "tuple"),
        (attrs.precondition_violation, "precondition_violation"),
    ];
    for (is_set, word) in flags {
        if is_set {
            put(text, word)?;
        }
    }
    Ok(())
}

fn put_text(text: &mut String, word: &str, found: Option<&str>) -> Result<(), NoMemory> {
    match found {
        Some(found) => put_with(text, word, found),
        None => Ok(()),
    }
}

fn put_texts(text: &mut String, attrs: &Attrs) -> Result<(), NoMemory> {
    put_text(
        text,
        "deprecated",
        attrs.deprecated.as_ref().map(Text::as_str),
    )?;
    put_text(
        text,
        "namespace",
        attrs.namespace.as_ref().map(Text::as_str),
    )?;
    put_text(text, "rename", attrs.rename.pattern())?;
    put_text(text, "abi_rename", attrs.abi_rename.pattern())
}

fn special_word(method: &SpecialMethod) -> &'static str {
    match method {
        SpecialMethod::Constructor => "Constructor",
        SpecialMethod::NamedConstructor(_) => "NamedConstructor",
        SpecialMethod::Getter(_) => "Getter",
        SpecialMethod::Setter(_) => "Setter",
        SpecialMethod::Stringifier => "Stringifier",
        SpecialMethod::Comparison(false) => "Comparison",
        SpecialMethod::Comparison(true) => "PartialComparison",
        SpecialMethod::Iterator => "Iterator",
        SpecialMethod::Iterable => "Iterable",
        SpecialMethod::Indexer => "Indexer",
        SpecialMethod::Add => "Add",
        SpecialMethod::Sub => "Sub",
        SpecialMethod::Mul => "Mul",
        SpecialMethod::Div => "Div",
        SpecialMethod::AddAssign => "AddAssign",
        SpecialMethod::SubAssign => "SubAssign",
        SpecialMethod::MulAssign => "MulAssign",
        SpecialMethod::DivAssign => "DivAssign",
    }
}

fn special_name(method: &SpecialMethod) -> Option<&str> {
    match method {
        SpecialMethod::NamedConstructor(Some(name)) => Some(name.as_str()),
        SpecialMethod::Getter(Some(name)) => Some(name.as_str()),
        SpecialMethod::Setter(Some(name)) => Some(name.as_str()),
        _ => None,
    }
}

/// A special method, with its name in parentheses where it has one.
pub fn put_special(text: &mut String, method: &SpecialMethod) -> Result<(), NoMemory> {
    let word = special_word(method);
    match special_name(method) {
        Some(name) => put_with(text, word, name),
        None => put(text, word),
    }
}

fn location_word(location: IncludeLocation) -> &'static str {
    match location {
        IncludeLocation::PreDefBlock => "PreDefBlock",
        IncludeLocation::DefBlock => "DefBlock",
        IncludeLocation::PostDefBlock => "PostDefBlock",
        IncludeLocation::ImplBlock => "ImplBlock",
        IncludeLocation::PreImplBlock => "PreImplBlock",
        IncludeLocation::PreInitializationBlock => "PreInitializationBlock",
        IncludeLocation::InitializationBlock => "InitializationBlock",
    }
}

fn put_includes(
    text: &mut String,
    includes: &[(IncludeLocation, IncludeSource)],
) -> Result<(), NoMemory> {
    for (location, source) in includes {
        put(text, location_word(*location))?;
        match source {
            IncludeSource::Source(code) => put_with(text, "source", code.as_str())?,
            IncludeSource::File(file) => put_with(text, "file", file.as_str())?,
        }
    }
    Ok(())
}

fn put_default(alloc: Global, text: &mut String, value: DefaultArgValue) -> Result<(), NoMemory> {
    match value {
        DefaultArgValue::Bool(true) => put_with(text, "Bool", "true"),
        DefaultArgValue::Bool(false) => put_with(text, "Bool", "false"),
        DefaultArgValue::Char(value) => put_with(text, "Char", value.to_string(alloc)?.as_str()),
        DefaultArgValue::Integer(value) => {
            put_with(text, "Integer", value.to_string(alloc)?.as_str())
        }
    }
}

fn put_rest(alloc: Global, text: &mut String, attrs: &Attrs) -> Result<(), NoMemory> {
    if let Some(method) = &attrs.special_method {
        put_special(text, method)?;
    }
    put_includes(text, attrs.custom_extra_code.as_slice())?;
    match attrs.default_value {
        Some(value) => put_default(alloc, text, value),
        None => Ok(()),
    }
}

/// A broken rule after a `!`, with its arguments in parentheses.
fn put_error(text: &mut String, error: &LoweringError) -> Result<(), NoMemory> {
    put(text, "!")?;
    text.push_str(error.rule.name())?;
    let mut before = "(";
    let mut after = "";
    for arg in error.args.as_slice() {
        text.push_str(before)?;
        text.push_str(arg.as_str())?;
        before = " ";
        after = ")";
    }
    text.push_str(after)
}

/// The fields that are set and the rules that are broken; `-` where there are none.
pub fn render(
    alloc: Global,
    attrs: &Attrs,
    reports: &[LoweringReport],
) -> Result<String, NoMemory> {
    let mut text = String::new(alloc);
    put_flags(&mut text, attrs)?;
    put_texts(&mut text, attrs)?;
    put_rest(alloc, &mut text, attrs)?;
    for report in reports {
        put_error(&mut text, &report.error)?;
    }
    if text.is_empty() {
        text.push_str("-")?;
    }
    Ok(text)
}
