//! Special methods by the names and arguments of their marks.

use super::arguments::ARGUMENTS;
use super::notation::meta;
use super::rendering::put_special;
use super::rows::row;
use bridge_decl::{Meta, NoMemory};
use hir_attrs::{MarkFault, SpecialMethod};
use std::alloc::{AllocError, Global};

/// A name, what it gives with each of the arguments, and the operator that it overloads.
const ROWS: [(&str, &str, &str); 23] = [
    ("constructor", "Constructor*14", ""),
    (
        "named_constructor",
        "NamedConstructor / NamedConstructor(x) / NamedConstructor() / NamedConstructor({0}) / NamedConstructor({0}{0}) / Argument*9",
        "",
    ),
    (
        "getter",
        "Getter / Getter(x) / Getter() / Getter({0}) / Getter({0}{0}) / Argument*9",
        "",
    ),
    (
        "setter",
        "Setter / Setter(x) / Setter() / Setter({0}) / Setter({0}{0}) / Argument*9",
        "",
    ),
    ("stringifier", "Stringifier*14", ""),
    ("comparison", "Comparison*14", ""),
    ("iterator", "Iterator*14", ""),
    ("iterable", "Iterable*14", ""),
    ("indexer", "Indexer*14", "[]"),
    ("add", "Add*14", "+"),
    ("sub", "Sub*14", "-"),
    ("mul", "Mul*14", "*"),
    ("div", "Div*14", "/"),
    ("add_assign", "AddAssign*14", "+="),
    ("sub_assign", "SubAssign*14", "-="),
    ("mul_assign", "MulAssign*14", "*="),
    ("div_assign", "DivAssign*14", "/="),
    ("disable", "none*14", ""),
    ("rename", "none*14", ""),
    ("constructors", "none*14", ""),
    ("Getter", "none*14", ""),
    ("add_assig", "none*14", ""),
    ("", "none*14", ""),
];

/// The special method, `none` or `Argument`.
fn found(alloc: Global, name: &str, meta: &Meta) -> Result<String, NoMemory> {
    let mut text = String::new(alloc);
    match SpecialMethod::from_path_and_meta(alloc, name, meta) {
        Ok(Some(method)) => put_special(&mut text, &method)?,
        Ok(None) => text.push_str("none")?,
        Err(MarkFault::Argument) => text.push_str("Argument")?,
        Err(MarkFault::NoMemory) => return Err(AllocError),
    }
    Ok(text)
}

/// That with one of the arguments.
fn with_argument(alloc: Global, name: &str, argument: &str) -> Result<String, NoMemory> {
    let meta = meta(alloc, argument)?;
    found(alloc, name, &meta)
}

fn with_all(alloc: Global, name: &str) -> Result<String, NoMemory> {
    let mut cells = Vec::new(alloc);
    for argument in &ARGUMENTS {
        cells.push(with_argument(alloc, name, argument)?)?;
    }
    row(alloc, cells.as_slice())
}

/// The operator of the special method of that name without argument, or nothing.
fn operator(alloc: Global, name: &str) -> Result<&'static str, NoMemory> {
    match SpecialMethod::from_path_and_meta(alloc, name, &meta(alloc, "")?) {
        Ok(Some(method)) => Ok(method.operator_str().unwrap_or("")),
        _ => Ok(""),
    }
}

#[test]
fn each_name_gives_its_method(rt: HostRuntime) -> Result<(), NoMemory> {
    for (name, cells, overloaded) in &ROWS {
        let found = with_all(rt.alloc(), name)?;
        assert!(rt; found.as_str() == *cells);
        assert!(rt; operator(rt.alloc(), name)? == *overloaded);
    }
    Ok(())
}
