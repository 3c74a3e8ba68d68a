//! Which special methods types have.

use crate::tests::answers::{Lowered, lowered};
use crate::tests::backends::ALL;
use crate::tests::compare_found;
use crate::tests::signatures::{put_number, put_success};
use bridge_decl::NoMemory;
use hir_attrs::SpecialMethod;
use hir_definitions::{Method, SpecialMethodPresence};
use hir_lower::TypeContext;
use std::alloc::Global;
use std::process::Abort;
use std::test::Fail;

/// Declarations, and which special methods each type has: `comparison` or `partial comparison`, what it gives at each step, and the
/// opaque that it is iterable by. Behind them its methods that are marked as comparisons, and whether their mark says that they are partial.
const ROWS: [(&str, &str); 9] = [
    (
        "opaque O impl { #comparison fn cmp(&self, other: &O) -> Option<Ordering> }",
        "O partial comparison, partial cmp",
    ),
    (
        "opaque O impl { #comparison fn cmp(&self, other: &O) -> Ordering }",
        "O comparison, cmp",
    ),
    (
        "#abi_compatible enum E { A=0 } impl { #comparison fn cmp(self, other: E) -> Ordering }",
        "E comparison, cmp",
    ),
    (
        "@mutable opaque A impl { #iterator fn next(&mut self) -> Option<u8> }",
        "A steps value",
    ),
    // What a step gives is there: that none is left is said by its absence.
    (
        "@mutable opaque A impl { #iterator fn next(&mut self) -> Option<Box<B>> } opaque B",
        "A steps opaque 1; B",
    ),
    (
        "opaque A impl { #iterator fn next<'a>(&'a self) -> Option<&'a A> }",
        "A steps opaque 0 '0",
    ),
    (
        "struct S { a: u8 } impl { #iterable fn iter(self) -> Result<Box<A>, u8> } opaque O opaque A impl { #iterator fn next(&self) -> Option<u8> }",
        "S iterable by 1; O; A steps value",
    ),
    (
        "opaque A impl { #comparison fn cmp(&self, x: &A) -> Ordering fn m(&self) #iterable fn iter(&self) -> Box<A> #iterator fn next(&self) -> Option<u8> }",
        "A comparison steps value iterable by 0, cmp",
    ),
    // Other marks, and methods that are disabled.
    (
        "opaque A impl { #getter fn m(&self) -> u8 #add fn n(&self, x: u8) -> u8 #disable #comparison fn cmp(&self, x: &A) -> Ordering }",
        "A",
    ),
];

/// Adds which special methods a type of that name has.
fn put_presence(
    alloc: Global,
    text: &mut String,
    name: &str,
    presence: &SpecialMethodPresence,
) -> Result<(), NoMemory> {
    text.push_str(if text.is_empty() { "" } else { "; " })?;
    text.push_str(name)?;
    text.push_str(if presence.optional_comparator {
        " partial"
    } else {
        ""
    })?;
    text.push_str(if presence.comparator {
        " comparison"
    } else {
        ""
    })?;
    if let Some(value) = &presence.iterator {
        text.push_str(" steps ")?;
        put_success(alloc, text, value)?;
    }
    match presence.iterable {
        Some(id) => put_number(alloc, text, " iterable by ", id.index()),
        None => Ok(()),
    }
}

/// Adds the method, where it is marked as a comparison.
fn put_comparison(text: &mut String, method: &Method) -> Result<(), NoMemory> {
    match &method.attrs.special_method {
        Some(SpecialMethod::Comparison(partial)) => {
            text.push_str(if *partial { ", partial " } else { ", " })?;
            text.push_str(method.name.as_str())
        }
        _ => Ok(()),
    }
}

/// Which special methods all types have.
fn presences(alloc: Global, tcx: &TypeContext) -> Result<String, NoMemory> {
    let mut text = String::new(alloc);
    for (_id, def) in tcx.all_types() {
        let name = def.name().as_str();
        put_presence(alloc, &mut text, name, def.special_method_presence())?;
        for method in def.methods() {
            put_comparison(&mut text, method)?;
        }
    }
    Ok(text)
}

/// Those of a context, which has to be there.
fn presences_of(alloc: Global, lowered: &Lowered) -> Result<String, Fail> {
    match lowered {
        Ok(tcx) => Ok(presences(alloc, tcx)?),
        Err(_) => Err(Fail::from("a context")),
    }
}

/// Those of the declarations of a row.
fn answer(alloc: Global, declared: &str) -> Result<String, Fail> {
    let lowered = lowered(alloc, ALL, "", declared)?;
    presences_of(alloc, &lowered)
}

fn compare_row(rt: &impl Abort, alloc: Global, row: &(&str, &str)) -> Result<(), Fail> {
    let (declared, expected) = row;
    let found = answer(alloc, declared)?;
    compare_found(rt, found.as_str(), expected, declared);
    Ok(())
}

#[test]
fn types_keep_their_special_methods(rt: HostRuntime) -> Result<(), Fail> {
    for row in &ROWS {
        compare_row(&rt, rt.alloc(), row)?;
    }
    Ok(())
}
