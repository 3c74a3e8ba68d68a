//! Marks by what is marked: where each may stand, and what is asked of parameters with default values.

use crate::tests::{Row, answers, backends, compare, compare_found};
use bridge_decl::NoMemory;
use std::alloc::Global;
use std::process::Abort;
use std::test::Fail;

/// What is marked: what stands before the mark and after it, and the place at which the mark is told.
type Context = (&'static str, &'static str, &'static str);

const CONTEXTS: [Context; 14] = [
    ("", "struct A { x: u8 }", "A"),
    ("", "out_struct A { x: u8 }", "A"),
    ("", "opaque A", "A"),
    ("", "enum A { B=0 }", "A"),
    ("", "trait A { fn m() }", "A"),
    ("enum A { ", "B=0 }", "A"),
    ("opaque A impl { ", "fn m() }", "A::m"),
    ("", "fn f()", "f"),
    ("fn f(", "x: u8)", "f"),
    ("opaque A impl { fn m(", "&self) }", "A::m"),
    ("struct A { ", "x: u8 }", "A"),
    // These aren't tested.
    ("out_struct A { ", "x: u8 }", ""),
    ("", "mod m { }", ""),
    ("trait A { ", "fn m() }", ""),
];

/// A mark, its name, and `+` for each context in which it may stand, else `-`, in the order of the contexts.
type Mark = (&'static str, &'static str, &'static str);

const MARKS: [Mark; 16] = [
    ("disable", "disable", "+++++-++---+++"),
    ("namespace=g", "namespace", "+++++--+---+++"),
    ("rename=g", "rename", "++++++++---+++"),
    ("abi_rename", "abi_rename", "++++++++---+++"),
    ("default", "default", "-----+-----+++"),
    ("error", "error", "+++++--+---+++"),
    (
        "generate_mocking_interface",
        "generate_mocking_interface",
        "--+--------+++",
    ),
    (
        "manually_disposable",
        "manually_disposable",
        "--+--------+++",
    ),
    ("abi_compatible", "abi_compatible", "+--+-------+++"),
    ("ffi_error", "ffi_error", "-----+----++++"),
    ("mut_struct_ref", "mut_struct_ref", "+----------+++"),
    ("tuple", "tuple", "++---------+++"),
    ("include", "custom_extra_code", "++++---+---+++"),
    ("default_1", "default_value", "--------+--+++"),
    (
        "precondition_violation",
        "precondition_violation",
        "++++++++++++++",
    ),
    ("getter", "getter", "------+----+++"),
];

/// A declaration with the mark.
fn declared(alloc: Global, mark: &Mark, context: &Context) -> Result<String, NoMemory> {
    let mut text = String::new(alloc);
    for part in [
        "+callback_returns_must_be_fallible ",
        context.0,
        "#",
        mark.0,
        " ",
        context.1,
    ] {
        text.push_str(part)?;
    }
    Ok(text)
}

/// What is told of it.
fn told(
    alloc: Global,
    mark: &Mark,
    context: &Context,
    may_stand: bool,
) -> Result<String, NoMemory> {
    let mut text = String::new(alloc);
    if may_stand {
        text.push_str("ok")?;
        return Ok(text);
    }
    for part in [context.2, " MarkMisplaced(", mark.1, ")"] {
        text.push_str(part)?;
    }
    Ok(text)
}

/// Compares what is told of a mark in a context.
fn compare_cell(
    rt: &impl Abort,
    alloc: Global,
    mark: &Mark,
    context: &Context,
    may_stand: bool,
) -> Result<(), Fail> {
    let row = declared(alloc, mark, context)?;
    let expected = told(alloc, mark, context, may_stand)?;
    let found = answers::answer(alloc, backends::ALL, "", row.as_str())?;
    compare_found(rt, found.as_str(), expected.as_str(), row.as_str());
    Ok(())
}

/// Compares what is told of a mark in each context.
fn compare_mark(rt: &impl Abort, alloc: Global, mark: &Mark) -> Result<(), Fail> {
    for (context, sign) in CONTEXTS.iter().zip(mark.2.bytes()) {
        compare_cell(rt, alloc, mark, context, sign == b'+')?;
    }
    Ok(())
}

#[test]
fn where_marks_may_stand(rt: HostRuntime) -> Result<(), Fail> {
    for mark in &MARKS {
        compare_mark(&rt, rt.alloc(), mark)?;
    }
    Ok(())
}

const ROWS: [Row; 20] = [
    // MarkMisplaced, where there is more of it, and where declarations are disabled.
    (
        "#default #tuple #getter opaque A",
        "A MarkMisplaced(default); A MarkMisplaced(tuple); A MarkMisplaced(getter)",
    ),
    ("#disable #default opaque A", "A MarkMisplaced(default)"),
    ("#disable enum A { #tuple B=0 }", "A MarkMisplaced(tuple)"),
    ("opaque A impl { #disable #default fn m() }", "ok"),
    ("-tuples #auto.tuple opaque A", "ok"),
    (
        "#namespace=g mod m { fn f() opaque A impl { fn m() } }",
        "ok",
    ),
    // IncludeUnsupported.
    ("-custom_bindings #include opaque A", "A IncludeUnsupported"),
    ("-custom_bindings #include fn f()", "f IncludeUnsupported"),
    (
        "-custom_bindings enum A { #include B=0 }",
        "A MarkMisplaced(custom_extra_code); A IncludeUnsupported",
    ),
    (
        "-custom_bindings #disable #include struct A { x: u8 }",
        "A IncludeUnsupported",
    ),
    ("-custom_bindings #include mod m { opaque A }", "ok"),
    (
        "-custom_bindings opaque A impl { #disable #include fn m() }",
        "ok",
    ),
    // RequiredAfterDefault.
    (
        "opaque A impl { fn m(#default_1 x: u8, y: u8) }",
        "A::m RequiredAfterDefault(y)",
    ),
    (
        "opaque A impl { fn m(#default_1 x: u8, y: u8, #default_1 z: u8, w: u8) }",
        "A::m RequiredAfterDefault(y); A::m RequiredAfterDefault(w)",
    ),
    (
        "opaque A impl { fn m(#default_1 match: u8, y: Q) }",
        "A::m BadIdent(match); A::m RequiredAfterDefault(y); A::m UnresolvedPath(Q)",
    ),
    ("opaque A impl { fn m(x: u8, #default_1 y: u8) }", "ok"),
    (
        "opaque A impl { fn m(#default_1 x: u8, w: &mut DiplomatWrite) }",
        "ok",
    ),
    (
        "opaque A impl { #disable fn m(#default_1 x: u8, y: u8) }",
        "ok",
    ),
    ("fn f(#default_1 x: u8, y: u8)", "ok"),
    (
        "-default_args opaque A impl { fn m(#auto_default x: u8, y: u8) }",
        "ok",
    ),
];

#[test]
fn what_is_told_by_what_is_marked(rt: HostRuntime) -> Result<(), Fail> {
    compare(&rt, rt.alloc(), "", &ROWS)
}
