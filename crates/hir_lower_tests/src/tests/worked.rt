//! Worked examples: what is told of them, as it is printed.

use crate::tests::answers::{Lowered, lowered, printed};
use crate::tests::compare_found;
use std::alloc::Global;
use std::process::Abort;
use std::test::Fail;

/// What the backend supports.
const SUPPORTED: &str =
    "static_slices free_functions struct_refs option callbacks opaque_slices default_args";

/// Declarations, and what is told of them; nothing where they are accepted.
const ROWS: [(&str, &str); 10] = [
    (
        "+unsafe opaque O fn f(cb: impl Fn(&O), x: &O) -> &O",
        "Lowering error in f\n  ElisionAmbiguous: source of elision is ambiguous\n",
    ),
    (
        "struct A { b: DiplomatOption<A> }",
        "Lowering error in A\n  StructContainsItself: struct contains itself\n",
    ),
    ("#disable struct A { b: DiplomatOption<A> }", ""),
    (
        "+unsafe opaque Foo impl { fn apply_callback(&self, cb: impl FnMut(&Foo) -> DiplomatOption<&Foo>) }",
        "Lowering error in Foo::apply_callback\n  DiplomatOptionOpaque: found DiplomatOption<T>, where T is opaque. Please use Option<&T> (DiplomatOption is for primitives, structs, and enums)\n",
    ),
    (
        "opaque O impl { fn t(#default_float a: u8) }",
        "Lowering error in O::t\n  BadDefaultValue: unsupported default value\n",
    ),
    (
        "#disable mod m { #disable opaque P }",
        "Lowering error in m::P\n  MarkRepeated: Duplicate `disable` attribute\n",
    ),
    (
        "opaque O fn f(x: Box<O>)",
        "Lowering error in f\n  BoxMisplaced: found Box<T> where it is not allowed\n",
    ),
    (
        "-struct_refs struct S { x: u8 } fn f(x: &S)",
        "Lowering error in f\n  SupportDenied: backend must support struct_refs\n",
    ),
    (
        "fn f(x: &a) use a=b use b=a",
        "Lowering error in f\n  UnresolvedPath: a names nothing\n",
    ),
    (
        "opaque Foo<'a> fn f(x: &Foo<'static, 'static>)",
        "Lowering error in f\n  LifetimeArity: Foo has too many lifetimes\n",
    ),
];

/// What is told, as it is printed.
fn printed_of(alloc: Global, lowered: &Lowered) -> Result<String, Fail> {
    match lowered {
        Ok(_) => Ok(String::new(alloc)),
        Err(reports) => Ok(printed(alloc, reports.as_slice())?),
    }
}

/// That of declarations.
fn answer(alloc: Global, declared: &str) -> Result<String, Fail> {
    let lowered = lowered(alloc, SUPPORTED, "", declared)?;
    printed_of(alloc, &lowered)
}

fn compare_row(rt: &impl Abort, alloc: Global, declared: &str, expected: &str) -> Result<(), Fail> {
    let found = answer(alloc, declared)?;
    compare_found(rt, found.as_str(), expected, declared);
    Ok(())
}

#[test]
fn what_is_told_is_printed(rt: HostRuntime) -> Result<(), Fail> {
    for (declared, expected) in &ROWS {
        compare_row(&rt, rt.alloc(), declared, expected)?;
    }
    Ok(())
}
