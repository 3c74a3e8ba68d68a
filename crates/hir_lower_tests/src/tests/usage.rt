//! How definitions are used.

use crate::tests::answers::{Lowered, lowered};
use crate::tests::backends::ALL;
use crate::tests::compare_found;
use bridge_decl::NoMemory;
use hir_definitions::{ResultUsage, TypingUseInfo};
use hir_lower::TypeContext;
use std::alloc::Global;
use std::process::Abort;
use std::test::Fail;

/// What the backend supports, declarations, and how each struct, opaque and enum is used: `sliced`, `optioned`, and of which results
/// each is a side.
const ROWS: [(&str, &str, &str); 3] = [
    (
        "callbacks opaque_slices abi_compatibles",
        "opaque A opaque B opaque C #abi_compatible struct S { a: i32 } struct T { a: i32 } opaque M impl { fn m1(u: Option<&A>) -> Option<Box<C>> fn m2<'a, 'b>(op: &'a [&'a B]) -> &'b [S] fn m3() -> Option<T> fn m4() -> Result<S, i32> fn m5() -> Result<Box<A>, S> fn m6(f: impl Fn() -> Result<&A, S>) }",
        "S sliced Output Output Input; T optioned; A optioned Output Input; B sliced; C optioned; M",
    ),
    // Each result gives one use to each of its sides; fields count as parameters do.
    (
        ALL,
        "struct A { x: DiplomatOption<E>, y: DiplomatOption<B>, z: Option<&'static O> } struct B { x: u8 } #abi_compatible enum E { A=0 } opaque O fn f(x: &[E]) -> Result<E, E>",
        "A; B optioned; O optioned; E sliced optioned Output Output",
    ),
    // Neither what is taken as it is, nor what a disabled function takes.
    (
        ALL,
        "struct A { x: u8 } #abi_compatible enum E { A=0 } opaque O fn f(x: A, y: &O, z: E) -> Box<O> #disable fn g(x: &[A]) -> Option<E>",
        "A; O; E",
    ),
];

/// Adds how a definition of that name is used.
fn put_usage(text: &mut String, name: &str, usage: &TypingUseInfo) -> Result<(), NoMemory> {
    text.push_str(if text.is_empty() { "" } else { "; " })?;
    text.push_str(name)?;
    text.push_str(if usage.sliced { " sliced" } else { "" })?;
    text.push_str(if usage.optioned { " optioned" } else { "" })?;
    for result in usage.results.as_slice() {
        let word = match result {
            ResultUsage::Input(_) => " Input",
            ResultUsage::Output(_) => " Output",
        };
        text.push_str(word)?;
    }
    Ok(())
}

/// How structs, opaques and enums are used.
fn usages(alloc: Global, tcx: &TypeContext) -> Result<String, NoMemory> {
    let mut text = String::new(alloc);
    for def in tcx.structs() {
        put_usage(&mut text, def.name.as_str(), &def.usage)?;
    }
    for def in tcx.opaques() {
        put_usage(&mut text, def.name.as_str(), &def.usage)?;
    }
    for def in tcx.enums() {
        put_usage(&mut text, def.name.as_str(), &def.usage)?;
    }
    Ok(text)
}

/// How those of a context are used, which has to be there.
fn usages_of(alloc: Global, lowered: &Lowered) -> Result<String, Fail> {
    match lowered {
        Ok(tcx) => Ok(usages(alloc, tcx)?),
        Err(_) => Err(Fail::from("a context")),
    }
}

/// That of the declarations of a row.
fn answer(alloc: Global, supported: &str, declared: &str) -> Result<String, Fail> {
    let lowered = lowered(alloc, supported, "", declared)?;
    usages_of(alloc, &lowered)
}

fn compare_row(rt: &impl Abort, alloc: Global, row: &(&str, &str, &str)) -> Result<(), Fail> {
    let (supported, declared, expected) = row;
    let found = answer(alloc, supported, declared)?;
    compare_found(rt, found.as_str(), expected, declared);
    Ok(())
}

#[test]
fn uses_are_noted(rt: HostRuntime) -> Result<(), Fail> {
    for row in &ROWS {
        compare_row(&rt, rt.alloc(), row)?;
    }
    Ok(())
}
