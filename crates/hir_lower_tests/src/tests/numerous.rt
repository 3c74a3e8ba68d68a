//! Declarations with as many lifetimes as there may be, and with one more; structs that nest as deep as they may, and deeper.

use crate::tests::{Row, compare, compare_row};
use bridge_decl::NoMemory;
use std::alloc::Global;
use std::process::Abort;
use std::test::Fail;

const ROWS: [Row; 12] = [
    // TooManyLifetimes.
    ("struct A<'*4096> { x: u8 }", "A TooManyLifetimes"),
    ("struct A<'*4096>", "A TooManyLifetimes"),
    ("opaque A<'*4096>", "A TooManyLifetimes"),
    ("trait A<'*4096>", "A TooManyLifetimes"),
    ("trait A { fn m<'*4096>() }", "A::m TooManyLifetimes"),
    ("fn f<'*4096>(x: u8)", "f TooManyLifetimes"),
    // One that isn't named counts too.
    ("fn f<'*4095>(x: &DiplomatStr)", "f TooManyLifetimes"),
    (
        "opaque O impl { fn m<'*4095>(&self) }",
        "O::m TooManyLifetimes",
    ),
    // As many as there may be.
    ("struct A<'*4095> { x: u8 }", "ok"),
    ("fn f<'*4095>(x: u8)", "ok"),
    ("opaque O impl { fn m<'*4094>(&self) }", "ok"),
    // They aren't counted where what declares them is disabled.
    ("#disable struct A<'*4096> { x: u8 }", "ok"),
];

/// `NestingTooDeep`: so many structs, of which each contains the one before it, a declaration after them, and what is told.
const NESTED: [(usize, Row); 5] = [
    (256, ("struct Last { x: u8 }", "ok")),
    (257, ("", "A256 NestingTooDeep")),
    (258, ("", "A256 NestingTooDeep; A257 NestingTooDeep")),
    (256, ("out_struct Last { x: A255 }", "Last NestingTooDeep")),
    // One that contains itself isn't too deep, nor is what contains it.
    (
        1,
        (
            "struct B { x: DiplomatOption<B> } struct C { x: B }",
            "B StructContainsItself",
        ),
    ),
];

/// Adds a word and a number.
fn put_number(alloc: Global, text: &mut String, word: &str, number: usize) -> Result<(), NoMemory> {
    text.push_str(word)?;
    text.push_str(number.to_string(alloc)?.as_str())
}

/// So many structs, of which each contains the one before it.
fn nested(alloc: Global, count: usize) -> Result<String, NoMemory> {
    let mut text = String::from_str(alloc, "struct A0 { x: u8 } ")?;
    for number in 1..count {
        put_number(alloc, &mut text, "struct A", number)?;
        put_number(alloc, &mut text, " { x: A", number.saturating_sub(1))?;
        text.push_str(" } ")?;
    }
    Ok(text)
}

#[test]
fn lifetimes_are_counted(rt: HostRuntime) -> Result<(), Fail> {
    compare(&rt, rt.alloc(), "", &ROWS)
}

/// Compares what is told of so many structs and what stands after them.
fn compare_nested(rt: &impl Abort, alloc: Global, count: usize, row: &Row) -> Result<(), Fail> {
    let before = nested(alloc, count)?;
    compare_row(rt, alloc, before.as_str(), row)
}

#[test]
fn structs_nest_so_deep(rt: HostRuntime) -> Result<(), Fail> {
    for (count, row) in &NESTED {
        compare_nested(&rt, rt.alloc(), *count, row)?;
    }
    Ok(())
}
