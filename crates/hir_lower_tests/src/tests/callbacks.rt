//! Functions and traits as types, and what a backend has to support.

use crate::tests::{DECLARED, Row, compare};
use std::test::Fail;

const ROWS: [Row; 44] = [
    // FunctionMisplaced.
    ("struct A { x: impl Fn() }", "A FunctionMisplaced"),
    ("fn f() -> impl Fn()", "f FunctionMisplaced"),
    ("fn f(x: impl Fn(impl Fn()))", "f FunctionMisplaced"),
    (
        "trait A { fn m(x: impl Fn()) -> impl Fn() }",
        "A::m FunctionMisplaced; A::m FunctionMisplaced",
    ),
    ("fn f(x: impl Fn(), y: impl FnMut(u8) -> u8)", "ok"),
    // TraitMisplaced.
    ("struct A { x: impl T }", "A TraitMisplaced"),
    ("fn f() -> impl T", "f TraitMisplaced"),
    ("fn f(x: impl Fn(impl T))", "f TraitMisplaced"),
    ("fn f(x: impl T, y: impl Fn() -> impl T)", "ok"),
    // CallbackReturnShape.
    ("fn f(x: impl Fn() -> &S)", "f CallbackReturnShape"),
    ("trait A { fn m() -> &S }", "A::m CallbackReturnShape"),
    (
        "trait A { fn m() -> S } fn f(x: impl Fn() -> Result<S, E>)",
        "ok",
    ),
    // CallbackReference.
    ("-unsafe fn f(x: impl Fn(&O))", "f CallbackReference"),
    ("-unsafe trait A { fn m(x: &O) }", "A::m CallbackReference"),
    (
        "-unsafe struct U<'a> { x: &'a O } fn f(x: impl Fn(DiplomatOption<U>))",
        "f CallbackReference",
    ),
    (
        "-unsafe fn f(x: impl Fn(&'static O, &[u8], &str, u8))",
        "ok",
    ),
    ("fn f(x: impl Fn(&O)) trait A { fn m(x: &O) }", "ok"),
    // SupportDenied.
    ("-traits fn f(x: impl T)", "f SupportDenied(traits)"),
    ("-struct_refs fn f(x: &S)", "f SupportDenied(struct_refs)"),
    ("-struct_refs fn f(x: &mut S)", "ok"),
    (
        "-mut_struct_refs fn f(x: &mut S)",
        "f SupportDenied(mut_struct_refs)",
    ),
    (
        "-mut_struct_refs struct A { x: u8 } impl { fn m(&mut self) fn n(&self) }",
        "A::m SupportDenied(mut_struct_refs)",
    ),
    ("-option fn f(x: Option<u8>)", "f SupportDenied(option)"),
    (
        "-option out_struct A { x: DiplomatOption<E> }",
        "A SupportDenied(option)",
    ),
    ("-option fn f(x: Option<&O>) -> Option<u8>", "ok"),
    (
        "-static_slices fn f(x: &'static [u8])",
        "f SupportDenied(static_slices)",
    ),
    ("-static_slices fn f() -> &'static [u8]", "ok"),
    (
        "-static_slices fn f() -> &'static [S]",
        "f SupportDenied(static_slices)",
    ),
    (
        "-mutable_slices fn f(x: &mut [u8])",
        "f SupportDenied(mutable_slices)",
    ),
    ("-mutable_slices fn f(x: &[u8], y: [u8])", "ok"),
    (
        "-owned_slices fn f(x: [u8])",
        "f SupportDenied(owned_slices)",
    ),
    ("-owned_slices fn f(x: &[u8]) -> [u8]", "ok"),
    (
        "-owned_byte_slice_returns fn f() -> [u8]",
        "f SupportDenied(owned_byte_slice_returns)",
    ),
    (
        "-opaque_slices fn f(x: &[&O])",
        "f SupportDenied(opaque_slices)",
    ),
    (
        "-callbacks fn f(x: impl Fn())",
        "f SupportDenied(callbacks)",
    ),
    ("-callbacks trait A { fn m() }", "ok"),
    (
        "-generic_writeables fn f(w: &mut WriteU8)",
        "f SupportDenied(generic_writeables)",
    ),
    (
        "-utf16_writeables fn f(w: &mut DiplomatWrite16)",
        "f SupportDenied(utf16_writeables)",
    ),
    (
        "-utf16_writeables -generic_writeables fn f(w: &mut DiplomatWrite)",
        "ok",
    ),
    (
        "-traits_are_send @send trait A { fn m() }",
        "A SupportDenied(traits_are_send)",
    ),
    (
        "-traits_are_sync @send @sync trait A { fn m() }",
        "A SupportDenied(traits_are_sync)",
    ),
    ("@send @sync trait A { fn m() }", "ok"),
    ("-free_functions fn f()", "f SupportDenied(free_functions)"),
    ("-free_functions opaque A impl { fn f() }", "ok"),
];

#[test]
fn what_is_told_of_callbacks(rt: HostRuntime) -> Result<(), Fail> {
    compare(&rt, rt.alloc(), DECLARED, &ROWS)
}
