//! Options, results, units and writers, and fields whose layout isn't safe.

use crate::tests::{DECLARED, Row, compare};
use std::test::Fail;

const ROWS: [Row; 41] = [
    // OptionShape.
    ("fn f(x: Option<Box<O>>)", "f OptionShape"),
    ("fn f(x: DiplomatOption<Box<O>>)", "f OptionShape"),
    ("fn f(x: Option<&S>)", "f OptionShape"),
    ("fn f() -> Option<Box<S>>", "f OptionShape"),
    ("fn f(x: impl Fn(Option<strs>))", "f OptionShape"),
    (
        "out_struct A { x: DiplomatOption<&'static DiplomatStr> }",
        "A OptionShape",
    ),
    ("fn f(x: Option<Option<u8>>)", "f OptionShape"),
    ("fn f(x: Option<Ordering>)", "f OptionShape"),
    ("fn f(x: impl Fn() -> Option<Box<O>>)", "f OptionShape"),
    (
        "fn f(x: Option<strs>, y: Option<&str>, z: Option<&[u8]>, u: Option<&O>) -> Option<Box<O>>",
        "ok",
    ),
    ("fn f() -> Option<unit> fn g() -> Option<Ordering>", "ok"),
    // StdOptionPlace.
    ("out_struct A { x: Option<u8> }", "A StdOptionPlace"),
    (
        "struct A { x: Option<S> }",
        "A FfiUnsafe(x); A StdOptionPlace",
    ),
    ("fn f() -> Result<Option<u8>, unit>", "f StdOptionPlace"),
    (
        "fn f(x: impl Fn() -> Result<unit, Option<S>>)",
        "f StdOptionPlace",
    ),
    (
        "out_struct A { x: DiplomatOption<u8> } struct B { x: DiplomatOption<S> } fn f() -> Result<DiplomatOption<u8>, unit>",
        "ok",
    ),
    ("fn f(x: Option<u8>, y: Option<E>) -> Option<u8>", "ok"),
    // DiplomatOptionOpaque.
    ("fn f(x: DiplomatOption<&O>)", "f DiplomatOptionOpaque"),
    (
        "struct A { x: DiplomatOption<&'static O> }",
        "A FfiUnsafe(x); A DiplomatOptionOpaque",
    ),
    ("fn f() -> DiplomatOption<Box<O>>", "f DiplomatOptionOpaque"),
    (
        "fn f(x: impl Fn() -> DiplomatOption<Box<O>>)",
        "f DiplomatOptionOpaque",
    ),
    (
        "fn f(x: impl Fn(DiplomatOption<Box<O>>))",
        "f DiplomatOptionOpaque",
    ),
    (
        "fn f(x: Option<&O>) -> Option<&O> struct A { x: Option<&'static O> }",
        "ok",
    ),
    // ResultMisplaced.
    ("fn f(x: Result<u8, u8>)", "f ResultMisplaced"),
    ("fn f() -> Option<Result<u8, u8>>", "f ResultMisplaced"),
    (
        "fn f() -> Result<Result<u8, u8>, unit>",
        "f ResultMisplaced",
    ),
    ("out_struct A { x: Result<u8, u8> }", "A ResultMisplaced"),
    ("fn f(x: impl Fn(Result<u8, u8>))", "f ResultMisplaced"),
    (
        "fn f(x: impl Fn() -> Result<u8, u8>) -> Result<u8, E>",
        "ok",
    ),
    // WriteMisplaced.
    ("fn f(x: DiplomatWrite)", "f WriteMisplaced"),
    ("fn f() -> DiplomatWrite", "f WriteMisplaced"),
    ("fn f(x: impl Fn(DiplomatWrite))", "f WriteMisplaced"),
    (
        "fn f(x: u8, w: &mut DiplomatWrite) -> Result<unit, E>",
        "ok",
    ),
    ("fn f(match: &'a mut DiplomatWrite)", "ok"),
    // UnitMisplaced.
    ("fn f(x: unit)", "f UnitMisplaced"),
    ("out_struct A { x: unit }", "A UnitMisplaced"),
    ("fn f(x: impl Fn(unit))", "f UnitMisplaced"),
    (
        "fn f(x: impl Fn() -> unit) -> Result<unit, unit> fn g() -> unit",
        "ok",
    ),
    // FfiUnsafe.
    (
        "struct A { x: &'static [u8], y: u8, z: &'static str }",
        "A FfiUnsafe(x); A FfiUnsafe(z)",
    ),
    (
        "struct A { x: Option<Option<u8>> }",
        "A FfiUnsafe(x); A OptionShape",
    ),
    (
        "struct A { x: &'static Diplomat[u8], y: &'static DiplomatStr, z: &'static O } out_struct B { x: &'static [u8] }",
        "ok",
    ),
];

#[test]
fn what_is_told_of_options(rt: HostRuntime) -> Result<(), Fail> {
    compare(&rt, rt.alloc(), DECLARED, &ROWS)
}
