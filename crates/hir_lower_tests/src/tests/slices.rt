//! Slices and strings, by where they stand.

use crate::tests::{DECLARED, Row, compare};
use std::test::Fail;

const ROWS: [Row; 22] = [
    // SliceElement.
    ("fn f(x: &[&S])", "f SliceElement"),
    ("fn f(x: &[Option<S>])", "f SliceElement"),
    ("fn f(x: &[strs])", "f SliceElement"),
    ("fn f() -> &'static [Box<O>]", "f SliceElement"),
    (
        "fn f(x: &[S], y: &[E], z: &[&O], u: &[Option<&O>]) -> &'static [S]",
        "ok",
    ),
    // OpaqueSliceShape.
    ("fn f() -> &'static [&'static O]", "f OpaqueSliceShape"),
    ("fn f(x: &mut [&O])", "f OpaqueSliceShape"),
    ("fn f(x: &'static [&O])", "f OpaqueSliceShape"),
    ("fn f(x: &[&'static O])", "f OpaqueSliceShape"),
    ("fn f(x: &[Option<&mut M>])", "f OpaqueSliceShape"),
    ("fn f(x: impl Fn(&[Option<&O>]))", "f OpaqueSliceShape"),
    ("fn f(x: &[Option<&O>], y: [&O])", "ok"),
    // OwnedSliceMisplaced.
    ("fn f() -> [u16]", "f OwnedSliceMisplaced"),
    ("fn f() -> str", "f OwnedSliceMisplaced"),
    ("fn f() -> Result<unit, [u8]>", "f OwnedSliceMisplaced"),
    ("out_struct A { x: [u8] }", "A OwnedSliceMisplaced"),
    (
        "fn f(x: impl Fn([u8]) -> [u8])",
        "f OwnedSliceMisplaced; f OwnedSliceMisplaced",
    ),
    (
        "fn f(x: [u16], y: str) -> [u8] fn g() -> Option<[byte]> fn h() -> Result<[u8], unit>",
        "ok",
    ),
    // StrsOutput.
    ("fn f() -> strs", "f StrsOutput"),
    ("out_struct A { x: strs }", "A StrsOutput"),
    ("fn f(x: impl Fn(strs))", "f StrsOutput"),
    ("fn f(x: strs, y: impl Fn() -> strs)", "ok"),
];

#[test]
fn what_is_told_of_slices(rt: HostRuntime) -> Result<(), Fail> {
    compare(&rt, rt.alloc(), DECLARED, &ROWS)
}
