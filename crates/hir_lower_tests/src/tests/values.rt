//! Values, structs, opaques and what borrows them, by where they stand.

use crate::tests::{DECLARED, Row, compare};
use std::test::Fail;

const ROWS: [Row; 47] = [
    // OrderingMisplaced.
    ("fn f(x: Ordering)", "f OrderingMisplaced"),
    ("fn f(x: impl Fn() -> Ordering)", "f OrderingMisplaced"),
    ("out_struct A { x: Ordering }", "A OrderingMisplaced"),
    (
        "struct A { x: Ordering }",
        "A FfiUnsafe(x); A OrderingMisplaced",
    ),
    (
        "fn f(x: impl Fn(Ordering)) -> Option<Ordering> trait A { fn m(x: Ordering) }",
        "ok",
    ),
    // ZeroSize.
    ("fn f(x: Z)", "f ZeroSize"),
    ("fn f() -> Z", "f ZeroSize"),
    ("struct A { x: DiplomatOption<Z> }", "A ZeroSize"),
    ("out_struct A { x: Z }", "A ZeroSize"),
    ("fn f(x: impl Fn(Z) -> Z)", "f ZeroSize; f ZeroSize"),
    (
        "out_struct A { x: DiplomatOption<Z> } fn f(x: impl Fn(DiplomatOption<Z>)) -> Result<Z, Z> fn g() -> Option<Z>",
        "ok",
    ),
    // ZeroSizeMethods.
    ("struct A impl { fn m() }", "A ZeroSizeMethods"),
    ("struct A impl { #disable fn m() }", "A ZeroSizeMethods"),
    (
        "struct A { x: u8 } impl { fn m() } out_struct B impl { fn m() } struct C",
        "ok",
    ),
    // OutStructInput.
    ("fn f(x: Q)", "f OutStructInput"),
    ("fn f(x: &Q)", "f OutStructInput"),
    ("struct A { x: Q }", "A OutStructInput"),
    ("fn f(x: impl Fn() -> Q)", "f OutStructInput"),
    (
        "out_struct A { x: u8 } impl { fn m(self) fn n(&self) }",
        "A::m OutStructInput; A::n OutStructInput",
    ),
    ("out_struct A { x: Q } fn f(x: impl Fn(Q)) -> Q", "ok"),
    // OpaqueByValue.
    ("fn f(x: O) -> O", "f OpaqueByValue; f OpaqueByValue"),
    ("struct A { x: DiplomatOption<O> }", "A OpaqueByValue"),
    ("out_struct A { x: O }", "A OpaqueByValue"),
    (
        "fn f(x: impl Fn(O) -> Option<O>)",
        "f OpaqueByValue; f OpaqueByValue",
    ),
    ("fn f(x: &[O])", "f OpaqueByValue"),
    ("opaque A impl { fn m(self) }", "A::m OpaqueByValue"),
    ("opaque A impl { fn m(&self, x: &O) -> Box<O> }", "ok"),
    // MutOpaqueUnmarked.
    ("fn f(x: &mut O)", "f MutOpaqueUnmarked"),
    ("struct A { x: &'static mut O }", "A MutOpaqueUnmarked"),
    ("fn f(x: impl Fn() -> &mut O)", "f MutOpaqueUnmarked"),
    (
        "opaque A impl { fn m(&mut self) }",
        "A::m MutOpaqueUnmarked",
    ),
    (
        "fn f(x: &[&mut O])",
        "f MutOpaqueUnmarked; f OpaqueSliceShape",
    ),
    (
        "fn f(x: &mut M) -> &mut O out_struct A { x: &'static mut O } @mutable opaque B impl { fn m(&mut self) }",
        "ok",
    ),
    ("fn f(x: impl Fn(&mut O), y: Option<&mut O>)", "ok"),
    // ReferenceTarget.
    ("fn f(x: &u8)", "f ReferenceTarget"),
    ("fn f(x: &E)", "f ReferenceTarget"),
    ("fn f(x: &&O)", "f ReferenceTarget"),
    ("fn f(x: &mut DiplomatWrite, y: u8)", "f ReferenceTarget"),
    ("fn f(x: &S) -> &S", "f ReferenceTarget"),
    ("fn f(x: impl Fn(&S))", "f ReferenceTarget"),
    ("out_struct A { x: &'static S }", "A ReferenceTarget"),
    ("fn f(x: &S, y: &mut S)", "ok"),
    // BoxMisplaced.
    ("fn f(x: Box<O>)", "f BoxMisplaced"),
    ("fn f() -> Box<S>", "f BoxMisplaced"),
    ("fn f(x: impl Fn() -> Box<O>)", "f BoxMisplaced"),
    ("struct A { x: Box<O> }", "A BoxMisplaced"),
    (
        "fn f(x: impl Fn(Box<O>)) -> Box<O> out_struct A { x: Box<O> } fn g() -> Result<Box<O>, Box<O>>",
        "ok",
    ),
];

#[test]
fn what_is_told_of_values(rt: HostRuntime) -> Result<(), Fail> {
    compare(&rt, rt.alloc(), DECLARED, &ROWS)
}
