//! Lifetimes: whether they are declared, and where those that are left out come from.

use crate::tests::{Row, compare};
use std::test::Fail;

const ROWS: [Row; 29] = [
    // LifetimeUnknown.
    ("opaque O fn f(x: &'a O)", "f LifetimeUnknown(a)"),
    (
        "opaque O fn f<'a>(x: &'a O) -> &'b O",
        "f LifetimeUnknown(b)",
    ),
    ("opaque O struct A<'a> { x: &'b O }", "A LifetimeUnknown(b)"),
    (
        "opaque O<'o> impl { fn m<'o>(&'b self, x: &O<'c>) }",
        "O::m LifetimeUnknown(b); O::m LifetimeUnknown(c)",
    ),
    ("opaque O fn f(x: impl Fn(&'a O))", "f LifetimeUnknown(a)"),
    (
        "opaque O trait A<'a> { fn m(x: &'a O) }",
        "A::m LifetimeUnknown(a)",
    ),
    // Lifetimes that are declared, where they are used.
    ("opaque O fn f<'a>(x: &'a O, y: &'static O) -> &'a O", "ok"),
    ("opaque O trait A<'a> { fn m<'a>(x: &'a O) }", "ok"),
    // AnonymousInDefinition.
    ("opaque O struct A { x: &O }", "A AnonymousInDefinition"),
    (
        "opaque O out_struct A { x: &'_ O }",
        "A AnonymousInDefinition",
    ),
    (
        "struct B<'b> { x: &'b DiplomatStr } struct A { x: B }",
        "A AnonymousInDefinition",
    ),
    ("struct A { x: &DiplomatStr }", "A AnonymousInDefinition"),
    // Fields whose lifetimes have names.
    (
        "opaque O<'o> struct A<'a> { x: &'a O<'static>, y: &'a DiplomatStr, z: &'static O<'a> }",
        "ok",
    ),
    // ElisionNoSource.
    ("opaque O fn f() -> &O", "f ElisionNoSource"),
    ("opaque O<'o> fn f(x: u8) -> Box<O>", "f ElisionNoSource"),
    (
        "opaque O opaque P<'a> impl { fn m<'a>() -> &O }",
        "P::m ElisionNoSource",
    ),
    (
        "opaque O<'a> impl { fn m<'a>(self_: &'a Self) -> Box<O> }",
        "ok",
    ),
    (
        "opaque O fn f(w: &mut DiplomatWrite) -> &O",
        "f ElisionNoSource",
    ),
    ("fn f() -> &'static DiplomatStr", "ok"),
    // ElisionAmbiguous.
    ("opaque O fn f(x: &O, y: &O) -> &O", "f ElisionAmbiguous"),
    (
        "opaque O fn f(x: &'static O, y: &O) -> &O",
        "f ElisionAmbiguous",
    ),
    (
        "opaque O<'o> fn f(x: &O) -> &'_ O<'static>",
        "f ElisionAmbiguous",
    ),
    (
        "opaque O impl { fn m(x: &O, y: &DiplomatStr) -> &O }",
        "O::m ElisionAmbiguous",
    ),
    // One source, and the borrow of a receiver before others.
    ("opaque O fn f(x: &O, y: u8) -> &O", "ok"),
    (
        "opaque O impl { fn m<'a>(&'a self, x: &O, y: &O) -> &O }",
        "ok",
    ),
    (
        "opaque O fn f(x: &O, w: &mut DiplomatWrite) -> Option<&O>",
        "ok",
    ),
    (
        "enum E { A=0 } impl { fn m<'a>(&'a self, x: &DiplomatStr, y: &DiplomatStr) -> &DiplomatStr }",
        "ok",
    ),
    (
        "opaque O trait A { fn m(x: &O, y: &O) -> Option<&O> }",
        "ok",
    ),
    ("opaque O fn f(x: impl Fn() -> Option<&O>)", "ok"),
];

#[test]
fn what_is_told_of_lifetimes(rt: HostRuntime) -> Result<(), Fail> {
    compare(&rt, rt.alloc(), "", &ROWS)
}
