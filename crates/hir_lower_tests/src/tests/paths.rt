//! Paths: what they name, and whether they may.

use crate::tests::{Row, compare};
use std::test::Fail;

const ROWS: [Row; 35] = [
    // UnresolvedPath.
    ("fn f(x: &A)", "f UnresolvedPath(A)"),
    ("struct A { x: B }", "A UnresolvedPath(B)"),
    ("fn f() -> Box<A::B>", "f UnresolvedPath(A::B)"),
    ("fn g() fn f(x: g)", "f UnresolvedPath(g)"),
    ("trait A { fn m() } fn f(x: &A)", "f UnresolvedPath(A)"),
    ("opaque O fn f(x: impl O)", "f UnresolvedPath(O)"),
    ("opaque O fn f(x: &O::P)", "f UnresolvedPath(O::P)"),
    ("opaque O fn f(x: &super::O)", "f UnresolvedPath(super::O)"),
    (
        "opaque O fn f(x: &crate::crate::O)",
        "f UnresolvedPath(crate::crate::O)",
    ),
    ("opaque O mod m { fn f(x: &O) }", "m::f UnresolvedPath(O)"),
    (
        "fn f(x: &m::O) mod m { mod n { opaque O } }",
        "f UnresolvedPath(m::O)",
    ),
    (
        "use a=b use b=a mod m { fn f(x: &super::a) }",
        "m::f UnresolvedPath(super::a)",
    ),
    (
        "fn f(x: impl Fn(&A) -> B)",
        "f UnresolvedPath(A); f UnresolvedPath(B)",
    ),
    ("trait A { fn m(x: &B) }", "A::m UnresolvedPath(B)"),
    // Paths that name something, through modules and aliases.
    ("opaque O fn f(x: &O, y: &crate::O, z: &self::O)", "ok"),
    (
        "fn f(x: &m::n::O) mod m { fn f(x: &n::O, y: &self::n::O) mod n { opaque O } }",
        "ok",
    ),
    (
        "opaque O mod m { mod n { fn f(x: &super::super::O, y: &crate::O) } }",
        "ok",
    ),
    (
        "fn f(x: &p, y: &n::O) use p=n::O use n=m::n mod m { mod n { opaque O } }",
        "ok",
    ),
    (
        "trait A { fn m() } fn f(x: impl A, y: impl B) use B=A",
        "ok",
    ),
    // SelfMismatch.
    (
        "opaque O opaque P impl { @self_o fn m() }",
        "P::m SelfMismatch",
    ),
    (
        "opaque O impl { @self_crate fn m(&self) }",
        "O::m SelfMismatch",
    ),
    (
        "opaque O impl { @self_crate fn m(x: &Self) }",
        "O::m SelfMismatch",
    ),
    (
        "opaque O<'a> impl { @self_o fn m<'a>(&self) }",
        "O::m SelfMismatch",
    ),
    ("opaque O fn f(x: &Self)", "f SelfMismatch"),
    ("opaque O trait A { fn m(x: &SelfO) }", "A::m SelfMismatch"),
    (
        "trait U { fn m() } trait A { @receiver_u fn m() }",
        "A::m SelfMismatch",
    ),
    // The same paths, written alike.
    (
        "opaque O impl { @self_crate fn m() fn n(&self, x: &Self) -> Box<Self> }",
        "ok",
    ),
    ("trait U { @receiver_u fn m() fn n(&self) }", "ok"),
    // LifetimeArity.
    (
        "opaque O<'a> fn f(x: &O<'static, 'static>)",
        "f LifetimeArity(O)",
    ),
    (
        "opaque O fn f(x: &crate::O<'static>)",
        "f LifetimeArity(crate::O)",
    ),
    ("enum E { A=0 } fn f(x: E<'static>)", "f LifetimeArity(E)"),
    (
        "trait A { fn m() } fn f(x: impl A<'static>)",
        "f LifetimeArity(A)",
    ),
    (
        "struct B { y: u8 } struct A { x: B<'static> }",
        "A LifetimeArity(B)",
    ),
    // As many lifetimes as there may be, and fewer.
    (
        "opaque O<'a, 'b> fn f<'a>(x: &O<'static, 'a>, y: &O<'static>, z: &O)",
        "ok",
    ),
    (
        "trait A<'a> { fn m() } fn f(x: impl A<'static>, y: impl A)",
        "ok",
    ),
];

#[test]
fn what_is_told_of_paths(rt: HostRuntime) -> Result<(), Fail> {
    compare(&rt, rt.alloc(), "", &ROWS)
}
