//! How structs nest.

use crate::tests::{Row, compare};
use std::test::Fail;

const ROWS: [Row; 9] = [
    // StructContainsItself.
    (
        "struct A { x: DiplomatOption<A> }",
        "A StructContainsItself",
    ),
    (
        "struct A { x: B } struct B { x: DiplomatOption<C> } struct C { x: A } struct D { x: A }",
        "A StructContainsItself; B StructContainsItself; C StructContainsItself",
    ),
    ("struct A<'a> { x: &'a A<'a> }", "A StructContainsItself"),
    (
        "out_struct Q { x: DiplomatOption<Q> } struct A { x: DiplomatOption<A> }",
        "A StructContainsItself; Q StructContainsItself",
    ),
    (
        "struct A { x: DiplomatOption<m::A> } mod m { struct A { x: super::A } }",
        "A StructContainsItself; m::A StructContainsItself",
    ),
    ("out_struct A { x: &'static [A] }", "ok"),
    (
        "#disable struct A { x: DiplomatOption<A> } struct B { x: A }",
        "ok",
    ),
    (
        "struct A { x: C, y: C } struct C { x: D } struct D { x: u8 }",
        "ok",
    ),
    // Nesting is told only where nothing else is.
    (
        "struct A { x: DiplomatOption<A> } fn f(x: &Q)",
        "f UnresolvedPath(Q)",
    ),
];

#[test]
fn what_is_told_of_nesting(rt: HostRuntime) -> Result<(), Fail> {
    compare(&rt, rt.alloc(), "", &ROWS)
}
