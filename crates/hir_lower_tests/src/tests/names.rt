//! Names: what is told of them.

use crate::tests::{Row, compare};
use std::test::Fail;

const ROWS: [Row; 22] = [
    // BadIdent: each kind of item, and its parts. The destructor of an opaque and the symbol of a function or a method have its name where none is written, and are told by themselves.
    ("struct match { x: u8 }", "match BadIdent(match)"),
    ("out_struct fn { x: u8 }", "fn BadIdent(fn)"),
    ("opaque 1", "1 BadIdent(1); 1 BadIdent(1)"),
    ("enum yield { A=0 }", "yield BadIdent(yield)"),
    ("trait dyn { fn m() }", "dyn BadIdent(dyn)"),
    (
        "fn r#self()",
        "r#self BadIdent(r#self); r#self BadIdent(r#self)",
    ),
    (
        "struct A { match: u8, _: u8, x: u8 }",
        "A BadIdent(match); A BadIdent(_)",
    ),
    ("out_struct A { a-b: u8 }", "A BadIdent(a-b)"),
    ("enum A { fn=0, B=1 }", "A BadIdent(fn)"),
    (
        "opaque A impl { fn loop() fn r#loop() }",
        "A::loop BadIdent(loop); A::loop BadIdent(loop)",
    ),
    ("trait A { fn self() }", "A::self BadIdent(self)"),
    ("trait A { fn m(Self: u8) }", "A::m BadIdent(Self)"),
    ("fn f(x: u8, : u8)", "f BadIdent()"),
    ("opaque A impl { fn m(0: u8) }", "A::m BadIdent(0)"),
    ("struct A<'1> { x: u8 }", "A BadIdent(1)"),
    (
        "trait A<'if> { fn m<'in>() }",
        "A BadIdent(if); A::m BadIdent(in)",
    ),
    ("fn f<'a, 'fn>()", "f BadIdent(fn)"),
    ("@abi fn f()", "f BadIdent(1f)"),
    ("opaque A impl { @abi fn m() }", "A::m BadIdent(1f)"),
    ("@dtor opaque A", "A BadIdent(1O)"),
    // What is an identifier, and what no identifier is asked of: modules and aliases.
    (
        "struct r#match { r#fn: u8, _x: u8, é: u8, union: u8 } enum A { r#if=0 } fn r#in<'r#as>(r#crate_: u8)",
        "ok",
    ),
    ("mod fn { struct A { x: u8 } use match=A }", "ok"),
];

#[test]
fn what_is_told_of_names(rt: HostRuntime) -> Result<(), Fail> {
    compare(&rt, rt.alloc(), "", &ROWS)
}
