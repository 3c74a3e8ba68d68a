//! Marks, and the conditions of documents.

use crate::tests::{Row, compare};
use std::test::Fail;

const ROWS: [Row; 52] = [
    // AutoMisplaced.
    ("#not_auto opaque A", "A AutoMisplaced"),
    ("#all_auto struct A { x: u8 }", "A AutoMisplaced"),
    ("@docs_auto opaque A", "A AutoMisplaced"),
    ("opaque A impl { @docs_auto fn m() }", "A::m AutoMisplaced"),
    ("struct A { @docs_auto x: u8 }", "A AutoMisplaced"),
    ("#any_auto struct A { x: u8 }", "ok"),
    // UnknownPair.
    ("#pair_nothing struct A { x: u8 }", "A UnknownPair"),
    ("@docs_nothing enum A { B=0 }", "A UnknownPair"),
    ("trait A { @docs_nothing fn m() }", "A::m UnknownPair"),
    ("@docs_nothing fn f()", "f UnknownPair"),
    ("#pair_option struct A { x: u8 }", "ok"),
    ("@docs fn f()", "ok"),
    // MarkUnsupported.
    (
        "-tuples #tuple struct A { x: u8 }",
        "A MarkUnsupported(tuple tests)",
    ),
    (
        "-traits #traits opaque A",
        "A MarkUnsupported(traits tests)",
    ),
    (
        "-default_args fn f(#default_1 x: u8)",
        "f MarkUnsupported(default_value tests)",
    ),
    ("-tuples #auto.tuple struct A { x: u8 }", "ok"),
    ("#tuple struct A { x: u8 }", "ok"),
    // SecondSpecial.
    (
        "opaque A impl { #getter #setter fn m() }",
        "A::m SecondSpecial(setter)",
    ),
    (
        "opaque A impl { #getter #getter fn m() }",
        "A::m SecondSpecial(getter)",
    ),
    ("opaque A impl { #getter fn m() #setter fn n(x: u8) }", "ok"),
    // MarkArgument.
    ("#disable_1 opaque A", "A MarkArgument(disable)"),
    ("#rename_1 fn f()", "f MarkArgument(rename)"),
    ("#rename=g fn f()", "ok"),
    // MarkRepeated.
    ("#disable #disable opaque A", "A MarkRepeated(disable)"),
    (
        "#disable mod m { #disable fn f() }",
        "m::f MarkRepeated(disable)",
    ),
    (
        "enum A { #default #default B=0 }",
        "A MarkRepeated(default)",
    ),
    ("#disable mod m { fn f() }", "ok"),
    // AutoIneligible.
    ("#auto.disable opaque A", "A AutoIneligible(disable)"),
    (
        "opaque A impl { #auto.rename=g fn m() }",
        "A::m AutoIneligible(rename)",
    ),
    ("#auto.namespace=g opaque A", "ok"),
    // BadInclude.
    ("#include_nothing opaque A", "A BadInclude"),
    ("#include_nowhere opaque A", "A BadInclude"),
    ("#custom_extra_code=x fn f()", "f BadInclude"),
    ("#include opaque A", "ok"),
    // IncludeRepeated.
    ("#include #include opaque A", "A IncludeRepeated"),
    ("#include mod m { #include opaque A }", "ok"),
    // BadDefaultValue.
    (
        "opaque A impl { fn m(#default_float x: u8) }",
        "A::m BadDefaultValue",
    ),
    ("fn f(#default_more x: u8)", "f BadDefaultValue"),
    ("fn f(#default_most x: u8)", "ok"),
    // UnknownMark, on each declaration whose marks are read.
    ("#colour mod m { }", "m UnknownMark(colour)"),
    ("#colour struct A { x: u8 }", "A UnknownMark(colour)"),
    ("struct A { #colour x: u8 }", "A UnknownMark(colour)"),
    (
        "#colour out_struct A { #colour x: u8 }",
        "A UnknownMark(colour); A UnknownMark(colour)",
    ),
    (
        "#colour opaque A impl { #colour fn m(#colour x: u8) }",
        "A UnknownMark(colour); A::m UnknownMark(colour); A::m UnknownMark(colour)",
    ),
    (
        "opaque A impl { fn m(#colour &self) }",
        "A::m UnknownMark(colour)",
    ),
    (
        "#colour enum A { #colour B=0 }",
        "A UnknownMark(colour); A UnknownMark(colour)",
    ),
    ("#colour trait A { fn m() }", "A UnknownMark(colour)"),
    ("trait A { #colour fn m() }", "A::m UnknownMark(colour)"),
    (
        "#colour fn f(#colour x: u8)",
        "f UnknownMark(colour); f UnknownMark(colour)",
    ),
    ("#option opaque A", "A UnknownMark(option)"),
    // What isn't read: marks of a trait's parameters and of a writer.
    ("trait A { fn m(#colour x: u8) }", "ok"),
    ("fn f(x: u8, #colour w: &mut DiplomatWrite)", "ok"),
];

#[test]
fn what_is_told_of_marks(rt: HostRuntime) -> Result<(), Fail> {
    compare(&rt, rt.alloc(), "", &ROWS)
}
