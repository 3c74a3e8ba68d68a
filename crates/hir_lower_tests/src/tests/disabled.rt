//! What is tested of what is disabled, and of writers at the end.

use crate::tests::{Row, compare};
use std::test::Fail;

const ROWS: [Row; 33] = [
    // Of a disabled item its own name and the names of its lifetimes are tested.
    (
        "#disable struct match<'1> { match: &Q } impl { #colour fn match(x: &Q) -> &Q }",
        "match BadIdent(match); match BadIdent(1)",
    ),
    (
        "#disable out_struct match<'1> { match: &Q } impl { #colour fn match(x: &Q) -> &Q }",
        "match BadIdent(match); match BadIdent(1)",
    ),
    (
        "#disable opaque match<'1> impl { #colour fn match(x: &Q) -> &Q }",
        "match BadIdent(match); match BadIdent(1); match BadIdent(match)",
    ),
    (
        "#disable enum match impl { #colour fn match(x: &Q) -> &Q }",
        "match BadIdent(match)",
    ),
    (
        "#disable trait match<'1> { #colour fn match(x: &Q) -> &Q }",
        "match BadIdent(match); match BadIdent(1)",
    ),
    (
        "#disable fn match<'1>(#colour match: &Q) -> &Q",
        "match BadIdent(match); match BadIdent(match); match BadIdent(1)",
    ),
    // An opaque's name of its destructor, and a function's symbol.
    ("#disable @dtor opaque A", "A BadIdent(1O)"),
    ("#disable @abi fn f()", "f BadIdent(1f)"),
    // An enum's variants: their names, their marks, and the conditions of their documents.
    ("#disable enum A { match=0 }", "A BadIdent(match)"),
    ("#disable enum A { #colour B=0 }", "A UnknownMark(colour)"),
    ("#disable enum A { @docs_auto B=0 }", "A AutoMisplaced"),
    // Its own marks, and the conditions of its own documents.
    (
        "#disable #colour struct A { x: u8 }",
        "A UnknownMark(colour)",
    ),
    (
        "#disable #colour out_struct A { x: u8 }",
        "A UnknownMark(colour)",
    ),
    (
        "#disable #colour @docs_auto opaque A",
        "A UnknownMark(colour); A AutoMisplaced",
    ),
    ("#disable #colour enum A { B=0 }", "A UnknownMark(colour)"),
    (
        "#disable #colour @docs_auto trait A",
        "A UnknownMark(colour); A AutoMisplaced",
    ),
    (
        "#disable #colour @docs_nothing fn f()",
        "f UnknownMark(colour); f UnknownPair",
    ),
    // What a trait that is `Send` or `Sync` needs.
    (
        "-traits_are_send #disable @send trait A",
        "A SupportDenied(traits_are_send)",
    ),
    (
        "-traits_are_sync #disable @sync trait A",
        "A SupportDenied(traits_are_sync)",
    ),
    // Nothing else of it.
    (
        "#disable struct A { #colour match: Q, @docs_auto x: &A, y: unit }",
        "ok",
    ),
    (
        "#disable out_struct A { #colour match: Q, @docs_auto x: &A, y: unit }",
        "ok",
    ),
    (
        "#disable struct A impl { #colour fn match(self, x: &Q) -> &'z Q }",
        "ok",
    ),
    (
        "#disable opaque A impl { #colour @abi @docs_auto fn match(self, x: &Q) -> &'z Q }",
        "ok",
    ),
    (
        "#disable enum A { B=0 } impl { #colour fn match(#colour &self) -> &Q }",
        "ok",
    ),
    (
        "#disable trait A { #colour @docs_auto fn match(match: &Q) -> &'z Q }",
        "ok",
    ),
    (
        "-free_functions -option #disable fn f(#colour match: Q, y: Option<u8>) -> &Q",
        "ok",
    ),
    // Of a disabled method its marks alone.
    (
        "opaque A impl { #disable #colour fn m() }",
        "A::m UnknownMark(colour)",
    ),
    (
        "trait A { #disable #colour fn m() }",
        "A::m UnknownMark(colour)",
    ),
    (
        "opaque A impl { #disable @abi @docs_auto fn match<'1>(#colour self, #colour match: Q) -> &'z Q }",
        "ok",
    ),
    (
        "trait A { #disable @docs_auto fn match<'1>(match: Q) -> &'z Q }",
        "ok",
    ),
    // Of a writer at the end what it needs alone.
    (
        "-generic_writeables fn f(#colour match: &'z mut WriteU8)",
        "f SupportDenied(generic_writeables)",
    ),
    (
        "opaque A impl { fn m(&self, #colour match: &'z mut DiplomatWrite) }",
        "ok",
    ),
    // What a module hands on: it is disabled, and so is what stands in it.
    (
        "#disable mod m { struct A { x: Q } opaque match fn f(x: &Q) mod n { trait A { fn m(x: &Q) } } }",
        "m::match BadIdent(match); m::match BadIdent(match)",
    ),
];

#[test]
fn what_is_told_of_what_is_disabled(rt: HostRuntime) -> Result<(), Fail> {
    compare(&rt, rt.alloc(), "", &ROWS)
}
