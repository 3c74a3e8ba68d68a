//! Several reports, in their order.

use crate::tests::{Row, compare};
use std::test::Fail;

const ROWS: [Row; 6] = [
    // Modules come first, and then items kind by kind.
    (
        "fn f(x: &Y) trait T { fn m(x: &'a O) } enum match { A=0 } opaque O impl { fn m(x: &Y) } struct S { x: Y } out_struct W { x: Y } #colour mod m { struct U { x: Y } #colour mod n { out_struct W { x: Y } } } #colour mod p { opaque V impl { fn m() -> &V } }",
        "m UnknownMark(colour); p UnknownMark(colour); m::n UnknownMark(colour); W UnresolvedPath(Y); m::n::W UnresolvedPath(Y); S UnresolvedPath(Y); m::U UnresolvedPath(Y); O::m UnresolvedPath(Y); p::V::m ElisionNoSource; match BadIdent(match); T::m LifetimeUnknown(a); f UnresolvedPath(Y)",
    ),
    // Several in one item: itself first, and then its methods, in order.
    (
        "#colour struct match { _: u8, x: Ordering, y: unit } impl { fn n(x: &Q, y: &Q) #colour fn m(self) -> O }",
        "match UnknownMark(colour); match BadIdent(match); match BadIdent(_); match FfiUnsafe(x); match OrderingMisplaced; match FfiUnsafe(y); match UnitMisplaced; match::n UnresolvedPath(Q); match::n UnresolvedPath(Q); match::m UnknownMark(colour); match::m UnresolvedPath(O)",
    ),
    (
        "#colour @docs_auto fn match<'1>(#colour _: u8, #colour x: u8) -> u8",
        "match UnknownMark(colour); match AutoMisplaced; match BadIdent(match); match BadIdent(match); match BadIdent(1); match BadIdent(_); match UnknownMark(colour); match UnknownMark(colour)",
    ),
    (
        "opaque A impl { fn m(x: &Q) fn m(x: unit) fn n() fn m() -> unit }",
        "A::m UnresolvedPath(Q); A::m UnitMisplaced",
    ),
    // Two items of one name, in two modules.
    (
        "mod m { struct A { x: Q } } mod n { struct A { x: Q } }",
        "m::A UnresolvedPath(Q); n::A UnresolvedPath(Q)",
    ),
    (
        "mod m { opaque A impl { fn m(x: unit) } } mod n { opaque A impl { fn m(x: u8) } }",
        "m::A::m UnitMisplaced",
    ),
];

#[test]
fn reports_stand_in_order(rt: HostRuntime) -> Result<(), Fail> {
    compare(&rt, rt.alloc(), "", &ROWS)
}
