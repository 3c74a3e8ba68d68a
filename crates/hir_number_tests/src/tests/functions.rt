//! Functions: lifetimes, the parameters and the return; and then the parameters and the return with numbers, and the count of all
//! lifetimes, or the fault.

use super::answers::Call;
use super::compare;
use bridge_decl::NoMemory;

/// What a return borrows from.
pub const BORROWS: [(&str, &str); 21] = [
    ("'a 'b:'a | &'a O ; &'b O | &'a O", "&0 O; &1 O | &0 O | 2"),
    ("'a 'b:'a | &'a O ; &'b O | &'b O", "&0 O; &1 O | &1 O | 2"),
    ("'a | &'a O ; &'a O | & O", "ElisionAmbiguous"),
    ("'a | &'a A<'a> | &'a O", "&0 A<0> | &0 O | 1"),
    ("'a:'b 'b:'a | &'b O | Box A<'a>", "&1 O | Box A<0> | 2"),
    (" | & O | & O", "&0 O | &0 O | 1"),
    (" | & O ; & O | ", "&0 O; &1 O | | 2"),
    (" | & O ; & O | & O", "ElisionAmbiguous"),
    (" | | & O", "ElisionNoSource"),
    (" | A | & O", "A<0> | &0 O | 1"),
    (" | & A | & O", "ElisionAmbiguous"),
    ("'a | A<'a> | & O", "A<0> | &0 O | 1"),
    ("'a | &'a A<'a> | & O", "ElisionAmbiguous"),
    ("'a | &'a O | &'_ O", "&0 O | &0 O | 1"),
    ("'a | & O | B<'a>", "&1 O | B<0,1> | 2"),
    (" | & O | B", "&0 O | B<0,0> | 1"),
    (" | & O | X", "&0 O | X<0> | 1"),
    (
        " | & O | Result B<'static> & A",
        "&0 O | Result B<s,0> &0 A<0> | 1",
    ),
    (" | &'static O | & O", "&s O | &s O | 0"),
    (" | &'static O ; &'static O | & O", "ElisionAmbiguous"),
    (
        " | &'static O ; & O ; & O | &'static O",
        "&s O; &0 O; &1 O | &s O | 2",
    ),
];

/// What stands in what.
pub const LAYERS: [(&str, &str); 14] = [
    ("'a | B<'a> | ", "B<0,1> | | 2"),
    (" | Option B | ", "Option B<0,1> | | 2"),
    (
        " | Option & O | Option & O",
        "Option &0 O | Option &0 O | 1",
    ),
    (" | Box A | & O", "Box A<0> | &0 O | 1"),
    (" | Result & O & A | ", "Result &0 O &1 A<2> | | 3"),
    (" | E ; & E | & E", "E; &0 E | &0 E | 1"),
    (
        " | Ordering ; u8 ; () | Ordering",
        "Ordering; u8; () | Ordering | 0",
    ),
    ("'a | &mut O | &mut O", "&mut1 O | &mut1 O | 2"),
    (" | & O ; &mut Write | ", "&0 O | | 1"),
    (" | impl:T | & O", "impl:T<0> | &0 O | 1"),
    (" | impl:T<'static> | & O", "impl:T<s> | &s O | 0"),
    (" | impl:T ; & O | & O", "ElisionAmbiguous"),
    ("'a | impl:T<'a> ; & O | ", "impl:T<0>; &1 O | | 2"),
    (" | B<'static> ; B | ", "B<s,0>; B<1,2> | | 3"),
];

/// Slices, whose borrow comes before their element.
pub const SLICES: [(&str, &str); 11] = [
    (" | []& u8 | []& u8", "[]&0 u8 | []&0 u8 | 1"),
    (" | []& & O | ", "[]&0 &1 O | | 2"),
    (" | []& & A ; & O | ", "[]&0 &1 A<2>; &3 O | | 4"),
    (
        "'a | []&'a &'a O | []&'a &'a O",
        "[]&0 &0 O | []&0 &0 O | 1",
    ),
    (" | []& & O | & O", "ElisionAmbiguous"),
    (" | [] & O | & O", "[] &0 O | &0 O | 1"),
    (" | []&'static & O | ", "[]&s &0 O | | 1"),
    (
        " | []& A | []&'static B<'static,'static>",
        "[]&0 A<1> | []&s B<s,s> | 2",
    ),
    (" | []& str | & O", "ElisionNoSource"),
    (" | & str | & str", "&0 str | &0 str | 1"),
    (" | str ; [] u8 | & str", "ElisionNoSource"),
];

/// Callbacks, whose parameters come before their return; nothing in them is elided.
pub const CALLBACKS: [(&str, &str); 11] = [
    (" | Fn1 & O & O | ", "Fn1 &0 O &1 O | | 2"),
    (
        " | Fn2 & O & A & O ; & O | ",
        "Fn2 &0 O &1 A<2> &3 O; &4 O | | 5",
    ),
    (" | Fn0 & O | & O", "Fn0 &0 O | &0 O | 1"),
    (" | Fn1 & O () | & O", "Fn1 &0 O () | &0 O | 1"),
    (" | Fn1 & O & O | & O", "ElisionAmbiguous"),
    (" | Fn1 & O () ; & O | & O", "ElisionAmbiguous"),
    (" | Fn1 Fn1 & O & O & O | ", "Fn1 Fn1 &0 O &1 O &2 O | | 3"),
    (
        " | Fn2 & O Fn1 & A & O Fn0 & O | ",
        "Fn2 &0 O Fn1 &1 A<2> &3 O Fn0 &4 O | | 5",
    ),
    ("'a | Fn1 &'a O A<'a> ; & O | ", "Fn1 &0 O A<0>; &1 O | | 2"),
    ("'a | Fn1 &'a O () | & O", "Fn1 &0 O () | &0 O | 1"),
    (" | Fn1 []& & O B<'static> | ", "Fn1 []&0 &1 O B<s,2> | | 3"),
];

/// What the tests would have told first.
pub const FAULTY: [(&str, &str); 6] = [
    (" | Q | ", "UnresolvedPath"),
    (" | & O | & Q", "UnresolvedPath"),
    (" | & A<'static,'static> | ", "LifetimeArity"),
    (" | impl:O | ", "UnresolvedPath"),
    ("'a | &'b O | ", "LifetimeUnknown"),
    (" | &'b Q | & O", "LifetimeUnknown"),
];

/// A name that is no identifier.
const BAD_IDENTS: [(&str, &str); 1] = [("'2 | & O | & O", "BadIdent")];

#[test]
fn borrows(rt: HostRuntime) -> Result<(), NoMemory> {
    compare(&rt, rt.alloc(), Call::NumberFunction, &BORROWS)
}

#[test]
fn layers(rt: HostRuntime) -> Result<(), NoMemory> {
    compare(&rt, rt.alloc(), Call::NumberFunction, &LAYERS)
}

#[test]
fn slices(rt: HostRuntime) -> Result<(), NoMemory> {
    compare(&rt, rt.alloc(), Call::NumberFunction, &SLICES)
}

#[test]
fn callbacks(rt: HostRuntime) -> Result<(), NoMemory> {
    compare(&rt, rt.alloc(), Call::NumberFunction, &CALLBACKS)
}

#[test]
fn faulty(rt: HostRuntime) -> Result<(), NoMemory> {
    compare(&rt, rt.alloc(), Call::NumberFunction, &FAULTY)?;
    compare(&rt, rt.alloc(), Call::NumberFunction, &BAD_IDENTS)
}
