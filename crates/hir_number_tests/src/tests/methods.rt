//! Methods: lifetimes, `Self`, the receiver, the parameters and the return; and then the same with numbers, and the count of
//! all lifetimes, or the fault.

use super::answers::Call;
use super::compare;
use bridge_decl::NoMemory;

/// `Self` is first in the receiver.
pub const SELF_IN_RECEIVERS: [(&str, &str); 15] = [
    (" | O | & | | ", "&0 O | | | 1"),
    (" | O | self | | ", "O | | | 0"),
    (" | S | & | | ", "&0 S<1> | | | 2"),
    ("'a | S<'a> | & | & O | ", "&1 S<0> | &2 O | | 3"),
    ("'a | S<'a> | &'a | | & O", "&0 S<0> | | &0 O | 1"),
    (" | S | & | | Self", "&0 S<1> | | Self:S<1> | 2"),
    (
        " | S | & | Self | Self",
        "&0 S<1> | Self:S<1> | Self:S<1> | 2",
    ),
    (" | S | & | S | S", "&0 S<1> | S<2> | S<0> | 3"),
    (" | B | & | | B", "&0 B<1,2> | | B<0,0> | 3"),
    (" | B | & | | Self", "&0 B<1,2> | | Self:B<1,2> | 3"),
    (
        "'a | B<'a> | & | Self | Box Self",
        "&1 B<0,2> | Self:B<0,2> | Box Self:B<0,2> | 3",
    ),
    (
        "'a 'b | B<'b,'a> | &'static | & Self | & Self",
        "&s B<1,0> | &2 Self:B<1,0> | &s Self:B<1,0> | 3",
    ),
    (" | A | &mut | | & O", "&mut0 A<1> | | &0 O | 2"),
    (" | O | & | & A | ", "&0 O | &1 A<2> | | 3"),
    (
        "'a 'b:'a | O | &'a | &'_ O | &'a O",
        "&0 O | &2 O | &0 O | 3",
    ),
];

/// The receiver isn't borrowed, so that a return borrows from the parameters; its generics don't count.
pub const OWNED_RECEIVERS: [(&str, &str); 8] = [
    ("'a | S<'a> | self | | & str", "ElisionNoSource"),
    (" | S | self | & O | & O", "S<0> | &1 O | &1 O | 2"),
    (
        " | S | self | Self ; & O | & O",
        "S<0> | Self:S<0>; &1 O | &1 O | 2",
    ),
    (" | S | self | S | & O", "S<0> | S<1> | &1 O | 2"),
    (" | S | self | B | & O", "ElisionAmbiguous"),
    (
        " | S | self | & Self | & O",
        "S<0> | &1 Self:S<0> | &1 O | 2",
    ),
    (" | O | self | S<'static> | & O", "O | S<s> | &s O | 0"),
    (" | S<'static> | self | Self | & O", "ElisionNoSource"),
];

/// There is no receiver, and `Self` is first in a parameter.
pub const SELF_IN_PARAMETERS: [(&str, &str); 9] = [
    ("'a | A<'a> | | & Self | & O", "| &1 Self:A<0> | &1 O | 2"),
    (" | A | | & Self | & O", "| &0 Self:A<1> | &0 O | 2"),
    (
        " | A | | & Self ; & Self | Self",
        "| &0 Self:A<1>; &2 Self:A<1> | Self:A<1> | 3",
    ),
    (" | A | | & Self ; & Self | & Self", "ElisionAmbiguous"),
    (
        " | B | | Self ; & O | & Self",
        "| Self:B<0,1>; &2 O | &2 Self:B<0,1> | 3",
    ),
    (" | S | | S ; & Self | & O", "ElisionAmbiguous"),
    (" | S | | S ; Self | & O", "| S<0>; Self:S<1> | &0 O | 2"),
    (
        " | S | | Fn1 Self & Self | ",
        "| Fn1 Self:S<0> &1 Self:S<0> | | 2",
    ),
    (" | O | | &'static O | & O", "| &s O | &s O | 0"),
];

/// There is no receiver, and `Self` is first in the return.
pub const SELF_IN_RETURNS: [(&str, &str); 7] = [
    ("'a | A<'a> | | | & O", "ElisionNoSource"),
    (" | S | | | Self", "| | Self:S<0> | 1"),
    (" | S | | & O | Self", "| &0 O | Self:S<1> | 2"),
    (" | S | | & O | & Self", "| &0 O | &0 Self:S<1> | 2"),
    (
        " | B | | & O | Result Box Self Self",
        "| &0 O | Result Box Self:B<1,2> Self:B<1,2> | 3",
    ),
    ("'a | B<'a> | | | Option Self", "| | Option Self:B<0,1> | 2"),
    (" | S | | | & Self", "ElisionNoSource"),
];

/// The trailing writer is no parameter.
pub const WRITERS: [(&str, &str); 3] = [
    (" | O | & | & O ; &mut Write | ", "&0 O | &1 O | | 2"),
    (
        " | O | & | &mut Write ; & O | ",
        "&0 O | &mut1 Write; &2 O | | 3",
    ),
    (" | O | & | & Write | ", "&0 O | &1 Write | | 2"),
];

/// What the tests would have told first.
pub const FAULTY: [(&str, &str); 5] = [
    (" | O | & | Q | ", "UnresolvedPath"),
    (" | O | & | & S<'static,'static> | ", "LifetimeArity"),
    (" | O | & | E<'static> | ", "LifetimeArity"),
    (" | O | & | &'c O | ", "LifetimeUnknown"),
    (" | O | & | | &'c O", "LifetimeUnknown"),
];

/// A name that is no identifier.
const BAD_IDENTS: [(&str, &str); 1] = [("'1 | O | & | | ", "BadIdent")];

#[test]
fn self_in_receivers(rt: HostRuntime) -> Result<(), NoMemory> {
    compare(&rt, rt.alloc(), Call::NumberMethod, &SELF_IN_RECEIVERS)
}

#[test]
fn owned_receivers(rt: HostRuntime) -> Result<(), NoMemory> {
    compare(&rt, rt.alloc(), Call::NumberMethod, &OWNED_RECEIVERS)
}

#[test]
fn self_in_parameters(rt: HostRuntime) -> Result<(), NoMemory> {
    compare(&rt, rt.alloc(), Call::NumberMethod, &SELF_IN_PARAMETERS)
}

#[test]
fn self_in_returns(rt: HostRuntime) -> Result<(), NoMemory> {
    compare(&rt, rt.alloc(), Call::NumberMethod, &SELF_IN_RETURNS)
}

#[test]
fn writers(rt: HostRuntime) -> Result<(), NoMemory> {
    compare(&rt, rt.alloc(), Call::NumberMethod, &WRITERS)
}

#[test]
fn faulty(rt: HostRuntime) -> Result<(), NoMemory> {
    compare(&rt, rt.alloc(), Call::NumberMethod, &FAULTY)?;
    compare(&rt, rt.alloc(), Call::NumberMethod, &BAD_IDENTS)
}
