//! Methods of traits, in which nothing is elided, and fields, whose lifetimes all have names.

use super::answers::Call;
use super::compare;
use bridge_decl::NoMemory;

/// Lifetimes, the trait, the receiver, the parameters and the return; and then the same with numbers, and the count of all.
pub const TRAIT_METHODS: [(&str, &str); 12] = [
    (" | R | & | | ", "&0 R<1> | | | 2"),
    (" | R | & | & O | & O", "&0 R<1> | &2 O | &3 O | 4"),
    ("'a | R<'a> | & | & O | & O", "&1 R<0> | &2 O | &3 O | 4"),
    (" | R | | | & O", "| | &0 O | 1"),
    (" | R | self | A | A", "R<0> | A<1> | A<2> | 3"),
    (" | R | &'static | | B", "&s R<0> | | B<1,2> | 3"),
    (
        "'a | R<'a> | &'a | &'a O | &'a O",
        "&0 R<0> | &0 O | &0 O | 1",
    ),
    (" | R | & | Fn1 & O & O | ", "&0 R<1> | Fn1 &2 O &3 O | | 4"),
    (
        " | R | &mut | & O ; & O | Result & O & O",
        "&mut0 R<1> | &2 O; &3 O | Result &4 O &5 O | 6",
    ),
    (
        " | R | self | []& & O | Option & A",
        "R<0> | []&1 &2 O | Option &3 A<4> | 5",
    ),
    (
        "'a | R<'a> | & | B<'a> | B<'a>",
        "&1 R<0> | B<0,2> | B<0,3> | 4",
    ),
    (" | R | & | & Q | ", "UnresolvedPath"),
];

/// Lifetimes and the fields; and then the fields with numbers.
pub const FIELDS: [(&str, &str); 7] = [
    ("'a | &'a O", "&0 O"),
    (
        "'a 'b | &'b O ; B<'b,'a> ; []&'a u8 ; &'a str",
        "&1 O; B<1,0>; []&0 u8; &0 str",
    ),
    (
        "'a 'b:'a | []&'b &'a O ; Option &'b O",
        "[]&1 &0 O; Option &1 O",
    ),
    (" | u8 ; E ; Ordering", "u8; E; Ordering"),
    ("'a | &'static O ; A<'static>", "&s O; A<s>"),
    ("'a | Self:S<'a>", "Self:S<0>"),
    (
        "'a 'b | Self:S<'a,'b> ; Self:S<'b,'a>",
        "Self:S<0,1>; Self:S<1,0>",
    ),
];

/// Lifetimes and the fields; and then the fault.
pub const FAULTY_FIELDS: [(&str, &str); 8] = [
    ("'a | & O", "AnonymousInDefinition"),
    ("'a | A", "AnonymousInDefinition"),
    ("'a | A<'a> ; B<'a>", "AnonymousInDefinition"),
    ("'a | Option A<'a> ; Option &'_ O", "AnonymousInDefinition"),
    ("'a | &'c & O", "LifetimeUnknown"),
    ("'a | & &'c O", "AnonymousInDefinition"),
    ("'a | Q", "UnresolvedPath"),
    (" | E<'static>", "LifetimeArity"),
];

#[test]
fn trait_methods(rt: HostRuntime) -> Result<(), NoMemory> {
    compare(&rt, rt.alloc(), Call::NumberTraitMethod, &TRAIT_METHODS)
}

#[test]
fn fields(rt: HostRuntime) -> Result<(), NoMemory> {
    compare(&rt, rt.alloc(), Call::NumberFields, &FIELDS)?;
    compare(&rt, rt.alloc(), Call::NumberFields, &FAULTY_FIELDS)
}
