//! What is wrong with paths and lifetimes by themselves, in order.

use super::answers::Call;
use super::compare;
use bridge_decl::NoMemory;

/// Methods of `S`: lifetimes, `Self`, the receiver, the parameters and the return.
const METHODS: [(&str, &str); 15] = [
    (" | S | & | & O | & O", ""),
    ("'a | S<'a> | &'a | Self ; &'static O | Box Self", ""),
    (
        " | S | & | Q ; & Q | Q",
        "UnresolvedPath Q; UnresolvedPath Q; UnresolvedPath Q",
    ),
    ("'a | S<'a> | &'b | | ", "LifetimeUnknown b"),
    (
        "'a | S<'a> | & | &'c O ; A<'b,'a> | &'d str",
        "LifetimeUnknown c; LifetimeArity A; LifetimeUnknown b; LifetimeUnknown d",
    ),
    ("'a | A<'a> | & | | ", "SelfMismatch"),
    ("'a 'b | S<'a> | & | & Self:S<'b> | ", "SelfMismatch"),
    ("'a | S<'a> | & S | | ", "SelfMismatch"),
    ("'a | S<'a> | & | & Self:A<'a> | Self", "SelfMismatch"),
    ("'a | S<'a> | & | Option Self:S | Self", "SelfMismatch"),
    ("'a | S<'a,'c> | | | ", "LifetimeArity S; LifetimeUnknown c"),
    ("'a | S<'a> | & | T | ", "UnresolvedPath T"),
    ("'a | S<'a> | & | impl:O | ", "UnresolvedPath O"),
    (
        "'a | S<'a> | & | []&'b &'c O | ",
        "LifetimeUnknown b; LifetimeUnknown c",
    ),
    (
        "'a | S<'a> | & | Fn1 &'b O &'c O ; &mut Write | &'d O",
        "LifetimeUnknown b; LifetimeUnknown c; LifetimeUnknown d",
    ),
];

/// Functions: lifetimes, the parameters and the return.
const FUNCTIONS: [(&str, &str); 12] = [
    (" | &'static O ; &'_ O | & O", ""),
    (" | & O ; & O | & O", ""),
    (" | & Q | ", "UnresolvedPath Q"),
    (" | & A<'static,'static> | ", "LifetimeArity A"),
    (" | E<'static> | ", "LifetimeArity E"),
    ("'a | E<'b> | ", "LifetimeArity E; LifetimeUnknown b"),
    (" | impl:T<'static,'static> | ", "LifetimeArity T"),
    (" | impl:E | ", "UnresolvedPath E"),
    (" | f | ", "UnresolvedPath f"),
    (
        " | O | Result A<'c> Q",
        "LifetimeUnknown c; UnresolvedPath Q",
    ),
    (" | & Self:A | ", "SelfMismatch"),
    (
        "'a | &'b O ; Fn1 &'c O A<'d> | B<'a,'e>",
        "LifetimeUnknown b; LifetimeUnknown c; LifetimeUnknown d; LifetimeUnknown e",
    ),
];

/// Methods of the trait `R`: lifetimes, the trait, the receiver, the parameters and the return.
const TRAIT_METHODS: [(&str, &str); 6] = [
    ("'a | R<'a> | & | & O | & O", ""),
    (" | R | | | ", ""),
    (" | T | & | | ", "SelfMismatch"),
    (" | R | & | & Self:O | ", "SelfMismatch"),
    (" | R | & | | Self:O", "SelfMismatch"),
    (
        "'a | R<'b,'a> | &'c | Q | impl:Q",
        "LifetimeUnknown c; LifetimeArity R; LifetimeUnknown b; UnresolvedPath Q; UnresolvedPath Q",
    ),
];

/// Fields: lifetimes and the fields.
const FIELDS: [(&str, &str); 4] = [
    ("'a | &'a O ; A<'a> ; & O", ""),
    ("'a | Self:S<'a> ; Self:A<'a>", ""),
    (
        "'a | &'b O ; Q ; A<'a,'a> ; Self:S<'c>",
        "LifetimeUnknown b; UnresolvedPath Q; LifetimeArity A; LifetimeUnknown c",
    ),
    (
        "'a | Option B<'c,'d> ; []&'e u8",
        "LifetimeUnknown c; LifetimeUnknown d; LifetimeUnknown e",
    ),
];

#[test]
fn methods(rt: HostRuntime) -> Result<(), NoMemory> {
    compare(&rt, rt.alloc(), Call::TestMethod, &METHODS)
}

#[test]
fn functions(rt: HostRuntime) -> Result<(), NoMemory> {
    compare(&rt, rt.alloc(), Call::TestFunction, &FUNCTIONS)
}

#[test]
fn trait_methods(rt: HostRuntime) -> Result<(), NoMemory> {
    compare(&rt, rt.alloc(), Call::TestTraitMethod, &TRAIT_METHODS)
}

#[test]
fn fields(rt: HostRuntime) -> Result<(), NoMemory> {
    compare(&rt, rt.alloc(), Call::TestFields, &FIELDS)
}
