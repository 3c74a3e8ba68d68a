//! The table of positions, row by row: a type, what it breaks at each position where the backend has no feature, and where it has all.
//!
//! The positions are a field of a struct, a parameter, what a callback returns, a parameter of a callback, a field of an out-struct,
//! and a return.

use super::rows::row_of;
use bridge_decl::NoMemory;
use std::alloc::Global;
use std::process::Abort;

/// Types by themselves.
const VALUES: [(&str, &str, &str); 15] = [
    ("u8", "ok*6", "ok*6"),
    ("E", "ok*6", "ok*6"),
    ("S", "ok*6", "ok*6"),
    ("Self", "ok*6", "ok*6"),
    (
        "Ordering",
        "OrderingMisplaced*3 ok OrderingMisplaced ok",
        "OrderingMisplaced*3 ok OrderingMisplaced ok",
    ),
    ("Z", "ZeroSize*6", "ZeroSize*6"),
    ("Y", "ZeroSize*6", "ZeroSize*6"),
    ("T", "OutStructInput*3 ok*3", "OutStructInput*3 ok*3"),
    ("O", "OpaqueByValue*6", "OpaqueByValue*6"),
    ("M", "OpaqueByValue*6", "OpaqueByValue*6"),
    (
        "impl Tr",
        "TraitMisplaced traits*2 TraitMisplaced*3",
        "TraitMisplaced ok*2 TraitMisplaced*3",
    ),
    (
        "impl Fn()",
        "FunctionMisplaced callbacks FunctionMisplaced*4",
        "FunctionMisplaced ok FunctionMisplaced*4",
    ),
    ("Write", "WriteMisplaced*6", "WriteMisplaced*6"),
    (
        "()",
        "UnitMisplaced*2 ok UnitMisplaced*2 ok",
        "UnitMisplaced*2 ok UnitMisplaced*2 ok",
    ),
    (
        "Result<(), ()>",
        "ResultMisplaced*2 ok ResultMisplaced*2 ok",
        "ResultMisplaced*2 ok ResultMisplaced*2 ok",
    ),
];

/// References and boxes.
const POINTERS: [(&str, &str, &str); 25] = [
    ("&'a O", "ok*6", "ok*6"),
    ("&'static O", "ok*6", "ok*6"),
    (
        "&'a mut O",
        "MutOpaqueUnmarked*3 ok*3",
        "MutOpaqueUnmarked*3 ok*3",
    ),
    ("&'a mut M", "ok*6", "ok*6"),
    (
        "&'a S",
        "struct_refs*2 CallbackReturnShape ReferenceTarget*3",
        "ok*2 CallbackReturnShape ReferenceTarget*3",
    ),
    (
        "&'a Z",
        "struct_refs*2 CallbackReturnShape ReferenceTarget*3",
        "ok*2 CallbackReturnShape ReferenceTarget*3",
    ),
    (
        "&'a Self",
        "struct_refs*2 CallbackReturnShape ReferenceTarget*3",
        "ok*2 CallbackReturnShape ReferenceTarget*3",
    ),
    (
        "&'a mut S",
        "mut_struct_refs*2 CallbackReturnShape ReferenceTarget*3",
        "ok*2 CallbackReturnShape ReferenceTarget*3",
    ),
    (
        "&'a T",
        "OutStructInput*2 CallbackReturnShape ReferenceTarget*3",
        "OutStructInput*2 CallbackReturnShape ReferenceTarget*3",
    ),
    (
        "&'a mut T",
        "OutStructInput*2 CallbackReturnShape ReferenceTarget*3",
        "OutStructInput*2 CallbackReturnShape ReferenceTarget*3",
    ),
    (
        "&'a Y",
        "OutStructInput*2 CallbackReturnShape ReferenceTarget*3",
        "OutStructInput*2 CallbackReturnShape ReferenceTarget*3",
    ),
    ("&'a E", "ReferenceTarget*6", "ReferenceTarget*6"),
    ("&'a u8", "ReferenceTarget*6", "ReferenceTarget*6"),
    ("&'a Ordering", "ReferenceTarget*6", "ReferenceTarget*6"),
    ("&'a &'a O", "ReferenceTarget*6", "ReferenceTarget*6"),
    ("&'a Box<O>", "ReferenceTarget*6", "ReferenceTarget*6"),
    ("&'a impl Tr", "ReferenceTarget*6", "ReferenceTarget*6"),
    ("&'a mut Write", "ReferenceTarget*6", "ReferenceTarget*6"),
    ("Box<O>", "BoxMisplaced*3 ok*3", "BoxMisplaced*3 ok*3"),
    ("Box<M>", "BoxMisplaced*3 ok*3", "BoxMisplaced*3 ok*3"),
    ("Box<S>", "BoxMisplaced*6", "BoxMisplaced*6"),
    ("Box<T>", "BoxMisplaced*6", "BoxMisplaced*6"),
    ("Box<E>", "BoxMisplaced*6", "BoxMisplaced*6"),
    ("Box<u8>", "BoxMisplaced*6", "BoxMisplaced*6"),
    ("Box<&'a O>", "BoxMisplaced*6", "BoxMisplaced*6"),
];

/// Options of references, boxes and opaques.
const OPTIONS_OF_POINTERS: [(&str, &str, &str); 16] = [
    ("Option<&'a O>", "ok*6", "ok*6"),
    ("Option<&'a mut O>", "ok*6", "ok*6"),
    ("Option<&'static M>", "ok*6", "ok*6"),
    (
        "DiplomatOption<&'a O>",
        "DiplomatOptionOpaque*6",
        "DiplomatOptionOpaque*6",
    ),
    (
        "DiplomatOption<&'a mut O>",
        "DiplomatOptionOpaque*6",
        "DiplomatOptionOpaque*6",
    ),
    ("Option<Box<O>>", "OptionShape*3 ok*3", "OptionShape*3 ok*3"),
    (
        "DiplomatOption<Box<O>>",
        "OptionShape*2 DiplomatOptionOpaque*4",
        "OptionShape*2 DiplomatOptionOpaque*4",
    ),
    ("Option<&'a S>", "OptionShape*6", "OptionShape*6"),
    ("DiplomatOption<&'a S>", "OptionShape*6", "OptionShape*6"),
    ("Option<&'a u8>", "OptionShape*6", "OptionShape*6"),
    ("Option<Box<S>>", "OptionShape*6", "OptionShape*6"),
    ("DiplomatOption<Box<u8>>", "OptionShape*6", "OptionShape*6"),
    ("Option<&'a &'a O>", "OptionShape*6", "OptionShape*6"),
    ("Option<O>", "OpaqueByValue*6", "OpaqueByValue*6"),
    ("DiplomatOption<O>", "OpaqueByValue*6", "OpaqueByValue*6"),
    ("Option<M>", "OpaqueByValue*6", "OpaqueByValue*6"),
];

/// Options of values and slices.
const OPTIONS: [(&str, &str, &str); 21] = [
    (
        "Option<u8>",
        "StdOptionPlace+option option ok option StdOptionPlace+option ok",
        "StdOptionPlace ok*3 StdOptionPlace ok",
    ),
    ("DiplomatOption<u8>", "option*2 ok option*2 ok", "ok*6"),
    (
        "Option<S>",
        "StdOptionPlace+option option ok option StdOptionPlace+option ok",
        "StdOptionPlace ok*3 StdOptionPlace ok",
    ),
    ("DiplomatOption<S>", "option*2 ok option*2 ok", "ok*6"),
    (
        "Option<E>",
        "StdOptionPlace+option option ok option StdOptionPlace+option ok",
        "StdOptionPlace ok*3 StdOptionPlace ok",
    ),
    ("DiplomatOption<E>", "option*2 ok option*2 ok", "ok*6"),
    (
        "Option<Self>",
        "StdOptionPlace+option option ok option StdOptionPlace+option ok",
        "StdOptionPlace ok*3 StdOptionPlace ok",
    ),
    ("DiplomatOption<Self>", "option*2 ok option*2 ok", "ok*6"),
    (
        "Option<Z>",
        "StdOptionPlace+option option ZeroSize option StdOptionPlace+option ok",
        "StdOptionPlace ZeroSize*2 ok StdOptionPlace ok",
    ),
    (
        "DiplomatOption<Z>",
        "option*2 ZeroSize option*2 ok",
        "ZeroSize*3 ok*3",
    ),
    (
        "DiplomatOption<Y>",
        "option*2 ZeroSize option*2 ok",
        "ZeroSize*3 ok*3",
    ),
    (
        "DiplomatOption<T>",
        "option*2 OutStructInput option*2 ok",
        "OutStructInput*3 ok*3",
    ),
    (
        "Option<&'a [DiplomatStrSlice]>",
        "ok*3 OptionShape*2 StrsOutput",
        "ok*3 OptionShape*2 StrsOutput",
    ),
    (
        "DiplomatOption<&'a [DiplomatStrSlice]>",
        "ok*3 OptionShape*2 StrsOutput",
        "ok*3 OptionShape*2 StrsOutput",
    ),
    (
        "Option<&'a str>",
        "ok*3 OptionShape*2 ok",
        "ok*3 OptionShape*2 ok",
    ),
    (
        "DiplomatOption<&'a [u8]>",
        "ok*3 OptionShape*2 ok",
        "ok*3 OptionShape*2 ok",
    ),
    (
        "Option<&'static str>",
        "static_slices*3 OptionShape*2 ok",
        "ok*3 OptionShape*2 ok",
    ),
    (
        "Option<&'a mut [u8]>",
        "mutable_slices*3 OptionShape*2 mutable_slices",
        "ok*3 OptionShape*2 ok",
    ),
    (
        "Option<Box<str>>",
        "owned_slices*2 OwnedSliceMisplaced OptionShape*2 OwnedSliceMisplaced",
        "ok*2 OwnedSliceMisplaced OptionShape*2 OwnedSliceMisplaced",
    ),
    (
        "Option<Box<[u8]>>",
        "owned_slices*2 OwnedSliceMisplaced OptionShape*2 owned_byte_slice_returns",
        "ok*2 OwnedSliceMisplaced OptionShape*2 ok",
    ),
    (
        "Option<Box<[i32]>>",
        "owned_slices*2 OwnedSliceMisplaced OptionShape*2 OwnedSliceMisplaced",
        "ok*2 OwnedSliceMisplaced OptionShape*2 OwnedSliceMisplaced",
    ),
];

/// Options that stand only at the top of a return.
const OTHER_OPTIONS: [(&str, &str, &str); 13] = [
    (
        "Option<Ordering>",
        "OptionShape*2 OrderingMisplaced OptionShape*2 ok",
        "OptionShape*2 OrderingMisplaced OptionShape*2 ok",
    ),
    (
        "Option<impl Tr>",
        "OptionShape*2 traits OptionShape*2 TraitMisplaced",
        "OptionShape*2 ok OptionShape*2 TraitMisplaced",
    ),
    (
        "Option<Option<u8>>",
        "OptionShape*2 option OptionShape*2 option",
        "OptionShape*2 ok OptionShape*2 ok",
    ),
    (
        "Option<()>",
        "OptionShape*2 ok OptionShape*2 ok",
        "OptionShape*2 ok OptionShape*2 ok",
    ),
    (
        "Option<Write>",
        "OptionShape*2 WriteMisplaced OptionShape*2 WriteMisplaced",
        "OptionShape*2 WriteMisplaced OptionShape*2 WriteMisplaced",
    ),
    (
        "Option<Result<(), ()>>",
        "OptionShape*2 ResultMisplaced OptionShape*2 ResultMisplaced",
        "OptionShape*2 ResultMisplaced OptionShape*2 ResultMisplaced",
    ),
    (
        "Option<impl Fn()>",
        "OptionShape*2 FunctionMisplaced OptionShape*2 FunctionMisplaced",
        "OptionShape*2 FunctionMisplaced OptionShape*2 FunctionMisplaced",
    ),
    (
        "Option<&'a [S]>",
        "OptionShape*2 ok OptionShape*2 ok",
        "OptionShape*2 ok OptionShape*2 ok",
    ),
    (
        "Option<&'a [Z]>",
        "OptionShape*2 ZeroSize OptionShape*2 ok",
        "OptionShape*2 ZeroSize OptionShape*2 ok",
    ),
    (
        "Option<&'a [T]>",
        "OptionShape*2 OutStructInput OptionShape*2 ok",
        "OptionShape*2 OutStructInput OptionShape*2 ok",
    ),
    (
        "Option<&'a [&'a O]>",
        "OptionShape*2 opaque_slices OptionShape*2 OpaqueSliceShape",
        "OptionShape*2 ok OptionShape*2 OpaqueSliceShape",
    ),
    (
        "Option<Option<Box<O>>>",
        "OptionShape*5 ok",
        "OptionShape*5 ok",
    ),
    (
        "Option<DiplomatOption<Box<O>>>",
        "OptionShape*5 DiplomatOptionOpaque",
        "OptionShape*5 DiplomatOptionOpaque",
    ),
];

/// Slices.
const SLICES: [(&str, &str, &str); 33] = [
    ("&'a str", "ok*6", "ok*6"),
    ("&'static str", "static_slices*3 ok*3", "ok*6"),
    ("&'a [u8]", "ok*6", "ok*6"),
    ("&'static [u8]", "static_slices*3 ok*3", "ok*6"),
    ("&'a mut [u8]", "mutable_slices*6", "ok*6"),
    (
        "&'static mut [u8]",
        "static_slices+mutable_slices*3 mutable_slices*3",
        "ok*6",
    ),
    (
        "Box<str>",
        "owned_slices*2 OwnedSliceMisplaced*4",
        "ok*2 OwnedSliceMisplaced*4",
    ),
    (
        "Box<[u8]>",
        "owned_slices*2 OwnedSliceMisplaced*3 owned_byte_slice_returns",
        "ok*2 OwnedSliceMisplaced*3 ok",
    ),
    (
        "Box<[byte]>",
        "owned_slices*2 OwnedSliceMisplaced*3 owned_byte_slice_returns",
        "ok*2 OwnedSliceMisplaced*3 ok",
    ),
    (
        "Box<[i32]>",
        "owned_slices*2 OwnedSliceMisplaced*4",
        "ok*2 OwnedSliceMisplaced*4",
    ),
    (
        "&'a [DiplomatStrSlice]",
        "ok*3 StrsOutput*3",
        "ok*3 StrsOutput*3",
    ),
    ("&'a [StrSlice]", "ok*3 StrsOutput*3", "ok*3 StrsOutput*3"),
    ("&'a [S]", "ok*6", "ok*6"),
    ("&'a [E]", "ok*6", "ok*6"),
    ("&'a [Self]", "ok*6", "ok*6"),
    ("Box<[S]>", "ok*6", "ok*6"),
    ("&'static [S]", "static_slices*6", "ok*6"),
    ("&'a mut [E]", "mutable_slices*6", "ok*6"),
    ("&'static mut [S]", "static_slices+mutable_slices*6", "ok*6"),
    ("&'a [Z]", "ZeroSize*6", "ZeroSize*6"),
    ("&'a [T]", "OutStructInput*3 ok*3", "OutStructInput*3 ok*3"),
    ("&'static [T]", "static_slices*6", "OutStructInput*3 ok*3"),
    ("&'a [O]", "OpaqueByValue*6", "OpaqueByValue*6"),
    ("&'a [Ordering]", "SliceElement*6", "SliceElement*6"),
    ("&'a [impl Tr]", "SliceElement*6", "SliceElement*6"),
    ("&'a [&'a S]", "SliceElement*6", "SliceElement*6"),
    ("&'a [Box<O>]", "SliceElement*6", "SliceElement*6"),
    ("&'a [Option<S>]", "SliceElement*6", "SliceElement*6"),
    ("&'a [()]", "SliceElement*6", "SliceElement*6"),
    ("&'a [&'a str]", "SliceElement*6", "SliceElement*6"),
    ("&'a [Option<Box<O>>]", "SliceElement*6", "SliceElement*6"),
    ("&'a [Write]", "SliceElement*6", "SliceElement*6"),
    ("&'a [&'a [u8]]", "SliceElement*6", "SliceElement*6"),
];

/// Slices of references to opaques.
const SLICES_OF_OPAQUES: [(&str, &str, &str); 10] = [
    (
        "&'a [&'a O]",
        "opaque_slices*3 OpaqueSliceShape*3",
        "ok*3 OpaqueSliceShape*3",
    ),
    (
        "Box<[&'a O]>",
        "opaque_slices*3 OpaqueSliceShape*3",
        "ok*3 OpaqueSliceShape*3",
    ),
    (
        "&'a [Option<&'a O>]",
        "opaque_slices*3 OpaqueSliceShape*3",
        "ok*3 OpaqueSliceShape*3",
    ),
    (
        "&'a [&'a mut O]",
        "MutOpaqueUnmarked+OpaqueSliceShape+opaque_slices*3 OpaqueSliceShape*3",
        "MutOpaqueUnmarked+OpaqueSliceShape*3 OpaqueSliceShape*3",
    ),
    (
        "&'a [&'a mut M]",
        "OpaqueSliceShape+opaque_slices*3 OpaqueSliceShape*3",
        "OpaqueSliceShape*6",
    ),
    (
        "&'a [&'static O]",
        "OpaqueSliceShape+opaque_slices*3 OpaqueSliceShape*3",
        "OpaqueSliceShape*6",
    ),
    (
        "&'a [Option<&'a mut O>]",
        "OpaqueSliceShape+opaque_slices*3 OpaqueSliceShape*3",
        "OpaqueSliceShape*6",
    ),
    (
        "&'static [&'a O]",
        "static_slices+OpaqueSliceShape+opaque_slices*3 static_slices+OpaqueSliceShape*3",
        "OpaqueSliceShape*6",
    ),
    (
        "&'a mut [Option<&'a O>]",
        "mutable_slices+OpaqueSliceShape+opaque_slices*3 mutable_slices+OpaqueSliceShape*3",
        "OpaqueSliceShape*6",
    ),
    (
        "&'a [DiplomatOption<&'a O>]",
        "DiplomatOptionOpaque+opaque_slices*3 DiplomatOptionOpaque+OpaqueSliceShape*3",
        "DiplomatOptionOpaque*3 DiplomatOptionOpaque+OpaqueSliceShape*3",
    ),
];

fn compare_row(
    rt: &impl Abort,
    alloc: Global,
    is_able: bool,
    ty: &str,
    wanted: &str,
) -> Result<(), NoMemory> {
    let got = row_of(alloc, is_able, ty)?;
    assert_eq!(rt;
        got.as_str(),
        wanted,
        "of {ty}, with all features: {is_able}"
    );
    Ok(())
}

fn compare(rt: &impl Abort, alloc: Global, rows: &[(&str, &str, &str)]) -> Result<(), NoMemory> {
    for (ty, without, with_all) in rows {
        compare_row(rt, alloc, false, ty, without)?;
        compare_row(rt, alloc, true, ty, with_all)?;
    }
    Ok(())
}

#[test]
fn values(rt: HostRuntime) -> Result<(), NoMemory> {
    compare(&rt, rt.alloc(), &VALUES)
}

#[test]
fn pointers(rt: HostRuntime) -> Result<(), NoMemory> {
    compare(&rt, rt.alloc(), &POINTERS)
}

#[test]
fn options_of_pointers(rt: HostRuntime) -> Result<(), NoMemory> {
    compare(&rt, rt.alloc(), &OPTIONS_OF_POINTERS)
}

#[test]
fn options(rt: HostRuntime) -> Result<(), NoMemory> {
    compare(&rt, rt.alloc(), &OPTIONS)
}

#[test]
fn other_options(rt: HostRuntime) -> Result<(), NoMemory> {
    compare(&rt, rt.alloc(), &OTHER_OPTIONS)
}

#[test]
fn slices(rt: HostRuntime) -> Result<(), NoMemory> {
    compare(&rt, rt.alloc(), &SLICES)
}

#[test]
fn slices_of_opaques(rt: HostRuntime) -> Result<(), NoMemory> {
    compare(&rt, rt.alloc(), &SLICES_OF_OPAQUES)
}
