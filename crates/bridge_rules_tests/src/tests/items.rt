//! Receivers, writers, traits, functions, and the types of fields.

use super::notation::parse;
use super::rows::words;
use super::{backend, catalog};
use bridge_ast::ItemPlace;
use bridge_decl::{Mutability, NoMemory, PrimitiveType, WriteType};
use bridge_grid::{is_ffi_safe, test_free_function, test_receiver, test_trait, test_writer};
use hir_life::MaybeStatic;
use std::alloc::Global;
use std::process::Abort;

const SHARED: Option<Mutability> = Some(Mutability::Immutable);

const MUTABLE: Option<Mutability> = Some(Mutability::Mutable);

/// The number of an item, how it is borrowed, and what it breaks as a receiver, without and with all features.
const RECEIVERS: [(usize, Option<Mutability>, &str, &str); 18] = [
    // A struct, and one without fields.
    (0, None, "ok", "ok"),
    (0, SHARED, "struct_refs", "ok"),
    (0, MUTABLE, "mut_struct_refs", "ok"),
    (1, None, "ok", "ok"),
    (1, SHARED, "struct_refs", "ok"),
    // An out-struct, and one without fields.
    (2, None, "OutStructInput", "OutStructInput"),
    (2, SHARED, "OutStructInput", "OutStructInput"),
    (2, MUTABLE, "OutStructInput", "OutStructInput"),
    (3, None, "OutStructInput", "OutStructInput"),
    // An opaque, and one that is marked.
    (4, None, "OpaqueByValue", "OpaqueByValue"),
    (4, SHARED, "ok", "ok"),
    (4, MUTABLE, "MutOpaqueUnmarked", "MutOpaqueUnmarked"),
    (5, None, "OpaqueByValue", "OpaqueByValue"),
    (5, SHARED, "ok", "ok"),
    (5, MUTABLE, "ok", "ok"),
    // An enum.
    (6, None, "ok", "ok"),
    (6, SHARED, "ok", "ok"),
    (6, MUTABLE, "ok", "ok"),
];

fn receiver(
    alloc: Global,
    is_able: bool,
    item: usize,
    mutability: Option<Mutability>,
) -> Result<String, NoMemory> {
    let borrow = match mutability {
        Some(mutability) => Some((MaybeStatic::Static, mutability)),
        None => None,
    };
    let place = ItemPlace { module: 0, item };
    let (support, catalog) = (backend(is_able), catalog(alloc)?);
    words(
        alloc,
        &test_receiver(alloc, &support, &catalog, borrow, place)?,
    )
}

fn compare_receiver(
    rt: &impl Abort,
    alloc: Global,
    is_able: bool,
    (item, borrow): (usize, Option<Mutability>),
    wanted: &str,
) -> Result<(), NoMemory> {
    let got = receiver(alloc, is_able, item, borrow)?;
    assert_eq!(rt;
        got.as_str(),
        wanted,
        "of {item}, with all features: {is_able}"
    );
    Ok(())
}

#[test]
fn receivers(rt: HostRuntime) -> Result<(), NoMemory> {
    for (item, borrow, without, with_all) in &RECEIVERS {
        compare_receiver(&rt, rt.alloc(), false, (*item, *borrow), without)?;
        compare_receiver(&rt, rt.alloc(), true, (*item, *borrow), with_all)?;
    }
    Ok(())
}

const WRITERS: [(WriteType, &str); 3] = [
    (WriteType::Str, "ok"),
    (WriteType::Str16, "utf16_writeables"),
    (
        WriteType::Primitive(PrimitiveType::i32),
        "generic_writeables",
    ),
];

fn writer(alloc: Global, is_able: bool, writer: WriteType) -> Result<String, NoMemory> {
    let support = backend(is_able);
    words(alloc, &test_writer(alloc, &support, writer)?)
}

#[test]
fn writers(rt: HostRuntime) -> Result<(), NoMemory> {
    for (target, without) in WRITERS {
        assert!(rt; writer(rt.alloc(), false, target)?.as_str() == without);
        assert!(rt; writer(rt.alloc(), true, target)?.as_str() == "ok");
    }
    Ok(())
}

/// Whether a trait is `Send`, whether it is `Sync`, and what it lacks.
const TRAITS: [(bool, bool, &str); 4] = [
    (false, false, "ok"),
    (true, false, "traits_are_send"),
    (false, true, "traits_are_sync"),
    (true, true, "traits_are_send+traits_are_sync"),
];

fn trait_(alloc: Global, is_able: bool, is_send: bool, is_sync: bool) -> Result<String, NoMemory> {
    let support = backend(is_able);
    words(alloc, &test_trait(alloc, &support, is_send, is_sync)?)
}

#[test]
fn traits(rt: HostRuntime) -> Result<(), NoMemory> {
    for (is_send, is_sync, without) in TRAITS {
        assert!(rt; trait_(rt.alloc(), false, is_send, is_sync)?.as_str() == without);
        assert!(rt; trait_(rt.alloc(), true, is_send, is_sync)?.as_str() == "ok");
    }
    Ok(())
}

fn free_function(alloc: Global, is_able: bool) -> Result<String, NoMemory> {
    let support = backend(is_able);
    words(alloc, &test_free_function(alloc, &support)?)
}

#[test]
fn free_functions(rt: HostRuntime) -> Result<(), NoMemory> {
    assert!(rt; free_function(rt.alloc(), false)?.as_str() == "free_functions");
    assert!(rt; free_function(rt.alloc(), true)?.as_str() == "ok");
    Ok(())
}

/// Types that a field may have.
const SAFE: [&str; 22] = [
    "u8",
    "S",
    "T",
    "O",
    "E",
    "Self",
    "&'a O",
    "&'a mut S",
    "Box<O>",
    "Box<S>",
    "impl Fn()",
    "impl Tr",
    "&'a DiplomatStr",
    "DiplomatSlice<u8>",
    "DiplomatOwnedSlice<u8>",
    "DiplomatSlice<S>",
    "DiplomatSlice<DiplomatStrSlice>",
    "Option<&'a O>",
    "Option<Box<O>>",
    "Option<&'a u8>",
    "DiplomatOption<u8>",
    "DiplomatOption<S>",
];

/// Types that a field may not have.
const UNSAFE: [&str; 13] = [
    "Ordering",
    "()",
    "Write",
    "Result<(), ()>",
    "&'a str",
    "Box<str>",
    "&'a [u8]",
    "Box<[u8]>",
    "&'a [S]",
    "&'a [StrSlice]",
    "Option<u8>",
    "DiplomatOption<&'a O>",
    "DiplomatOption<Box<O>>",
];

fn compare(rt: &impl Abort, alloc: Global, types: &[&str], is_safe: bool) -> Result<(), NoMemory> {
    for text in types {
        assert_eq!(rt; is_ffi_safe(&parse(alloc, text)?), is_safe, "of {text}");
    }
    Ok(())
}

#[test]
fn types_of_fields(rt: HostRuntime) -> Result<(), NoMemory> {
    compare(&rt, rt.alloc(), &SAFE, true)?;
    compare(&rt, rt.alloc(), &UNSAFE, false)
}
