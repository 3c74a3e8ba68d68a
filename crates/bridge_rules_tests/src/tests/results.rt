//! Results, from callbacks and from methods.

use super::notation::parse;
use super::rows::cells;
use bridge_decl::{Boxed, NoMemory, StdlibOrDiplomat};
use bridge_rules::Position;
use hir_number::NumberedType;
use std::alloc::Global;
use std::process::Abort;

/// The two parts, and what a result of them breaks where a callback and where a method returns it, without and with all features.
const ROWS: [(&str, &str, &str, &str); 26] = [
    ("()", "()", "ok*2", "ok*2"),
    ("S", "E", "ok*2", "ok*2"),
    ("T", "E", "OutStructInput ok", "OutStructInput ok"),
    ("Option<u8>", "()", "StdOptionPlace*2", "StdOptionPlace*2"),
    ("DiplomatOption<u8>", "()", "option*2", "ok*2"),
    ("()", "DiplomatOption<E>", "option*2", "ok*2"),
    ("Option<&'a O>", "()", "ok*2", "ok*2"),
    (
        "DiplomatOption<&'a O>",
        "()",
        "DiplomatOptionOpaque*2",
        "DiplomatOptionOpaque*2",
    ),
    ("Option<Box<O>>", "()", "OptionShape ok", "OptionShape ok"),
    (
        "DiplomatOption<Box<O>>",
        "()",
        "OptionShape DiplomatOptionOpaque",
        "OptionShape DiplomatOptionOpaque",
    ),
    (
        "Box<[u8]>",
        "()",
        "OwnedSliceMisplaced owned_byte_slice_returns",
        "OwnedSliceMisplaced ok",
    ),
    (
        "()",
        "Box<[u8]>",
        "OwnedSliceMisplaced*2",
        "OwnedSliceMisplaced*2",
    ),
    (
        "()",
        "Option<Box<[u8]>>",
        "StdOptionPlace*2",
        "StdOptionPlace*2",
    ),
    (
        "()",
        "DiplomatOption<Box<[u8]>>",
        "OwnedSliceMisplaced OptionShape",
        "OwnedSliceMisplaced OptionShape",
    ),
    ("Z", "()", "ZeroSize ok", "ZeroSize ok"),
    ("()", "Y", "ZeroSize ok", "ZeroSize ok"),
    ("&'a [Z]", "()", "ZeroSize ok", "ZeroSize ok"),
    (
        "Result<(), ()>",
        "()",
        "ResultMisplaced*2",
        "ResultMisplaced*2",
    ),
    ("Option<()>", "()", "StdOptionPlace*2", "StdOptionPlace*2"),
    ("DiplomatOption<()>", "()", "OptionShape*2", "OptionShape*2"),
    (
        "O",
        "O",
        "OpaqueByValue+OpaqueByValue*2",
        "OpaqueByValue+OpaqueByValue*2",
    ),
    (
        "Ordering",
        "T",
        "OrderingMisplaced+OutStructInput ok",
        "OrderingMisplaced+OutStructInput ok",
    ),
    ("Write", "()", "WriteMisplaced*2", "WriteMisplaced*2"),
    (
        "Box<O>",
        "&'a mut O",
        "BoxMisplaced+MutOpaqueUnmarked ok",
        "BoxMisplaced+MutOpaqueUnmarked ok",
    ),
    (
        "impl Tr",
        "()",
        "traits TraitMisplaced",
        "ok TraitMisplaced",
    ),
    (
        "&'a S",
        "()",
        "CallbackReturnShape ReferenceTarget",
        "CallbackReturnShape ReferenceTarget",
    ),
];

fn result_of(alloc: Global, ok: &str, err: &str) -> Result<NumberedType, NoMemory> {
    let ok = Boxed::new(alloc, parse(alloc, ok)?)?;
    let err = Boxed::new(alloc, parse(alloc, err)?)?;
    Ok(NumberedType::Result(ok, err, StdlibOrDiplomat::Stdlib))
}

fn returned(alloc: Global, is_able: bool, ok: &str, err: &str) -> Result<String, NoMemory> {
    let positions = [Position::CallbackReturn, Position::Return];
    cells(alloc, is_able, &positions, &result_of(alloc, ok, err)?)
}

fn compare(
    rt: &impl Abort,
    alloc: Global,
    is_able: bool,
    (ok, err): (&str, &str),
    wanted: &str,
) -> Result<(), NoMemory> {
    let got = returned(alloc, is_able, ok, err)?;
    assert_eq!(rt;
        got.as_str(),
        wanted,
        "of {ok} and {err}, with all features: {is_able}"
    );
    Ok(())
}

#[test]
fn results(rt: HostRuntime) -> Result<(), NoMemory> {
    for (ok, err, without, with_all) in &ROWS {
        compare(&rt, rt.alloc(), false, (*ok, *err), without)?;
        compare(&rt, rt.alloc(), true, (*ok, *err), with_all)?;
    }
    Ok(())
}
