//! Callbacks, as parameters.

use super::notation::parse;
use super::rows::words;
use super::{backend, catalog};
use bridge_decl::{Boxed, Items, Mutability, NoMemory};
use bridge_grid::test_param;
use hir_config::LoweringConfig;
use hir_number::NumberedType;
use std::alloc::Global;
use std::process::Abort;

/// What a callback takes and returns, and what it breaks where callbacks may take no references, and where they may.
const ROWS: [(&str, &str, &str, &str); 20] = [
    ("u8", "()", "ok", "ok"),
    ("&'a O", "()", "CallbackReference", "ok"),
    ("&'static O", "()", "ok", "ok"),
    ("&'a str", "()", "ok", "ok"),
    ("&'a [S]", "&'a O", "ok", "ok"),
    ("S<'a>", "()", "CallbackReference", "ok"),
    ("S<'static>", "()", "ok", "ok"),
    ("&'a [S<'a>]", "()", "ok", "ok"),
    ("Option<&'a O>", "()", "CallbackReference", "ok"),
    (
        "Option<&'a str>",
        "()",
        "OptionShape+CallbackReference",
        "OptionShape",
    ),
    (
        "&'a S",
        "()",
        "ReferenceTarget+CallbackReference",
        "ReferenceTarget",
    ),
    ("T", "T", "OutStructInput", "OutStructInput"),
    (
        "Ordering",
        "Ordering",
        "OrderingMisplaced",
        "OrderingMisplaced",
    ),
    ("()", "()", "UnitMisplaced", "UnitMisplaced"),
    ("impl Tr", "impl Tr", "TraitMisplaced", "TraitMisplaced"),
    ("impl Fn()", "()", "FunctionMisplaced", "FunctionMisplaced"),
    (
        "O",
        "&'a S",
        "OpaqueByValue+CallbackReturnShape",
        "OpaqueByValue+CallbackReturnShape",
    ),
    (
        "Z",
        "Option<T>",
        "ZeroSize+OutStructInput",
        "ZeroSize+OutStructInput",
    ),
    ("Box<O>", "Result<(), ()>", "ok", "ok"),
    ("&'a [&'a O]", "()", "OpaqueSliceShape", "OpaqueSliceShape"),
];

fn callback(alloc: Global, input: &str, output: &str) -> Result<NumberedType, NoMemory> {
    let mut inputs = Items::new(alloc);
    inputs.push(NumberedType::Unit)?;
    inputs.push(parse(alloc, input)?)?;
    let output = Boxed::new(alloc, parse(alloc, output)?)?;
    Ok(NumberedType::Function(inputs, output, Mutability::Mutable))
}

/// What a callback breaks, after the `()` of its first parameter.
fn told(
    alloc: Global,
    is_able: bool,
    unsafe_references_in_callbacks: bool,
    ty: &NumberedType,
) -> Result<String, NoMemory> {
    let config = LoweringConfig {
        unsafe_references_in_callbacks,
    };
    let support = backend(is_able);
    let catalog = catalog(alloc)?;
    words(alloc, &test_param(alloc, &support, config, &catalog, ty)?)
}

/// What is told after the `()` of the first parameter.
fn after_unit(text: &str) -> &str {
    text.strip_prefix("UnitMisplaced+").unwrap_or("ok")
}

/// Compares what a callback breaks where the backend takes it, with references or without.
fn compare_told(
    rt: &impl Abort,
    alloc: Global,
    ty: &NumberedType,
    with_references: bool,
    wanted: &str,
    (input, output): (&str, &str),
) -> Result<(), NoMemory> {
    let got = told(alloc, true, with_references, ty)?;
    assert_eq!(rt; after_unit(got.as_str()), wanted, "of {input} and {output}");
    Ok(())
}

fn compare_row(
    rt: &impl Abort,
    alloc: Global,
    (input, output, without, with_references): &(&str, &str, &str, &str),
) -> Result<(), NoMemory> {
    let ty = callback(alloc, input, output)?;
    compare_told(rt, alloc, &ty, false, without, (*input, *output))?;
    compare_told(rt, alloc, &ty, true, with_references, (*input, *output))?;
    assert!(rt; told(alloc, false, false, &ty)?.as_str() == "callbacks");
    Ok(())
}

#[test]
fn callbacks(rt: HostRuntime) -> Result<(), NoMemory> {
    for row in &ROWS {
        compare_row(&rt, rt.alloc(), row)?;
    }
    Ok(())
}
