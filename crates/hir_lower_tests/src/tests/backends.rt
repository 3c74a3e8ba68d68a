//! The backend and the settings of an input.

use crate::tests::notation::expand;
use bridge_decl::NoMemory;
use std::alloc::Global;

/// All that a backend may support; `unsafe` is that callbacks may take references, which is no flag.
pub const ALL: &str =
    "unsafe namespacing memory_sharing non_exhaustive_structs method_overloading utf8_strings utf16_strings static_slices defaults constructors named_constructors fallible_constructors accessors static_accessors stringifiers comparators partial_comparators iterators iterables indexing arithmetic option callbacks traits custom_errors traits_are_send traits_are_sync generate_mocking_interface manually_disposable abi_compatibles struct_refs mut_struct_refs free_functions custom_bindings owned_slices default_args mutable_slices tuples opaque_slices owned_byte_slice_returns generic_writeables utf16_writeables";

/// Whether a row has the word, which begins with that sign.
fn has(row: &str, sign: &str, flag: &str) -> bool {
    for word in row.split_whitespace() {
        if word.strip_prefix(sign) == Some(flag) {
            return true;
        }
    }
    false
}

/// Adds a flag to a list.
fn add(text: &mut String, flag: &str) -> Result<(), NoMemory> {
    if flag == "unsafe" {
        return Ok(());
    }
    if !text.as_str().ends_with("[") {
        text.push_str(",")?;
    }
    text.push_str("\"")?;
    text.push_str(flag)?;
    text.push_str("\"")
}

/// Adds the flags that are supported and that a row doesn't deny.
fn add_supported(text: &mut String, supported: &str, row: &str) -> Result<(), NoMemory> {
    for flag in supported.split_whitespace() {
        if !has(row, "-", flag) {
            add(text, flag)?;
        }
    }
    Ok(())
}

/// Adds the flags that a row has besides.
fn add_besides(text: &mut String, row: &str) -> Result<(), NoMemory> {
    for word in row.split_whitespace() {
        if let Some(flag) = word.strip_prefix("+") {
            add(text, flag)?;
        }
    }
    Ok(())
}

/// Whether callbacks may take references.
fn is_unsafe(supported: &str, row: &str) -> bool {
    has(row, "+", "unsafe") || has(supported, "", "unsafe") && !has(row, "-", "unsafe")
}

/// The end of an input whose backend supports that, and what a row says besides.
fn settings(alloc: Global, supported: &str, row: &str) -> Result<String, NoMemory> {
    let mut text = String::new(alloc);
    text.push_str(r#","backend":{"name":"tests","supports":["#)?;
    add_supported(&mut text, supported, row)?;
    add_besides(&mut text, row)?;
    text.push_str("]}")?;
    if is_unsafe(supported, row) {
        text.push_str(r#","config":{"unsafe_references_in_callbacks":true}"#)?;
    }
    text.push_str("}")?;
    Ok(text)
}

/// The input of a row, with declarations that stand before it.
pub fn input(alloc: Global, supported: &str, before: &str, row: &str) -> Result<String, NoMemory> {
    let mut declared = String::new(alloc);
    declared.push_str(before)?;
    declared.push_str(row)?;
    let mut text = expand(alloc, declared.as_str())?;
    text.push_str(settings(alloc, supported, row)?.as_str())?;
    Ok(text)
}
