//! What the definitions of `hir_number` give as functions that run (`hir_number_slow`): for the same rows the numbers that stand in their answers,
//! one list for each use that has any; and the occurrences of lifetimes, with the count of all that have a number.
//!
//! Whether names are identifiers is no matter of numbers, so the rows that answer `BadIdent` aren't among these.

use super::answers::{Call, answer, put_nothing};
use super::compare;
use super::found::{function_in, method_in, struct_in, trait_method_in};
use super::functions::{BORROWS, CALLBACKS, FAULTY as FAULTY_FUNCTIONS, LAYERS, SLICES};
use super::methods::{
    FAULTY as FAULTY_METHODS, OWNED_RECEIVERS, SELF_IN_PARAMETERS, SELF_IN_RECEIVERS,
    SELF_IN_RETURNS, WRITERS,
};
use super::others::{FAULTY_FIELDS, FIELDS, TRAIT_METHODS};
use super::rendered::{put_fault, put_lifetime, put_number};
use bridge_ast::Env;
use bridge_decl::{Items, LifetimeEnv, NoMemory};
use hir_life::Lifetimes;
use hir_number::NumberFault;
use hir_number_slow::{
    Occurrence, Role, Written, slow_count, slow_numbers_of_fields, slow_numbers_of_function,
    slow_numbers_of_method, slow_numbers_of_trait_method, slow_occurrences_of_function,
    slow_occurrences_of_method, slow_occurrences_of_trait_method,
};
use std::alloc::Global;
use std::process::Abort;

/// Occurrences in methods: `&` before the receiver's borrow, `Self` before the generics of `Self`, which stand once; and the count.
const METHODS: [(&str, &str); 6] = [
    (
        "'a | S<'a> | & | & O ; B<'a> | ",
        " &'_ Self'a '_ 'a '_ | 4",
    ),
    (" | O | self | | & O", " | 0"),
    (" | S | | & O | Self", " '_ Self'_ | 2"),
    (
        "'a | S<'a> | &'a | & Self ; Self | & O",
        " &'a Self'a '_ | 2",
    ),
    (
        "'a | A<'a> | &'static | A<'static> | ",
        " &'static Self'a 'static | 1",
    ),
    (" | O | & | & O ; &mut Write | ", " &'_ '_ | 2"),
];

/// Occurrences in functions: what they return has none.
const FUNCTIONS: [(&str, &str); 3] = [
    (" | & O ; []& & A | & O", " '_ '_ '_ '_ | 4"),
    ("'a | Fn1 &'a O A ; u8 | B", " 'a '_ | 2"),
    ("'a 'b:'a | &'b O | &'a O", " 'b | 2"),
];

/// Occurrences in methods of traits: `-` before what they return.
const TRAIT_METHODS_OF: [(&str, &str); 3] = [
    (" | R | & | & O | & O", " &'_ Self'_ '_ -'_ | 4"),
    ("'a | R<'a> | self | B<'a> | A", " Self'a 'a '_ -'_ | 3"),
    (" | R | | | &'static O", " -'static | 0"),
];

fn put_list(text: &mut String, lifetimes: &Lifetimes) -> Result<(), NoMemory> {
    let mut before = " ";
    for lifetime in lifetimes.as_slice() {
        text.push_str(before)?;
        put_lifetime(text, lifetime)?;
        before = ",";
    }
    Ok(())
}

fn put_lists(text: &mut String, lists: &Items<Lifetimes>) -> Result<(), NoMemory> {
    for lifetimes in lists.as_slice() {
        put_list(text, lifetimes)?;
    }
    Ok(())
}

/// The numbers of each use that has any, or the fault.
fn put_numbers(
    text: &mut String,
    answer: &Result<Items<Lifetimes>, NumberFault>,
) -> Result<(), NoMemory> {
    match answer {
        Ok(lists) => put_lists(text, lists),
        Err(fault) => put_fault(text, *fault),
    }
}

pub fn number_the_method(alloc: Global, env: &Env, text: &mut String) -> Result<(), NoMemory> {
    match method_in(env) {
        Some(method) => put_numbers(text, &slow_numbers_of_method(alloc, env, 0, method)?),
        None => put_nothing(text),
    }
}

pub fn number_the_function(alloc: Global, env: &Env, text: &mut String) -> Result<(), NoMemory> {
    match function_in(env) {
        Some(function) => put_numbers(text, &slow_numbers_of_function(alloc, env, 0, function)?),
        None => put_nothing(text),
    }
}

pub fn number_the_trait_method(
    alloc: Global,
    env: &Env,
    text: &mut String,
) -> Result<(), NoMemory> {
    match trait_method_in(env) {
        Some(method) => put_numbers(text, &slow_numbers_of_trait_method(alloc, env, 0, method)?),
        None => put_nothing(text),
    }
}

pub fn number_the_fields(alloc: Global, env: &Env, text: &mut String) -> Result<(), NoMemory> {
    match struct_in(env) {
        Some(item) => put_numbers(text, &slow_numbers_of_fields(alloc, env, 0, item)?),
        None => put_nothing(text),
    }
}

fn put_occurrence(text: &mut String, occurrence: &Occurrence<'_>) -> Result<(), NoMemory> {
    text.push_str(match occurrence.role {
        Role::Borrow => " &'",
        Role::Own => " Self'",
        Role::Counting => " '",
        Role::Neither => " -'",
    })?;
    text.push_str(match occurrence.lifetime {
        Written::Static => "static",
        Written::Named(name) => name.as_str(),
        Written::Anonymous => "_",
    })
}

/// The occurrences, and how many lifetimes have a number after them.
fn put_occurrences(
    text: &mut String,
    declared: &LifetimeEnv,
    occurrences: &[Occurrence<'_>],
) -> Result<(), NoMemory> {
    for occurrence in occurrences {
        put_occurrence(text, occurrence)?;
    }
    text.push_str(" | ")?;
    put_number(text, slow_count(declared, occurrences))
}

pub fn occurrences_in_the_method(
    alloc: Global,
    env: &Env,
    text: &mut String,
) -> Result<(), NoMemory> {
    match method_in(env) {
        Some(method) => put_occurrences(
            text,
            &method.lifetime_env,
            slow_occurrences_of_method(alloc, env, 0, method)?.as_slice(),
        ),
        None => put_nothing(text),
    }
}

pub fn occurrences_in_the_function(
    alloc: Global,
    env: &Env,
    text: &mut String,
) -> Result<(), NoMemory> {
    match function_in(env) {
        Some(function) => put_occurrences(
            text,
            &function.lifetimes,
            slow_occurrences_of_function(alloc, env, 0, function)?.as_slice(),
        ),
        None => put_nothing(text),
    }
}

pub fn occurrences_in_the_trait_method(
    alloc: Global,
    env: &Env,
    text: &mut String,
) -> Result<(), NoMemory> {
    match trait_method_in(env) {
        Some(method) => put_occurrences(
            text,
            &method.lifetimes,
            slow_occurrences_of_trait_method(alloc, env, 0, method)?.as_slice(),
        ),
        None => put_nothing(text),
    }
}

/// What a word of an answer has between its `<` and its `>`.
fn generics_of(word: &str) -> Option<&str> {
    match word.split_once('<') {
        Some((_, generics)) => generics.split('>').next(),
        None => None,
    }
}

/// The numbers that a word of an answer has: behind its `&`, or those of its generics.
fn numbers_of(word: &str) -> Option<&str> {
    let word = word.strip_prefix("[]").unwrap_or(word);
    match word.strip_prefix('&') {
        Some(borrow) => Some(borrow.strip_prefix("mut").unwrap_or(borrow)),
        None => generics_of(word),
    }
}

fn put_numbers_of(text: &mut String, word: &str) -> Result<(), NoMemory> {
    match numbers_of(word) {
        Some(numbers) => {
            text.push_str(" ")?;
            text.push_str(numbers)
        }
        None => Ok(()),
    }
}

/// The numbers in the answer of a row, or its fault: of a signature that has columns, and a fault has none.
fn numbers_in(alloc: Global, call: Call, expected: &str) -> Result<String, NoMemory> {
    let mut text = String::new(alloc);
    match (call, expected.split_once('|')) {
        (Call::SlowFields, _) | (_, Some(_)) => {
            for word in expected.split_whitespace() {
                put_numbers_of(&mut text, word)?;
            }
        }
        (_, None) => text.push_str(expected)?,
    }
    Ok(text)
}

/// Compares what the call answers for each row with the numbers in the answer of the row.
fn compare_numbers(
    rt: &impl Abort,
    alloc: Global,
    call: Call,
    rows: &[(&str, &str)],
) -> Result<(), NoMemory> {
    for (row, expected) in rows {
        let expected = numbers_in(alloc, call, expected)?;
        assert_eq!(rt;
            answer(alloc, call, row)?.as_str(),
            expected.as_str(),
            "of {row}"
        );
    }
    Ok(())
}

#[test]
fn numbers_of_methods(rt: HostRuntime) -> Result<(), NoMemory> {
    for rows in [
        SELF_IN_RECEIVERS.as_slice(),
        OWNED_RECEIVERS.as_slice(),
        SELF_IN_PARAMETERS.as_slice(),
        SELF_IN_RETURNS.as_slice(),
        WRITERS.as_slice(),
        FAULTY_METHODS.as_slice(),
    ] {
        compare_numbers(&rt, rt.alloc(), Call::SlowMethod, rows)?;
    }
    Ok(())
}

#[test]
fn numbers_of_functions(rt: HostRuntime) -> Result<(), NoMemory> {
    for rows in [
        BORROWS.as_slice(),
        LAYERS.as_slice(),
        SLICES.as_slice(),
        CALLBACKS.as_slice(),
        FAULTY_FUNCTIONS.as_slice(),
    ] {
        compare_numbers(&rt, rt.alloc(), Call::SlowFunction, rows)?;
    }
    Ok(())
}

#[test]
fn numbers_of_others(rt: HostRuntime) -> Result<(), NoMemory> {
    compare_numbers(&rt, rt.alloc(), Call::SlowTraitMethod, &TRAIT_METHODS)?;
    compare_numbers(&rt, rt.alloc(), Call::SlowFields, &FIELDS)?;
    compare(&rt, rt.alloc(), Call::SlowFields, &FAULTY_FIELDS)
}

#[test]
fn occurrences(rt: HostRuntime) -> Result<(), NoMemory> {
    compare(&rt, rt.alloc(), Call::OccurrencesInMethod, &METHODS)?;
    compare(&rt, rt.alloc(), Call::OccurrencesInFunction, &FUNCTIONS)?;
    compare(
        &rt,
        rt.alloc(),
        Call::OccurrencesInTraitMethod,
        &TRAIT_METHODS_OF,
    )
}
