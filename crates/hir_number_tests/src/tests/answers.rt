//! What the calls answer for a row, as texts.

use super::declared::{OWN, environment};
use super::found::{function_in, method_in, struct_in, trait_method_in};
use super::made::{function, with_fields, with_method, with_trait_method};
use super::{rendered, slow};
use bridge_ast::{Env, EnvFault, ItemPlace};
use bridge_decl::{Item, NoMemory};
use hir_number::{
    field_breaches, function_breaches, method_breaches, number_fields, number_function,
    number_method, number_trait_method, trait_method_breaches,
};
use std::alloc::Global;

/// The place of the item that a row declares.
const OWNER: ItemPlace = ItemPlace {
    module: 0,
    item: OWN,
};

/// What is said where a row declares nothing that could be asked for.
pub fn put_nothing(text: &mut String) -> Result<(), NoMemory> {
    text.push_str("nothing is declared")
}

fn number_the_method(alloc: Global, env: &Env, text: &mut String) -> Result<(), NoMemory> {
    match method_in(env) {
        Some(method) => rendered::put_method(text, &number_method(alloc, env, 0, method)),
        None => put_nothing(text),
    }
}

fn number_the_function(alloc: Global, env: &Env, text: &mut String) -> Result<(), NoMemory> {
    match function_in(env) {
        Some(function) => rendered::put_function(text, &number_function(alloc, env, 0, function)),
        None => put_nothing(text),
    }
}

fn number_the_trait_method(alloc: Global, env: &Env, text: &mut String) -> Result<(), NoMemory> {
    match trait_method_in(env) {
        Some(method) => rendered::put_trait_method(
            text,
            &number_trait_method(alloc, env, 0, method),
        ),
        None => put_nothing(text),
    }
}

fn number_the_fields(alloc: Global, env: &Env, text: &mut String) -> Result<(), NoMemory> {
    match struct_in(env) {
        Some(item) => rendered::put_fields(text, &number_fields(alloc, env, 0, item)),
        None => put_nothing(text),
    }
}

fn test_the_method(alloc: Global, env: &Env, text: &mut String) -> Result<(), NoMemory> {
    match method_in(env) {
        Some(method) => rendered::put_breaches(
            text,
            method_breaches(alloc, env, 0, OWNER, method)?.as_slice(),
        ),
        None => put_nothing(text),
    }
}

fn test_the_function(alloc: Global, env: &Env, text: &mut String) -> Result<(), NoMemory> {
    match function_in(env) {
        Some(function) => rendered::put_breaches(
            text,
            function_breaches(alloc, env, 0, function)?.as_slice(),
        ),
        None => put_nothing(text),
    }
}

fn test_the_trait_method(alloc: Global, env: &Env, text: &mut String) -> Result<(), NoMemory> {
    match trait_method_in(env) {
        Some(method) => rendered::put_breaches(
            text,
            trait_method_breaches(alloc, env, 0, OWNER, method)?.as_slice(),
        ),
        None => put_nothing(text),
    }
}

fn test_the_fields(alloc: Global, env: &Env, text: &mut String) -> Result<(), NoMemory> {
    match struct_in(env) {
        Some(item) => rendered::put_breaches(text, field_breaches(alloc, env, 0, item)?.as_slice()),
        None => put_nothing(text),
    }
}

/// A call of `hir_number`, or of `hir_number_slow`.
#[derive(Clone, Copy)]
pub enum Call {
    NumberMethod,
    NumberFunction,
    NumberTraitMethod,
    NumberFields,
    TestMethod,
    TestFunction,
    TestTraitMethod,
    TestFields,
    SlowMethod,
    SlowFunction,
    SlowTraitMethod,
    SlowFields,
    OccurrencesInMethod,
    OccurrencesInFunction,
    OccurrencesInTraitMethod,
}

/// What a row declares for a call.
pub enum RowKind {
    Method,
    Function,
    TraitMethod,
    Fields,
}

impl Call {
    /// What a row declares for the call.
    pub fn kind(self) -> RowKind {
        match self {
            Call::NumberMethod | Call::TestMethod | Call::SlowMethod | Call::OccurrencesInMethod =>
                RowKind::Method,
            Call::NumberFunction
            | Call::TestFunction
            | Call::SlowFunction
            | Call::OccurrencesInFunction => RowKind::Function,
            Call::NumberTraitMethod
            | Call::TestTraitMethod
            | Call::SlowTraitMethod
            | Call::OccurrencesInTraitMethod => RowKind::TraitMethod,
            Call::NumberFields | Call::TestFields | Call::SlowFields => RowKind::Fields,
        }
    }
}

/// The item that a row declares for the call.
fn declared(alloc: Global, call: Call, row: &str) -> Result<Item, NoMemory> {
    match call.kind() {
        RowKind::Method => with_method(alloc, row),
        RowKind::Function => function(alloc, row),
        RowKind::TraitMethod => with_trait_method(alloc, row),
        RowKind::Fields => with_fields(alloc, row),
    }
}

fn put_answer(alloc: Global, call: Call, env: &Env, text: &mut String) -> Result<(), NoMemory> {
    match call {
        Call::NumberMethod => number_the_method(alloc, env, text),
        Call::NumberFunction => number_the_function(alloc, env, text),
        Call::NumberTraitMethod => number_the_trait_method(alloc, env, text),
        Call::NumberFields => number_the_fields(alloc, env, text),
        Call::TestMethod => test_the_method(alloc, env, text),
        Call::TestFunction => test_the_function(alloc, env, text),
        Call::TestTraitMethod => test_the_trait_method(alloc, env, text),
        Call::TestFields => test_the_fields(alloc, env, text),
        Call::SlowMethod => slow::number_the_method(alloc, env, text),
        Call::SlowFunction => slow::number_the_function(alloc, env, text),
        Call::SlowTraitMethod => slow::number_the_trait_method(alloc, env, text),
        Call::SlowFields => slow::number_the_fields(alloc, env, text),
        Call::OccurrencesInMethod => slow::occurrences_in_the_method(alloc, env, text),
        Call::OccurrencesInFunction => slow::occurrences_in_the_function(alloc, env, text),
        Call::OccurrencesInTraitMethod => slow::occurrences_in_the_trait_method(alloc, env, text),
    }
}

/// What the call answers in an environment, if there is one.
fn put_answer_in(
    alloc: Global,
    call: Call,
    env: &Result<Env, EnvFault>,
    text: &mut String,
) -> Result<(), NoMemory> {
    match env {
        Ok(env) => put_answer(alloc, call, env, text),
        Err(_) => text.push_str("the declarations don't fit together"),
    }
}

/// What the call answers in the environment of which the item is the last.
pub fn asked_of(alloc: Global, call: Call, own: Item) -> Result<String, NoMemory> {
    let env = environment(alloc, own);
    let mut text = String::new(alloc);
    put_answer_in(alloc, call, &env, &mut text)?;
    Ok(text)
}

/// What the call answers for a row.
pub fn answer(alloc: Global, call: Call, row: &str) -> Result<String, NoMemory> {
    asked_of(alloc, call, declared(alloc, call, row)?)
}
