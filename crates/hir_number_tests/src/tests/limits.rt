//! As many lifetimes as there may be, and one more: by names, by anonymous ones, and by both.

use super::answers::{Call, RowKind, asked_of};
use super::declared::structure;
use super::made::{
    Signature, field, function_names, function_of, head_of, method_of, param, struct_with,
    trait_head_of, trait_method_of, trait_with,
};
use super::rendered::put_number;
use bridge_decl::{
    Boxed, Field, Item, Items, Lifetime, LifetimeEnv, LifetimeNode, Mutability, NoMemory, Param,
    PrimitiveType, Text, TypeName,
};
use std::alloc::Global;
use std::process::Abort;

/// How names begin, how many are declared, how many parameters have an anonymous lifetime, and what the answer ends with.
type Row = (&'static str, usize, usize, &'static str);

/// Functions that return under the last name, if there is one.
const FUNCTIONS: [Row; 9] = [
    ("l", 4095, 0, "| &4094 u8 | 4095"),
    ("l", 4096, 0, "TooManyLifetimes"),
    ("l", 0, 4095, "&4094 u8 | | 4095"),
    ("l", 0, 4096, "TooManyLifetimes"),
    ("l", 4000, 95, "&4094 u8 | &3999 u8 | 4095"),
    ("l", 4000, 96, "TooManyLifetimes"),
    ("l", 4095, 1, "TooManyLifetimes"),
    ("1", 4095, 0, "BadIdent"),
    ("1", 4096, 0, "TooManyLifetimes"),
];

/// Methods of `S` by `&self`, which leaves out two lifetimes, that do so too.
const METHODS: [Row; 5] = [
    ("l", 4093, 0, "&4093 S<4094> | | &4092 u8 | 4095"),
    ("l", 4094, 0, "TooManyLifetimes"),
    ("l", 0, 4093, "&4094 u8 | | 4095"),
    ("l", 0, 4094, "TooManyLifetimes"),
    ("l", 2000, 2093, "&4094 u8 | &1999 u8 | 4095"),
];

/// Methods of the trait `R` by `&self`.
const TRAIT_METHODS: [Row; 4] = [
    ("l", 4093, 0, "&4093 R<4094> | | &4092 u8 | 4095"),
    ("l", 4094, 0, "TooManyLifetimes"),
    ("l", 0, 4093, "&4094 u8 | | 4095"),
    ("l", 0, 4094, "TooManyLifetimes"),
];

/// Structs with one field under the last name.
const FIELDS: [Row; 2] = [
    ("l", 4095, 0, "&4094 u8"),
    ("l", 4096, 0, "TooManyLifetimes"),
];

/// What is wrong by itself, whatever it is that declares the names.
const TESTED: [Row; 3] = [
    ("l", 4095, 0, ""),
    ("l", 4096, 0, "TooManyLifetimes"),
    ("l", 4097, 0, "TooManyLifetimes"),
];

fn name(alloc: Global, start: &str, number: usize) -> Result<Text, NoMemory> {
    let mut name = String::new(alloc);
    name.push_str(start)?;
    put_number(&mut name, number)?;
    Text::new(alloc, name.as_str())
}

fn names(alloc: Global, start: &str, count: usize) -> Result<LifetimeEnv, NoMemory> {
    let mut nodes = Items::new(alloc);
    for number in 0..count {
        nodes.push(LifetimeNode {
            name: name(alloc, start, number)?,
            longer: Items::new(alloc),
            shorter: Items::new(alloc),
        })?;
    }
    Ok(LifetimeEnv { nodes })
}

/// A reference to a `u8`.
fn reference(alloc: Global, lifetime: Lifetime) -> Result<TypeName, NoMemory> {
    let inner = Boxed::new(alloc, TypeName::Primitive(PrimitiveType::u8))?;
    Ok(TypeName::Reference(lifetime, Mutability::Immutable, inner))
}

fn params(alloc: Global, count: usize) -> Result<Items<Param>, NoMemory> {
    let mut params = Items::new(alloc);
    for _ in 0..count {
        let name = Text::new(alloc, "p")?;
        params.push(param(alloc, name, reference(alloc, Lifetime::Anonymous)?))?;
    }
    Ok(params)
}

/// A reference under the last of the names, if there is one.
fn last(alloc: Global, start: &str, count: usize) -> Result<Option<TypeName>, NoMemory> {
    match count.checked_sub(1) {
        Some(number) => {
            let name = name(alloc, start, number)?;
            Ok(Some(reference(alloc, Lifetime::Named(name))?))
        }
        None => Ok(None),
    }
}

fn signature_of(alloc: Global, row: &Row) -> Result<Signature, NoMemory> {
    let lifetimes = names(alloc, row.0, row.1)?;
    let params = params(alloc, row.2)?;
    let output = last(alloc, row.0, row.1)?;
    Ok(Signature {
        lifetimes,
        params,
        output,
    })
}

fn function(alloc: Global, row: &Row) -> Result<Item, NoMemory> {
    let names = function_names(alloc)?;
    let signature = signature_of(alloc, row)?;
    Ok(function_of(alloc, names, signature))
}

fn with_method(alloc: Global, row: &Row) -> Result<Item, NoMemory> {
    let head = head_of(alloc, "S", "&")?;
    let signature = signature_of(alloc, row)?;
    struct_with(alloc, method_of(alloc, head, signature))
}

fn with_trait_method(alloc: Global, row: &Row) -> Result<Item, NoMemory> {
    let head = trait_head_of(alloc, "R", "&")?;
    let signature = signature_of(alloc, row)?;
    trait_with(alloc, trait_method_of(alloc, head, signature))
}

/// The field of a row, if there is a name.
fn field_list(alloc: Global, row: &Row) -> Result<Items<Field>, NoMemory> {
    let mut fields = Items::new(alloc);
    let name = Text::new(alloc, "p")?;
    match last(alloc, row.0, row.1)? {
        Some(ty) => fields.push(field(alloc, name, ty))?,
        None => {}
    }
    Ok(fields)
}

fn with_field(alloc: Global, row: &Row) -> Result<Item, NoMemory> {
    let lifetimes = names(alloc, row.0, row.1)?;
    let fields = field_list(alloc, row)?;
    structure(alloc, "S", lifetimes, fields, Items::new(alloc), false)
}

/// The item that a row declares for the call.
fn declared(alloc: Global, call: Call, row: &Row) -> Result<Item, NoMemory> {
    match call.kind() {
        RowKind::Method => with_method(alloc, row),
        RowKind::Function => function(alloc, row),
        RowKind::TraitMethod => with_trait_method(alloc, row),
        RowKind::Fields => with_field(alloc, row),
    }
}

/// What the call answers for a row.
fn answer(alloc: Global, call: Call, row: &Row) -> Result<String, NoMemory> {
    asked_of(alloc, call, declared(alloc, call, row)?)
}

fn compare(rt: &impl Abort, alloc: Global, call: Call, rows: &[Row]) -> Result<(), NoMemory> {
    for row in rows {
        assert!(rt;
            answer(alloc, call, row)?.as_str().ends_with(row.3),
            "of {} and {}",
            row.1,
            row.2
        );
    }
    Ok(())
}

#[test]
fn functions(rt: HostRuntime) -> Result<(), NoMemory> {
    compare(&rt, rt.alloc(), Call::NumberFunction, &FUNCTIONS)
}

#[test]
fn methods(rt: HostRuntime) -> Result<(), NoMemory> {
    compare(&rt, rt.alloc(), Call::NumberMethod, &METHODS)
}

#[test]
fn trait_methods(rt: HostRuntime) -> Result<(), NoMemory> {
    compare(&rt, rt.alloc(), Call::NumberTraitMethod, &TRAIT_METHODS)
}

#[test]
fn fields(rt: HostRuntime) -> Result<(), NoMemory> {
    compare(&rt, rt.alloc(), Call::NumberFields, &FIELDS)
}

fn compare_tested(rt: &impl Abort, alloc: Global, call: Call) -> Result<(), NoMemory> {
    for row in &TESTED {
        assert_eq!(rt; answer(alloc, call, row)?.as_str(), row.3, "of {}", row.1);
    }
    Ok(())
}

#[test]
fn tested(rt: HostRuntime) -> Result<(), NoMemory> {
    let alloc = rt.alloc();
    compare_tested(&rt, alloc, Call::TestMethod)?;
    compare_tested(&rt, alloc, Call::TestFunction)?;
    compare_tested(&rt, alloc, Call::TestTraitMethod)?;
    compare_tested(&rt, alloc, Call::TestFields)
}
