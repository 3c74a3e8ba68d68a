//! What a row declares: a method, a function, a method of a trait, or fields.

use super::declared::{attrs, docs, lifetimes, structure, trait_of};
use super::notation::{borrow, parse, path};
use bridge_decl::{
    Field, Function, Item, Items, Lifetime, LifetimeEnv, Method, Mutability, NoMemory, Param,
    PathType, SelfParam, Text, TraitMethod, TraitSelfParam, TypeName,
};
use std::alloc::Global;

/// A parameter of a type.
pub fn param(alloc: Global, name: Text, ty: TypeName) -> Param {
    Param {
        name,
        ty,
        attrs: attrs(alloc),
    }
}

/// A field of a type.
pub fn field(alloc: Global, name: Text, ty: TypeName) -> Field {
    Field {
        name,
        ty,
        docs: docs(alloc),
        attrs: attrs(alloc),
    }
}

/// Adds a parameter of the type that a text writes, if it writes one.
fn push_param(
    alloc: Global,
    own: &str,
    text: &str,
    params: &mut Items<Param>,
) -> Result<(), NoMemory> {
    let name = Text::new(alloc, "p")?;
    match parse(alloc, own, text)? {
        Some(ty) => params.push(param(alloc, name, ty)),
        None => Ok(()),
    }
}

/// Parameters with semicolons between them.
fn params(alloc: Global, own: &str, texts: &str) -> Result<Items<Param>, NoMemory> {
    let mut params = Items::new(alloc);
    for text in texts.split(';') {
        push_param(alloc, own, text, &mut params)?;
    }
    Ok(params)
}

/// The borrow of a receiver that is written as `&`, `&mut` or `&'a`; none is `self`.
fn receiver_borrow(alloc: Global, word: &str) -> Result<Option<(Lifetime, Mutability)>, NoMemory> {
    match word.strip_prefix('&') {
        Some(word) => Ok(Some(borrow(alloc, word)?)),
        None => Ok(None),
    }
}

/// A receiver: of the path that stands after its borrow, or else of `Self`.
fn receiver(alloc: Global, own: &str, text: &str) -> Result<Option<SelfParam>, NoMemory> {
    let mut words = text.split_whitespace();
    match words.next() {
        Some(word) => {
            let reference = receiver_borrow(alloc, word)?;
            let path_type = path(alloc, words.next().unwrap_or(own))?;
            Ok(Some(SelfParam {
                reference,
                path_type,
                attrs: attrs(alloc),
            }))
        }
        None => Ok(None),
    }
}

fn trait_receiver(
    alloc: Global,
    own: &str,
    text: &str,
) -> Result<Option<TraitSelfParam>, NoMemory> {
    let mut words = text.split_whitespace();
    match words.next() {
        Some(word) => {
            let reference = receiver_borrow(alloc, word)?;
            let path_trait = path(alloc, words.next().unwrap_or(own))?;
            Ok(Some(TraitSelfParam {
                reference,
                path_trait,
            }))
        }
        None => Ok(None),
    }
}

/// The columns of a row.
#[derive(Clone, Copy)]
struct Columns<'r> {
    lifetimes: &'r str,
    own: &'r str,
    receiver: &'r str,
    params: &'r str,
    output: &'r str,
}

/// Those of a method: lifetimes, `Self`, the receiver, the parameters and the return.
fn columns_of(row: &str) -> Columns<'_> {
    let mut columns = row.split('|');
    Columns {
        lifetimes: columns.next().unwrap_or(""),
        own: columns.next().unwrap_or("").trim(),
        receiver: columns.next().unwrap_or(""),
        params: columns.next().unwrap_or(""),
        output: columns.next().unwrap_or(""),
    }
}

/// Those of a function, in which `Self` stands for `S`: lifetimes, the parameters and the return.
fn function_columns_of(row: &str) -> Columns<'_> {
    let mut columns = row.split('|');
    Columns {
        lifetimes: columns.next().unwrap_or(""),
        own: "S",
        receiver: "",
        params: columns.next().unwrap_or(""),
        output: columns.next().unwrap_or(""),
    }
}

/// What methods and functions have alike.
#[derive(Drop)]
pub struct Signature {
    pub lifetimes: LifetimeEnv,
    pub params: Items<Param>,
    pub output: Option<TypeName>,
}

fn signature_of(alloc: Global, columns: Columns<'_>) -> Result<Signature, NoMemory> {
    let lifetimes = lifetimes(alloc, columns.lifetimes)?;
    let params = params(alloc, columns.own, columns.params)?;
    let output = parse(alloc, columns.own, columns.output)?;
    Ok(Signature {
        lifetimes,
        params,
        output,
    })
}

/// What a method has but its signature.
#[derive(Drop)]
pub struct Head {
    name: Text,
    abi_name: Text,
    self_type: PathType,
    self_param: Option<SelfParam>,
}

/// That of a method of a path, with a receiver.
pub fn head_of(alloc: Global, own: &str, text: &str) -> Result<Head, NoMemory> {
    let name = Text::new(alloc, "m")?;
    let abi_name = Text::new(alloc, "m")?;
    let self_type = path(alloc, own)?;
    let self_param = receiver(alloc, own, text)?;
    Ok(Head {
        name,
        abi_name,
        self_type,
        self_param,
    })
}

pub fn method_of(alloc: Global, head: Head, signature: Signature) -> Method {
    Method {
        name: head.name,
        abi_name: head.abi_name,
        self_type: head.self_type,
        self_param: head.self_param,
        lifetime_env: signature.lifetimes,
        params: signature.params,
        return_type: signature.output,
        docs: docs(alloc),
        attrs: attrs(alloc),
    }
}

/// The method of a row.
fn method(alloc: Global, row: &str) -> Result<Method, NoMemory> {
    let columns = columns_of(row);
    let head = head_of(alloc, columns.own, columns.receiver)?;
    let signature = signature_of(alloc, columns)?;
    Ok(method_of(alloc, head, signature))
}

/// The struct `S<'x>` with a method.
pub fn struct_with(alloc: Global, method: Method) -> Result<Item, NoMemory> {
    let mut methods = Items::new(alloc);
    methods.push(method)?;
    let generics = lifetimes(alloc, "'x")?;
    structure(alloc, "S", generics, Items::new(alloc), methods, false)
}

/// The struct `S<'x>` with the method of a row.
pub fn with_method(alloc: Global, row: &str) -> Result<Item, NoMemory> {
    struct_with(alloc, method(alloc, row)?)
}

/// The names of a function `f`.
pub fn function_names(alloc: Global) -> Result<(Text, Text), NoMemory> {
    let name = Text::new(alloc, "f")?;
    let abi_name = Text::new(alloc, "f")?;
    Ok((name, abi_name))
}

pub fn function_of(alloc: Global, names: (Text, Text), signature: Signature) -> Item {
    Item::Function(Function {
        name: names.0,
        abi_name: names.1,
        lifetimes: signature.lifetimes,
        params: signature.params,
        output_type: signature.output,
        docs: docs(alloc),
        attrs: attrs(alloc),
    })
}

/// The function of a row.
pub fn function(alloc: Global, row: &str) -> Result<Item, NoMemory> {
    let names = function_names(alloc)?;
    let signature = signature_of(alloc, function_columns_of(row))?;
    Ok(function_of(alloc, names, signature))
}

/// What a method of a trait has but its signature.
#[derive(Drop)]
pub struct TraitHead {
    name: Text,
    self_param: Option<TraitSelfParam>,
}

/// That of a method with a receiver.
pub fn trait_head_of(alloc: Global, own: &str, text: &str) -> Result<TraitHead, NoMemory> {
    let name = Text::new(alloc, "m")?;
    let self_param = trait_receiver(alloc, own, text)?;
    Ok(TraitHead { name, self_param })
}

pub fn trait_method_of(alloc: Global, head: TraitHead, signature: Signature) -> TraitMethod {
    TraitMethod {
        name: head.name,
        lifetimes: signature.lifetimes,
        self_param: head.self_param,
        params: signature.params,
        output_type: signature.output,
        docs: docs(alloc),
        attrs: attrs(alloc),
    }
}

/// The method of a row of a trait.
fn trait_method(alloc: Global, row: &str) -> Result<TraitMethod, NoMemory> {
    let columns = columns_of(row);
    let head = trait_head_of(alloc, columns.own, columns.receiver)?;
    let signature = signature_of(alloc, columns)?;
    Ok(trait_method_of(alloc, head, signature))
}

/// The trait `R<'x>` with a method.
pub fn trait_with(alloc: Global, method: TraitMethod) -> Result<Item, NoMemory> {
    let mut methods = Items::new(alloc);
    methods.push(method)?;
    let generics = lifetimes(alloc, "'x")?;
    trait_of(alloc, "R", generics, methods)
}

/// The trait `R<'x>` with the method of a row.
pub fn with_trait_method(alloc: Global, row: &str) -> Result<Item, NoMemory> {
    trait_with(alloc, trait_method(alloc, row)?)
}

/// Adds a field of the type that a text writes, if it writes one.
fn push_field(
    alloc: Global,
    own: &str,
    text: &str,
    fields: &mut Items<Field>,
) -> Result<(), NoMemory> {
    let name = Text::new(alloc, "p")?;
    match parse(alloc, own, text)? {
        Some(ty) => fields.push(field(alloc, name, ty)),
        None => Ok(()),
    }
}

/// The struct `S` of a row: its lifetimes, and its fields with semicolons between them, in which `Self` stands for `S`.
pub fn with_fields(alloc: Global, row: &str) -> Result<Item, NoMemory> {
    let mut columns = row.split('|');
    let lifetimes = lifetimes(alloc, columns.next().unwrap_or(""))?;
    let mut fields = Items::new(alloc);
    for text in columns.next().unwrap_or("").split(';') {
        push_field(alloc, "S", text, &mut fields)?;
    }
    structure(alloc, "S", lifetimes, fields, Items::new(alloc), false)
}
