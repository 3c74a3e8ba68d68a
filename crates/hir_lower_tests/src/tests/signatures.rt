//! Lowered types, marks and signatures as texts.
//!
//! A type is `value` or what it names by its id, with its lifetimes by their numbers, and a `?` before it where it may be absent:
//! `?opaque 1 'static '0`. Lifetimes that are declared are names, each with the numbers of those that outlive it: `'a(1) 'b`; those
//! that aren't named are counted: `+2`.

use bridge_decl::NoMemory;
use hir_attrs::Attrs;
use hir_definitions::{Method, Param, ParamSelf};
use hir_docs::Docs;
use hir_ids::TypeId;
use hir_life::{BoundedLifetime, Lifetime, LifetimeEnv, MaybeStatic};
use hir_types::{Callback, CallbackParam, HirType, ReturnType, SuccessType, TyPosition};
use std::alloc::Global;

/// Adds a word and a number.
pub fn put_number(
    alloc: Global,
    text: &mut String,
    word: &str,
    number: usize,
) -> Result<(), NoMemory> {
    text.push_str(word)?;
    text.push_str(number.to_string(alloc)?.as_str())
}

/// The word for the kind of an id, and its place.
fn kind_of(id: TypeId) -> (&'static str, usize) {
    match id {
        TypeId::Struct(id) => ("struct ", id.index()),
        TypeId::OutStruct(id) => ("out_struct ", id.index()),
        TypeId::Opaque(id) => ("opaque ", id.index()),
        TypeId::Enum(id) => ("enum ", id.index()),
    }
}

/// Adds what a type names.
fn put_id(alloc: Global, text: &mut String, id: Option<TypeId>) -> Result<(), NoMemory> {
    match id {
        Some(id) => {
            let (word, place) = kind_of(id);
            put_number(alloc, text, word, place)
        }
        None => text.push_str("value"),
    }
}

/// Adds the lifetimes of a type.
fn put_lifetimes<P: TyPosition>(
    alloc: Global,
    text: &mut String,
    ty: &HirType<P>,
) -> Result<(), NoMemory> {
    for lifetime in ty.lifetimes() {
        match lifetime {
            MaybeStatic::Static => text.push_str(" 'static")?,
            MaybeStatic::NonStatic(lifetime) => {
                put_number(alloc, text, " '", lifetime.index())?;
            }
        }
    }
    Ok(())
}

/// Adds a type.
pub fn put_type<P: TyPosition>(
    alloc: Global,
    text: &mut String,
    ty: &HirType<P>,
) -> Result<(), NoMemory> {
    text.push_str(if ty.is_option() { "?" } else { "" })?;
    put_id(alloc, text, ty.unwrap_option().id())?;
    put_lifetimes(alloc, text, ty)
}

/// Adds a declared lifetime.
fn put_bounded(
    alloc: Global,
    text: &mut String,
    bounded: &BoundedLifetime,
) -> Result<(), NoMemory> {
    text.push_str(" '")?;
    text.push_str(bounded.ident.as_str())?;
    for longer in bounded.longer.as_slice() {
        put_number(alloc, text, "(", longer.index())?;
        text.push_str(")")?;
    }
    Ok(())
}

/// Adds declared lifetimes, and how many there are besides.
pub fn put_env(alloc: Global, text: &mut String, env: &LifetimeEnv) -> Result<(), NoMemory> {
    let mut besides: usize = 0;
    for number in 0..env.num_lifetimes() {
        match env.get_bounds(Lifetime::new(number)) {
            Some(bounded) => put_bounded(alloc, text, bounded)?,
            None => besides = besides.saturating_add(1),
        }
    }
    if besides > 0 {
        return put_number(alloc, text, " +", besides);
    }
    Ok(())
}

/// Adds a text of marks.
fn put_text(text: &mut String, word: &str, found: Option<&str>) -> Result<(), NoMemory> {
    match found {
        Some(found) => {
            text.push_str(word)?;
            text.push_str(found)
        }
        None => Ok(()),
    }
}

/// Adds marks.
pub fn put_marks(text: &mut String, attrs: &Attrs) -> Result<(), NoMemory> {
    let flags = [
        (attrs.disable, " disable"),
        (attrs.default, " default"),
        (attrs.special_method.is_some(), " special"),
        (attrs.default_value.is_some(), " valued"),
    ];
    for (is_set, word) in flags {
        text.push_str(if is_set { word } else { "" })?;
    }
    let namespace = attrs.namespace.as_ref().map(|name| name.as_str());
    put_text(text, " namespace=", namespace)?;
    put_text(text, " rename=", attrs.rename.pattern())
}

/// Adds documents.
pub fn put_docs(text: &mut String, docs: &Docs) -> Result<(), NoMemory> {
    if docs.is_empty() {
        return Ok(());
    }
    text.push_str(" /")?;
    text.push_str(docs.lines())?;
    text.push_str("/")
}

/// Adds what comes of success.
pub fn put_success<P: TyPosition>(
    alloc: Global,
    text: &mut String,
    success: &SuccessType<P>,
) -> Result<(), NoMemory> {
    match success {
        SuccessType::Write(_) => text.push_str("write"),
        SuccessType::OutType(ty) => put_type(alloc, text, ty),
        SuccessType::Unit => text.push_str("unit"),
    }
}

/// Adds what comes of a failure.
fn put_failure<P: TyPosition>(
    alloc: Global,
    text: &mut String,
    output: &ReturnType<P>,
) -> Result<(), NoMemory> {
    match output {
        ReturnType::Infallible(_) => Ok(()),
        ReturnType::Nullable(_) => text.push_str(" or nothing"),
        ReturnType::Fallible(_, None) => text.push_str(" or unit"),
        ReturnType::Fallible(_, Some(ty)) => {
            text.push_str(" or ")?;
            put_type(alloc, text, ty)
        }
    }
}

/// Adds what is returned.
fn put_output<P: TyPosition>(
    alloc: Global,
    text: &mut String,
    output: &ReturnType<P>,
) -> Result<(), NoMemory> {
    text.push_str(") -> ")?;
    put_success(alloc, text, output.success_type())?;
    put_failure(alloc, text, output)
}

/// Adds a receiver.
fn put_receiver(text: &mut String, param_self: &ParamSelf) -> Result<(), NoMemory> {
    let word = if param_self.ty.is_mutably_borrowed() {
        "&mut self"
    } else if param_self.ty.is_immutably_borrowed() {
        "&self"
    } else {
        "self"
    };
    text.push_str(word)?;
    put_marks(text, &param_self.attrs)
}

/// Adds parameters.
fn put_params(alloc: Global, text: &mut String, params: &[Param]) -> Result<(), NoMemory> {
    for param in params {
        text.push_str(if text.as_str().ends_with("(") {
            ""
        } else {
            ", "
        })?;
        text.push_str(param.name.as_str())?;
        text.push_str(": ")?;
        put_type(alloc, text, &param.ty)?;
        put_marks(text, &param.attrs)?;
    }
    Ok(())
}

/// Adds what a method or a function has before its parameters.
fn put_head(alloc: Global, text: &mut String, method: &Method) -> Result<(), NoMemory> {
    text.push_str(method.name.as_str())?;
    text.push_str(" = ")?;
    text.push_str(method.abi_name.as_str())?;
    put_env(alloc, text, &method.lifetime_env)?;
    put_marks(text, &method.attrs)?;
    put_docs(text, &method.docs)
}

/// Adds a method or a function.
pub fn put_method(alloc: Global, text: &mut String, method: &Method) -> Result<(), NoMemory> {
    put_head(alloc, text, method)?;
    text.push_str(" (")?;
    if let Some(param_self) = &method.param_self {
        put_receiver(text, param_self)?;
    }
    put_params(alloc, text, method.params.as_slice())?;
    put_output(alloc, text, &method.output)
}

/// Adds the parameters of a method of a trait.
fn put_callback_params(
    alloc: Global,
    text: &mut String,
    params: &[CallbackParam],
) -> Result<(), NoMemory> {
    for param in params {
        text.push_str(if text.as_str().ends_with("(") {
            ""
        } else {
            ", "
        })?;
        text.push_str(param.name.as_ref().map_or("", |name| name.as_str()))?;
        text.push_str(": ")?;
        put_type(alloc, text, &param.ty)?;
    }
    Ok(())
}

/// Adds a method of a trait.
pub fn put_callback(alloc: Global, text: &mut String, method: &Callback) -> Result<(), NoMemory> {
    text.push_str(method.name.as_ref().map_or("", |name| name.as_str()))?;
    if let Some(attrs) = &method.attrs {
        put_marks(text, attrs)?;
    }
    if let Some(docs) = &method.docs {
        put_docs(text, docs)?;
    }
    text.push_str(if method.param_self.is_some() {
        " (self"
    } else {
        " ("
    })?;
    put_callback_params(alloc, text, method.params.as_slice())?;
    put_output(alloc, text, &method.output)
}
