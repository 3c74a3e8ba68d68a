//! Items as lines.

use bridge_ast::{
    Attrs, Docs, Field, Function, Item, Lifetime, LifetimeNode, Method, Mutability, OpaqueType,
    Param, PathType, Struct, TypeName,
};
use std::alloc::{AllocError, Global};

fn put_lifetime(out: &mut String, lifetime: &Lifetime) -> Result<(), AllocError> {
    match lifetime {
        Lifetime::Static => out.push_str("'static"),
        Lifetime::Anonymous => out.push_str("'_"),
        Lifetime::Named(name) => {
            out.push_str("'")?;
            out.push_str(name.as_str())
        }
    }
}

fn put_path(out: &mut String, path: &PathType) -> Result<(), AllocError> {
    for segment in path.segments.as_slice() {
        out.push_str(segment.as_str())?;
    }
    for lifetime in path.lifetimes.as_slice() {
        out.push_str("<")?;
        put_lifetime(out, lifetime)?;
        out.push_str(">")?;
    }
    Ok(())
}

fn put_named(out: &mut String, ty: &TypeName) -> Result<(), AllocError> {
    match ty {
        TypeName::Named(path) => put_path(out, path),
        _ => out.push_str("?"),
    }
}

fn put_type(out: &mut String, ty: &TypeName) -> Result<(), AllocError> {
    match ty {
        TypeName::Reference(lifetime, Mutability::Immutable, to) => {
            out.push_str("&")?;
            put_lifetime(out, lifetime)?;
            out.push_str(" ")?;
            put_named(out, to.get())
        }
        _ => put_named(out, ty),
    }
}

/// The numbers of bounds, which are digits here.
fn put_numbers(out: &mut String, word: &str, numbers: &[usize]) -> Result<(), AllocError> {
    for number in numbers {
        out.push_str(word)?;
        out.push_str(["0", "1"].get(*number).unwrap_or(&"?"))?;
    }
    Ok(())
}

fn put_nodes(out: &mut String, nodes: &[LifetimeNode]) -> Result<(), AllocError> {
    for node in nodes {
        out.push_str(" '")?;
        out.push_str(node.name.as_str())?;
        put_numbers(out, " below ", node.longer.as_slice())?;
        put_numbers(out, " above ", node.shorter.as_slice())?;
    }
    Ok(())
}

/// A mark, unless there are no documents and attributes.
fn put_notes(out: &mut String, docs: &Docs, attrs: &Attrs) -> Result<(), AllocError> {
    if !docs.blocks.is_empty() || !docs.links.is_empty() {
        out.push_str(" documented")?;
    }
    put_attrs(out, attrs)
}

/// A mark, unless there are no attributes.
pub fn put_attrs(out: &mut String, attrs: &Attrs) -> Result<(), AllocError> {
    let has_lists = !attrs.features.is_empty() || !attrs.marks.is_empty();
    if has_lists || !attrs.abi_rename.is_empty() || attrs.deprecated.is_some() {
        out.push_str(" marked")?;
    }
    Ok(())
}

/// A mark, unless there are no methods.
fn put_methods(out: &mut String, methods: &[Method]) -> Result<(), AllocError> {
    if !methods.is_empty() {
        out.push_str(" methods")?;
    }
    Ok(())
}

fn put_opaque(out: &mut String, item: &OpaqueType) -> Result<(), AllocError> {
    out.push_str("opaque ")?;
    out.push_str(item.name.as_str())?;
    out.push_str(" freed by ")?;
    out.push_str(item.dtor_abi_name.as_str())?;
    put_nodes(out, item.lifetimes.nodes.as_slice())?;
    if item.mutability.is_mutable() {
        out.push_str(" mutable")?;
    }
    put_methods(out, item.methods.as_slice())?;
    put_notes(out, &item.docs, &item.attrs)
}

fn put_fields(out: &mut String, fields: &[Field]) -> Result<(), AllocError> {
    for field in fields {
        out.push_str(", ")?;
        out.push_str(field.name.as_str())?;
        out.push_str(": ")?;
        put_type(out, &field.ty)?;
        put_notes(out, &field.docs, &field.attrs)?;
    }
    Ok(())
}

fn put_struct(out: &mut String, item: &Struct) -> Result<(), AllocError> {
    out.push_str("struct ")?;
    out.push_str(item.name.as_str())?;
    put_nodes(out, item.lifetimes.nodes.as_slice())?;
    put_fields(out, item.fields.as_slice())?;
    if item.output_only {
        out.push_str(" returned only")?;
    }
    put_methods(out, item.methods.as_slice())?;
    put_notes(out, &item.docs, &item.attrs)
}

fn put_params(out: &mut String, params: &[Param]) -> Result<(), AllocError> {
    for param in params {
        out.push_str(", ")?;
        out.push_str(param.name.as_str())?;
        out.push_str(": ")?;
        put_type(out, &param.ty)?;
        put_attrs(out, &param.attrs)?;
    }
    Ok(())
}

fn put_return(out: &mut String, ty: &Option<TypeName>) -> Result<(), AllocError> {
    if let Some(ty) = ty {
        out.push_str(" -> ")?;
        put_type(out, ty)?;
    }
    Ok(())
}

fn put_function(out: &mut String, item: &Function) -> Result<(), AllocError> {
    out.push_str("fn ")?;
    out.push_str(item.name.as_str())?;
    out.push_str(" as ")?;
    out.push_str(item.abi_name.as_str())?;
    put_nodes(out, item.lifetimes.nodes.as_slice())?;
    put_params(out, item.params.as_slice())?;
    put_return(out, &item.output_type)?;
    put_notes(out, &item.docs, &item.attrs)
}

/// An item, with all its parts.
pub fn line_of(alloc: Global, item: &Item) -> Result<String, AllocError> {
    let mut out = String::new(alloc);
    match item {
        Item::Opaque(item) => put_opaque(&mut out, item)?,
        Item::Struct(item) => put_struct(&mut out, item)?,
        Item::Function(item) => put_function(&mut out, item)?,
        Item::Enum(_) | Item::Trait(_) => out.push_str("?")?,
    }
    Ok(out)
}
