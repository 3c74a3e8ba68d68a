//! Contexts as texts: a line for each definition, and one for each method after it.

use crate::tests::signatures::{put_callback, put_docs, put_env, put_marks, put_method, put_type};
use bridge_decl::{NoMemory, Text};
use hir_attrs::Attrs;
use hir_definitions::{EnumVariant, Method, StructField};
use hir_docs::Docs;
use hir_lower::TypeContext;
use hir_types::{Callback, TyPosition};
use std::alloc::Global;

/// Begins the line of a definition.
fn put_name(text: &mut String, kind: &str, module: &[Text], name: &str) -> Result<(), NoMemory> {
    text.push_str(kind)?;
    for segment in module {
        text.push_str(segment.as_str())?;
        text.push_str("::")?;
    }
    text.push_str(name)
}

/// Adds marks and documents.
fn put_notes(text: &mut String, attrs: &Attrs, docs: &Docs) -> Result<(), NoMemory> {
    put_marks(text, attrs)?;
    put_docs(text, docs)
}

/// Adds fields.
fn put_fields<P: TyPosition>(
    alloc: Global,
    text: &mut String,
    fields: &[StructField<P>],
) -> Result<(), NoMemory> {
    for field in fields {
        text.push_str("\n  ")?;
        text.push_str(field.name.as_str())?;
        text.push_str(": ")?;
        put_type(alloc, text, &field.ty)?;
        put_notes(text, &field.attrs, &field.docs)?;
    }
    Ok(())
}

/// Adds variants.
fn put_variants(
    alloc: Global,
    text: &mut String,
    variants: &[EnumVariant],
) -> Result<(), NoMemory> {
    for variant in variants {
        text.push_str("\n  ")?;
        text.push_str(variant.name.as_str())?;
        text.push_str(" = ")?;
        text.push_str(variant.discriminant.to_string(alloc)?.as_str())?;
        put_notes(text, &variant.attrs, &variant.docs)?;
    }
    Ok(())
}

/// Adds methods of a type.
fn put_methods(alloc: Global, text: &mut String, methods: &[Method]) -> Result<(), NoMemory> {
    for method in methods {
        text.push_str("\n  fn ")?;
        put_method(alloc, text, method)?;
    }
    Ok(())
}

/// Adds methods of a trait.
fn put_callbacks(alloc: Global, text: &mut String, methods: &[Callback]) -> Result<(), NoMemory> {
    for method in methods {
        text.push_str("\n  fn ")?;
        put_callback(alloc, text, method)?;
    }
    Ok(())
}

/// Adds the out-structs.
fn put_out_structs(alloc: Global, text: &mut String, tcx: &TypeContext) -> Result<(), NoMemory> {
    let listed = &tcx.definitions.out_structs;
    for (def, module) in listed
        .defs
        .as_slice()
        .iter()
        .zip(listed.modules.as_slice().iter())
    {
        put_name(text, "\nout_struct ", module.as_slice(), def.name.as_str())?;
        put_env(alloc, text, &def.lifetimes)?;
        put_notes(text, &def.attrs, &def.docs)?;
        put_fields(alloc, text, def.fields.as_slice())?;
        put_methods(alloc, text, def.methods.as_slice())?;
    }
    Ok(())
}

/// Adds the structs.
fn put_structs(alloc: Global, text: &mut String, tcx: &TypeContext) -> Result<(), NoMemory> {
    let listed = &tcx.definitions.structs;
    for (def, module) in listed
        .defs
        .as_slice()
        .iter()
        .zip(listed.modules.as_slice().iter())
    {
        put_name(text, "\nstruct ", module.as_slice(), def.name.as_str())?;
        put_env(alloc, text, &def.lifetimes)?;
        put_notes(text, &def.attrs, &def.docs)?;
        put_fields(alloc, text, def.fields.as_slice())?;
        put_methods(alloc, text, def.methods.as_slice())?;
    }
    Ok(())
}

/// Adds the opaques.
fn put_opaques(alloc: Global, text: &mut String, tcx: &TypeContext) -> Result<(), NoMemory> {
    let listed = &tcx.definitions.opaques;
    for (def, module) in listed
        .defs
        .as_slice()
        .iter()
        .zip(listed.modules.as_slice().iter())
    {
        put_name(text, "\nopaque ", module.as_slice(), def.name.as_str())?;
        text.push_str(" = ")?;
        text.push_str(def.dtor_abi_name.as_str())?;
        put_env(alloc, text, &def.lifetimes)?;
        put_notes(text, &def.attrs, &def.docs)?;
        put_methods(alloc, text, def.methods.as_slice())?;
    }
    Ok(())
}

/// Adds the enums.
fn put_enums(alloc: Global, text: &mut String, tcx: &TypeContext) -> Result<(), NoMemory> {
    let listed = &tcx.definitions.enums;
    for (def, module) in listed
        .defs
        .as_slice()
        .iter()
        .zip(listed.modules.as_slice().iter())
    {
        put_name(text, "\nenum ", module.as_slice(), def.name.as_str())?;
        put_notes(text, &def.attrs, &def.docs)?;
        put_variants(alloc, text, def.variants.as_slice())?;
        put_methods(alloc, text, def.methods.as_slice())?;
    }
    Ok(())
}

/// Adds the traits.
fn put_traits(alloc: Global, text: &mut String, tcx: &TypeContext) -> Result<(), NoMemory> {
    let listed = &tcx.definitions.traits;
    for (def, module) in listed
        .defs
        .as_slice()
        .iter()
        .zip(listed.modules.as_slice().iter())
    {
        put_name(text, "\ntrait ", module.as_slice(), def.name.as_str())?;
        put_env(alloc, text, &def.lifetimes)?;
        put_notes(text, &def.attrs, &def.docs)?;
        put_callbacks(alloc, text, def.methods.as_slice())?;
    }
    Ok(())
}

/// Adds the functions.
fn put_functions(alloc: Global, text: &mut String, tcx: &TypeContext) -> Result<(), NoMemory> {
    let listed = &tcx.definitions.functions;
    for (def, module) in listed
        .defs
        .as_slice()
        .iter()
        .zip(listed.modules.as_slice().iter())
    {
        put_name(text, "\nfn ", module.as_slice(), "")?;
        put_method(alloc, text, def)?;
    }
    Ok(())
}

/// All definitions, kind by kind, each after the end of a line.
pub fn rendered(alloc: Global, tcx: &TypeContext) -> Result<String, NoMemory> {
    let mut text = String::new(alloc);
    put_out_structs(alloc, &mut text, tcx)?;
    put_structs(alloc, &mut text, tcx)?;
    put_opaques(alloc, &mut text, tcx)?;
    put_enums(alloc, &mut text, tcx)?;
    put_traits(alloc, &mut text, tcx)?;
    put_functions(alloc, &mut text, tcx)?;
    Ok(text)
}
