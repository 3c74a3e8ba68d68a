//! What is asked of a context with definitions of all kinds: two structs, and one of each other.

use crate::tests::made::{
    Of, add_opaque, add_struct, enumeration, function, in_root, interface, no_parts, out_struct,
};
use crate::tests::paths::{compare_links, compare_paths, compare_positions};
use bridge_decl::{Items, Text};
use hir_context::{ContextParts, Placed, TypeContext};
use hir_ids::{EnumId, FunctionId, OpaqueId, OutStructId, StructId, SymbolId, TraitId, TypeId};
use std::alloc::Global;
use std::process::Abort;
use std::test::Fail;

/// The structs `Line` and `Rest`, and the opaque `Page`, which has two lifetimes.
fn add_types(alloc: Global, parts: &mut ContextParts) -> Result<(), Fail> {
    add_struct(
        alloc,
        parts,
        "Line",
        2,
        &[Of::Opaque(0, &[0, 1]), Of::Struct(1, &[])],
    )?;
    add_struct(alloc, parts, "Rest", 0, &[])?;
    add_opaque(alloc, parts, 2, None)
}

/// The out-struct `Found`.
fn add_out_struct(alloc: Global, parts: &mut ContextParts) -> Result<(), Fail> {
    let def = out_struct(alloc, "Found", 1)?;
    parts.out_structs.push(in_root(alloc, def))?;
    Ok(())
}

/// The enum `Color`.
fn add_enum(alloc: Global, parts: &mut ContextParts) -> Result<(), Fail> {
    let def = enumeration(alloc, "Color")?;
    parts.enums.push(in_root(alloc, def))?;
    Ok(())
}

/// The trait `Sink`.
fn add_trait(alloc: Global, parts: &mut ContextParts) -> Result<(), Fail> {
    let def = interface(alloc, "Sink")?;
    parts.traits.push(in_root(alloc, def))?;
    Ok(())
}

/// All three.
fn add_others(alloc: Global, parts: &mut ContextParts) -> Result<(), Fail> {
    add_out_struct(alloc, parts)?;
    add_enum(alloc, parts)?;
    add_trait(alloc, parts)
}

/// Goes one module deeper.
fn add_module(alloc: Global, path: &mut Items<Text>) -> Result<(), Fail> {
    let name = Text::new(alloc, "files")?;
    path.push(name)?;
    Ok(())
}

/// The path of a module so deep.
fn path_of(alloc: Global, depth: usize) -> Result<Items<Text>, Fail> {
    let mut path = Items::new(alloc);
    for _ in 0..depth {
        add_module(alloc, &mut path)?;
    }
    Ok(path)
}

/// A function of this name, in a module so deep.
fn add_function(
    alloc: Global,
    parts: &mut ContextParts,
    called: &str,
    depth: usize,
) -> Result<(), Fail> {
    let module = path_of(alloc, depth)?;
    let def = function(alloc, called)?;
    parts.functions.push(Placed { def, module })?;
    Ok(())
}

/// All these, and the functions `find` and `files::files::read`.
fn add_all(alloc: Global, parts: &mut ContextParts) -> Result<(), Fail> {
    add_types(alloc, parts)?;
    add_others(alloc, parts)?;
    add_function(alloc, parts, "find", 0)?;
    add_function(alloc, parts, "read", 2)
}

/// The context of these parts.
fn made(alloc: Global, parts: ContextParts) -> Result<TypeContext, Fail> {
    match TypeContext::new(alloc, parts) {
        Ok(tcx) => Ok(tcx),
        Err(_) => Err(Fail::from("there is no context")),
    }
}

/// The context of all these.
fn context(alloc: Global) -> Result<TypeContext, Fail> {
    let mut parts = no_parts(alloc);
    add_all(alloc, &mut parts)?;
    made(alloc, parts)
}

/// The id of the type at a place among all.
fn id_at(place: usize) -> TypeId {
    match place {
        0 => TypeId::Struct(StructId::new(0)),
        1 => TypeId::Struct(StructId::new(1)),
        2 => TypeId::OutStruct(OutStructId::new(0)),
        3 => TypeId::Opaque(OpaqueId::new(0)),
        _ => TypeId::Enum(EnumId::new(0)),
    }
}

/// The name of that type.
fn name_at(place: usize) -> &'static str {
    match place {
        0 => "Line",
        1 => "Rest",
        2 => "Found",
        3 => "Page",
        4 => "Color",
        _ => "",
    }
}

/// The name of the function at a place among all.
fn function_at(place: usize) -> &'static str {
    match place {
        0 => "find",
        1 => "read",
        _ => "",
    }
}

/// Whether both names are the same.
fn is_called(name: &str, expected: &str) -> bool {
    name == expected
}

/// Compares all types of the context with the table.
fn compare_types(rt: &impl Abort, tcx: &TypeContext) {
    let mut place: usize = 0;
    for (id, def) in tcx.all_types() {
        assert!(rt; id == id_at(place) && is_called(def.name().as_str(), name_at(place)));
        place = place.wrapping_add(1);
    }
    assert!(rt; place == 5);
}

/// Compares all functions of the context.
fn compare_functions(rt: &impl Abort, tcx: &TypeContext) {
    let mut place: usize = 0;
    for (id, def) in tcx.all_free_functions() {
        assert!(rt;
            id == FunctionId::new(place) && is_called(def.name.as_str(), function_at(place))
        );
        place = place.wrapping_add(1);
    }
    assert!(rt; place == 2);
}

/// Compares all traits of the context: there is one.
fn compare_traits(rt: &impl Abort, tcx: &TypeContext) {
    let mut count: usize = 0;
    for (id, def) in tcx.all_traits() {
        assert!(rt; id == TraitId::new(0) && def.name.as_str() == "Sink");
        count = count.wrapping_add(1);
    }
    assert!(rt; count == 1);
}

/// The name of the definition of an id, and how deep its module is, where there is one.
fn found<'a>(tcx: &'a TypeContext, id: &SymbolId) -> Option<(&'a str, usize)> {
    if tcx.contains_symbol(*id) {
        let depth = tcx.module_path(*id).len();
        Some((tcx.fmt_symbol_name_diagnostics(*id), depth))
    } else {
        None
    }
}

/// A kind of definition.
#[derive(Clone, Copy)]
enum Kind {
    Struct,
    OutStruct,
    Opaque,
    Enum,
    Trait,
    Function,
}

/// The definition of this kind with this number.
fn symbol(kind: Kind, number: usize) -> SymbolId {
    match kind {
        Kind::Struct => SymbolId::TypeId(TypeId::Struct(StructId::new(number))),
        Kind::OutStruct => SymbolId::TypeId(TypeId::OutStruct(OutStructId::new(number))),
        Kind::Opaque => SymbolId::TypeId(TypeId::Opaque(OpaqueId::new(number))),
        Kind::Enum => SymbolId::TypeId(TypeId::Enum(EnumId::new(number))),
        Kind::Trait => SymbolId::TraitId(TraitId::new(number)),
        Kind::Function => SymbolId::FunctionId(FunctionId::new(number)),
    }
}

/// Definitions with their names and how deep their modules are, where they are there.
const NAMES: [(Kind, usize, Option<(&str, usize)>); 11] = [
    (Kind::Struct, 1, Some(("Rest", 0))),
    (Kind::Struct, 2, None),
    (Kind::OutStruct, 0, Some(("Found", 0))),
    (Kind::OutStruct, 1, None),
    (Kind::Opaque, 0, Some(("Page", 0))),
    (Kind::Enum, 0, Some(("Color", 0))),
    (Kind::Enum, 1, None),
    (Kind::Trait, 0, Some(("Sink", 0))),
    (Kind::Trait, 1, None),
    (Kind::Function, 1, Some(("read", 2))),
    (Kind::Function, 2, None),
];

/// Compares the names and modules of ids with the table.
fn compare_names(rt: &impl Abort, tcx: &TypeContext) {
    for (kind, number, expected) in &NAMES {
        assert!(rt; found(tcx, &symbol(*kind, *number)) == *expected);
    }
}

/// Compares all that is asked of the context.
fn compare_all(rt: &impl Abort, alloc: Global, tcx: &TypeContext) -> Result<(), Fail> {
    compare_types(rt, tcx);
    compare_functions(rt, tcx);
    compare_traits(rt, tcx);
    compare_names(rt, tcx);
    compare_positions(rt, tcx)?;
    compare_links(rt, alloc, tcx)?;
    compare_paths(rt, alloc, tcx)
}

#[test]
fn a_context_has_what_is_asked(rt: HostRuntime) -> Result<(), Fail> {
    let tcx = context(rt.alloc())?;
    compare_all(&rt, rt.alloc(), &tcx)
}
