//! What is asked of types.

use crate::tests::{
    HELD, callback, enumeration, exclusive, opaque, out_structure, owner_of, shared, structure,
    trait_path,
};
use bridge_decl::{Boxed, StringEncoding};
use hir_ids::{EnumId, MaybeOwn, OpaqueId, OutStructId, PrimitiveType, StructId, TypeId};
use hir_types::{HirType, InputOnly, OutType, ReturnableStructPath, Slice, TyPosition};
use std::alloc::Global;
use std::process::Abort;
use std::test::Fail;

/// What the table says of one type.
#[derive(Clone, Copy)]
struct Row {
    id: Option<TypeId>,
    is_option: bool,
    immutably: bool,
    mutably: bool,
}

/// Of a type that names no definition, and may neither be absent nor borrowed.
const PLAIN: Row = Row {
    id: None,
    is_option: false,
    immutably: false,
    mutably: false,
};

/// Of one that names this definition, and may neither be absent nor borrowed.
fn naming(id: TypeId) -> Row {
    Row {
        id: Some(id),
        ..PLAIN
    }
}

/// Whether what is asked of the type is what the row says.
fn is_so<P: TyPosition>(ty: &HirType<P>, row: &Row) -> bool {
    ty.id() == row.id
        && ty.is_option() == row.is_option
        && ty.is_immutably_borrowed() == row.immutably
        && ty.is_mutably_borrowed() == row.mutably
        && ty.unwrap_option().id() == row.id
}

/// Compares what is asked of the type with the row.
fn tell<P: TyPosition>(rt: &impl Abort, ty: &HirType<P>, row: &Row) {
    assert!(rt; is_so(ty, row));
}

/// Compares what is asked of an option of the row's type.
fn tell_option(rt: &impl Abort, option: &OutType, row: &Row) {
    assert!(rt; option.is_option());
    assert!(rt; option.id() == None);
    tell(rt, option.unwrap_option(), row);
}

/// Compares what is asked of the type, of an equal one, and of an option of this, with the row.
fn compare(rt: &impl Abort, alloc: Global, ty: &OutType, row: &Row) -> Result<(), Fail> {
    tell(rt, ty, row);
    let copy = ty.try_clone(alloc)?;
    tell(rt, &copy, row);
    compare_option(rt, alloc, copy, row)
}

/// Compares what is asked of an option of the type.
fn compare_option(rt: &impl Abort, alloc: Global, ty: OutType, row: &Row) -> Result<(), Fail> {
    let option: OutType = HirType::DiplomatOption(Boxed::new(alloc, ty)?);
    tell_option(rt, &option, row);
    Ok(())
}

/// Compares an opaque that is held so.
fn compare_opaque(rt: &impl Abort, alloc: Global, owner: MaybeOwn, row: &Row) -> Result<(), Fail> {
    let path = opaque(alloc, &[], row.is_option, owner)?;
    compare(rt, alloc, &HirType::Opaque(path), row)
}

/// Compares opaques that are held in each way.
fn compare_opaques(rt: &impl Abort, alloc: Global, is_option: bool) -> Result<(), Fail> {
    for (borrowed, immutably, mutably) in &HELD {
        let row = Row {
            id: Some(TypeId::Opaque(OpaqueId::new(2))),
            is_option,
            immutably: *immutably,
            mutably: *mutably,
        };
        compare_opaque(rt, alloc, owner_of(*borrowed), &row)?;
    }
    Ok(())
}

#[test]
fn opaques(rt: HostRuntime) -> Result<(), Fail> {
    compare_opaques(&rt, rt.alloc(), false)?;
    compare_opaques(&rt, rt.alloc(), true)
}

/// Compares a returned struct with what is said of this id.
fn compare_struct(
    rt: &impl Abort,
    alloc: Global,
    path: ReturnableStructPath,
    id: TypeId,
) -> Result<(), Fail> {
    compare(rt, alloc, &HirType::Struct(path), &naming(id))
}

#[test]
fn what_is_returned_owns_its_structs(rt: HostRuntime) -> Result<(), Fail> {
    let path = structure(rt.alloc(), &[], MaybeOwn::Borrow(exclusive(0)))?;
    compare_struct(
        &rt,
        rt.alloc(),
        ReturnableStructPath::Struct(path),
        TypeId::Struct(StructId::new(1)),
    )
}

#[test]
fn what_is_returned_owns_its_out_structs(rt: HostRuntime) -> Result<(), Fail> {
    let path = out_structure(rt.alloc(), &[])?;
    compare_struct(
        &rt,
        rt.alloc(),
        ReturnableStructPath::OutStruct(path),
        TypeId::OutStruct(OutStructId::new(3)),
    )
}

#[test]
fn enums(rt: HostRuntime) -> Result<(), Fail> {
    let row = naming(TypeId::Enum(EnumId::new(0)));
    compare(&rt, rt.alloc(), &HirType::Enum(enumeration()), &row)
}

#[test]
fn primitives(rt: HostRuntime) -> Result<(), Fail> {
    let ty = HirType::Primitive(PrimitiveType::Char);
    compare(&rt, rt.alloc(), &ty, &PLAIN)
}

/// A type that comes in.
type InType = HirType<InputOnly>;

/// Compares a struct that comes in, held so.
fn compare_held(rt: &impl Abort, alloc: Global, owner: MaybeOwn, row: &Row) -> Result<(), Fail> {
    let ty: InType = HirType::Struct(structure(alloc, &[], owner)?);
    tell(rt, &ty, row);
    drop(ty);
    Ok(())
}

#[test]
fn structs_come_in_by_themselves_and_behind_pointers(rt: HostRuntime) -> Result<(), Fail> {
    for (borrowed, immutably, mutably) in &HELD {
        let row = Row {
            id: Some(TypeId::Struct(StructId::new(1))),
            is_option: false,
            immutably: *immutably,
            mutably: *mutably,
        };
        compare_held(&rt, rt.alloc(), owner_of(*borrowed), &row)?;
    }
    Ok(())
}

#[test]
fn callbacks_name_no_definition(rt: HostRuntime) {
    let ty: InType = HirType::Callback(callback(rt.alloc()));
    tell(&rt, &ty, &PLAIN);
    drop(ty);
}

#[test]
fn traits_name_no_definition(rt: HostRuntime) {
    let ty: InType = HirType::ImplTrait(trait_path(rt.alloc()));
    tell(&rt, &ty, &PLAIN);
    drop(ty);
}

#[test]
fn lists_of_texts_name_no_definition(rt: HostRuntime) {
    let ty: InType = HirType::Slice(Slice::Strs(StringEncoding::Utf8));
    tell(&rt, &ty, &PLAIN);
    drop(ty);
}

#[test]
fn slices_name_no_definition(rt: HostRuntime) -> Result<(), Fail> {
    let element = opaque(rt.alloc(), &[], true, shared(0))?;
    let ty: OutType = HirType::Slice(Slice::Opaque(MaybeOwn::Borrow(shared(1)), element));
    tell(&rt, &ty, &PLAIN);
    drop(ty);
    Ok(())
}
