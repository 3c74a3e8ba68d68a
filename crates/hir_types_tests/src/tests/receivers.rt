//! What is asked of receivers.

use crate::tests::{HELD, enumeration, exclusive, lifetime_list, owner_of, shared, structure};
use hir_ids::{Borrow, EnumId, MaybeOwn, NonOptional, OpaqueId, StructId, TypeId};
use hir_types::{Everywhere, HirType, OpaquePath, SelfType};
use std::alloc::Global;
use std::process::Abort;
use std::test::Fail;

/// What the table says of one receiver.
#[derive(Clone, Copy)]
struct Row {
    id: TypeId,
    immutably: bool,
    mutably: bool,
    consuming: bool,
}

/// Whether what is asked of the receiver is what the row says.
fn is_so(receiver: &SelfType, row: &Row) -> bool {
    receiver.is_immutably_borrowed() == row.immutably
        && receiver.is_mutably_borrowed() == row.mutably
        && receiver.is_consuming() == row.consuming
}

/// Whether what is asked of the type that it is elsewhere is what the row says.
fn is_so_elsewhere(ty: &HirType<Everywhere>, row: &Row) -> bool {
    ty.id() == Some(row.id)
        && !ty.is_option()
        && ty.is_immutably_borrowed() == row.immutably
        && ty.is_mutably_borrowed() == row.mutably
}

/// Compares what is asked of the receiver, and of the type that it is elsewhere, with the row.
fn compare(rt: &impl Abort, receiver: SelfType, row: &Row) {
    assert!(rt; is_so(&receiver, row));
    let ty: HirType<Everywhere> = HirType::from(receiver);
    assert!(rt; is_so_elsewhere(&ty, row));
}

/// Compares an opaque so borrowed.
fn compare_opaque(rt: &impl Abort, alloc: Global, owner: Borrow, row: &Row) -> Result<(), Fail> {
    let path = OpaquePath {
        lifetimes: lifetime_list(alloc, &[Some(1)])?,
        optional: NonOptional,
        owner,
        tcx_id: OpaqueId::new(2),
    };
    compare(rt, SelfType::Opaque(path), row);
    Ok(())
}

/// What is said of an opaque that may be written through its borrow, or may not be.
fn borrowed(mutably: bool) -> Row {
    Row {
        id: TypeId::Opaque(OpaqueId::new(2)),
        immutably: !mutably,
        mutably,
        consuming: false,
    }
}

#[test]
fn opaques_are_borrowed(rt: HostRuntime) -> Result<(), Fail> {
    compare_opaque(&rt, rt.alloc(), shared(0), &borrowed(false))?;
    compare_opaque(&rt, rt.alloc(), exclusive(0), &borrowed(true))
}

/// Compares a struct so held.
fn compare_struct(rt: &impl Abort, alloc: Global, owner: MaybeOwn, row: &Row) -> Result<(), Fail> {
    let path = structure(alloc, &[], owner)?;
    compare(rt, SelfType::Struct(path), row);
    Ok(())
}

#[test]
fn structs_are_either(rt: HostRuntime) -> Result<(), Fail> {
    for (borrowed, immutably, mutably) in &HELD {
        let row = Row {
            id: TypeId::Struct(StructId::new(1)),
            immutably: *immutably,
            mutably: *mutably,
            consuming: !*immutably && !*mutably,
        };
        compare_struct(&rt, rt.alloc(), owner_of(*borrowed), &row)?;
    }
    Ok(())
}

#[test]
fn enums_are_consumed(rt: HostRuntime) {
    let row = Row {
        id: TypeId::Enum(EnumId::new(0)),
        immutably: false,
        mutably: false,
        consuming: true,
    };
    compare(&rt, SelfType::Enum(enumeration()), &row);
}
