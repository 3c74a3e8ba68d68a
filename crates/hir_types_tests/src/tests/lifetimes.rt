//! The lifetimes of types, in their order.

use crate::tests::{
    enumeration, exclusive, has_lifetimes, lifetime, opaque, out_structure, shared, structure,
};
use bridge_decl::Boxed;
use hir_ids::{MaybeOwn, PrimitiveType};
use hir_life::{Lifetime, MaybeStatic};
use hir_types::{HirType, OutType, OutputOnly, ReturnableStructPath, Slice};
use std::alloc::Global;
use std::process::Abort;
use std::test::Fail;

/// Compares the lifetimes of a type that is equal to this one, and those of an option of it, with
/// these numbers, where none stands for `'static`.
fn compare(
    rt: &impl Abort,
    alloc: Global,
    ty: OutType,
    numbers: &[Option<usize>],
) -> Result<(), Fail> {
    compare_copy(rt, alloc, &ty, numbers)?;
    compare_option(rt, alloc, ty, numbers)
}

/// Compares the lifetimes of an equal type with these numbers.
fn compare_copy(
    rt: &impl Abort,
    alloc: Global,
    ty: &OutType,
    numbers: &[Option<usize>],
) -> Result<(), Fail> {
    let copy = ty.try_clone(alloc)?;
    assert!(rt; has_lifetimes(&copy, numbers));
    Ok(())
}

/// Compares the lifetimes of an option of the type with these numbers.
fn compare_option(
    rt: &impl Abort,
    alloc: Global,
    ty: OutType,
    numbers: &[Option<usize>],
) -> Result<(), Fail> {
    let option: OutType = HirType::DiplomatOption(Boxed::new(alloc, ty)?);
    assert!(rt; has_lifetimes(&option, numbers));
    Ok(())
}

/// What an opaque gives its definition.
const GENERICS: [Option<usize>; 3] = [Some(4), None, Some(1)];

#[test]
fn an_opaque_has_its_borrow_last(rt: HostRuntime) -> Result<(), Fail> {
    let path = opaque(rt.alloc(), &GENERICS, false, MaybeOwn::Borrow(shared(2)))?;
    let numbers = [Some(4), None, Some(1), Some(2)];
    compare(&rt, rt.alloc(), HirType::Opaque(path), &numbers)
}

#[test]
fn an_owned_opaque_has_no_borrow(rt: HostRuntime) -> Result<(), Fail> {
    let path = opaque(rt.alloc(), &GENERICS, true, MaybeOwn::Own)?;
    compare(&rt, rt.alloc(), HirType::Opaque(path), &GENERICS)
}

#[test]
fn a_struct_has_its_generics(rt: HostRuntime) -> Result<(), Fail> {
    let numbers = [Some(3), Some(0)];
    let path = structure(rt.alloc(), &numbers, MaybeOwn::Borrow(shared(7)))?;
    let ty = HirType::Struct(ReturnableStructPath::Struct(path));
    compare(&rt, rt.alloc(), ty, &numbers)
}

#[test]
fn an_out_struct_has_its_generics(rt: HostRuntime) -> Result<(), Fail> {
    let numbers = [None, Some(6)];
    let path = out_structure(rt.alloc(), &numbers)?;
    let ty = HirType::Struct(ReturnableStructPath::OutStruct(path));
    compare(&rt, rt.alloc(), ty, &numbers)
}

#[test]
fn a_slice_has_its_own_last(rt: HostRuntime) -> Result<(), Fail> {
    let element = opaque(rt.alloc(), &[Some(5)], false, exclusive(9))?;
    let slice = HirType::Slice(Slice::Opaque(MaybeOwn::Borrow(shared(8)), element));
    compare(&rt, rt.alloc(), slice, &[Some(5), Some(9), Some(8)])
}

#[test]
fn an_owned_slice_has_no_other(rt: HostRuntime) -> Result<(), Fail> {
    let element = opaque(rt.alloc(), &[], false, shared(9))?;
    let slice = HirType::Slice(Slice::Opaque(MaybeOwn::Own, element));
    compare(&rt, rt.alloc(), slice, &[Some(9)])
}

#[test]
fn a_slice_of_structs_has_its_own_last(rt: HostRuntime) -> Result<(), Fail> {
    let path = structure(rt.alloc(), &[Some(2)], MaybeOwn::Own)?;
    let element = ReturnableStructPath::Struct(path);
    let slice = HirType::Slice(Slice::Struct(MaybeOwn::Borrow(shared(8)), element));
    compare(&rt, rt.alloc(), slice, &[Some(2), Some(8)])
}

#[test]
fn all_else_has_none(rt: HostRuntime) -> Result<(), Fail> {
    let alloc = rt.alloc();
    compare(&rt, alloc, HirType::Primitive(PrimitiveType::Bool), &[])?;
    compare(&rt, alloc, HirType::Enum(enumeration()), &[])
}

/// The lifetime of a slice, so held, of opaques that are borrowed for `'9`.
fn of_opaques(alloc: Global, owner: MaybeOwn) -> Result<Option<MaybeStatic<Lifetime>>, Fail> {
    let element = opaque(alloc, &[Some(5)], false, shared(9))?;
    let slice: Slice<OutputOnly> = Slice::Opaque(owner, element);
    Ok(slice.lifetime().copied())
}

#[test]
fn an_owned_slice_of_opaques_lives_as_these(rt: HostRuntime) -> Result<(), Fail> {
    let owned = of_opaques(rt.alloc(), MaybeOwn::Own)?;
    assert!(rt; owned == Some(lifetime(Some(9))));
    let borrowed = of_opaques(rt.alloc(), MaybeOwn::Borrow(shared(3)))?;
    assert!(rt; borrowed == Some(lifetime(Some(3))));
    Ok(())
}
