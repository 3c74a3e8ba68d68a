//! The lifetimes of slices of each kind.

use crate::tests::{enumeration, has_lifetimes, lifetime, opaque, shared, structure};
use bridge_decl::{Mutability, StringEncoding};
use hir_ids::{Borrow, MaybeOwn, PrimitiveType};
use hir_types::{HirType, InputOnly, Slice};
use std::alloc::Global;
use std::process::Abort;
use std::test::Fail;

/// A slice that comes in.
type InSlice = Slice<InputOnly>;

/// The number of a slice's own lifetime, where it has one; none stands for `'static`.
type Own = Option<Option<usize>>;

/// The borrow of a slice for the fourth lifetime.
fn held() -> MaybeOwn {
    MaybeOwn::Borrow(shared(3))
}

/// Compares the slice's own lifetime, and all of it as a type, with these numbers, where none
/// stands for `'static`.
fn compare(rt: &impl Abort, slice: InSlice, own: Own, all: &[Option<usize>]) {
    let has_own = slice.lifetime().copied() == own.map(lifetime);
    let ty: HirType<InputOnly> = HirType::Slice(slice);
    let has_all = has_lifetimes(&ty, all);
    drop(ty);
    assert!(rt; has_own);
    assert!(rt; has_all);
}

/// Texts of these lifetimes, and all lifetimes of each.
const TEXTS: [(Own, &[Option<usize>]); 3] = [
    (Some(Some(2)), &[Some(2)]),
    (Some(None), &[None]),
    (None, &[]),
];

/// Compares a text of this lifetime.
fn compare_text(rt: &impl Abort, own: Own, all: &[Option<usize>]) {
    let text = Slice::Str(own.map(lifetime), StringEncoding::UnvalidatedUtf16);
    compare(rt, text, own, all);
}

#[test]
fn texts_have_their_own(rt: HostRuntime) {
    for (own, all) in &TEXTS {
        compare_text(&rt, *own, *all);
    }
}

#[test]
fn lists_of_texts_have_none(rt: HostRuntime) {
    compare(&rt, Slice::Strs(StringEncoding::Utf8), None, &[]);
}

/// Compares bytes that are held so.
fn compare_bytes(rt: &impl Abort, owner: MaybeOwn, own: Own, all: &[Option<usize>]) {
    let bytes = Slice::Primitive(owner, PrimitiveType::Byte);
    compare(rt, bytes, own, all);
}

#[test]
fn primitives_have_their_own(rt: HostRuntime) {
    compare_bytes(&rt, held(), Some(Some(3)), &[Some(3)]);
    compare_bytes(&rt, MaybeOwn::Own, None, &[]);
}

/// Compares a slice of enums that is held so.
fn compare_enums(rt: &impl Abort, owner: MaybeOwn, own: Own, all: &[Option<usize>]) {
    compare(rt, Slice::Enum(owner, enumeration()), own, all);
}

#[test]
fn enums_have_none_besides_their_slice(rt: HostRuntime) {
    compare_enums(&rt, held(), Some(Some(3)), &[Some(3)]);
    compare_enums(&rt, MaybeOwn::Own, None, &[]);
}

/// Compares a slice of structs that is held so.
fn compare_structs(
    rt: &impl Abort,
    alloc: Global,
    owner: MaybeOwn,
    own: Own,
    all: &[Option<usize>],
) -> Result<(), Fail> {
    let element = structure(alloc, &[Some(5), None], MaybeOwn::Own)?;
    compare(rt, Slice::Struct(owner, element), own, all);
    Ok(())
}

#[test]
fn structs_come_before_their_slice(rt: HostRuntime) -> Result<(), Fail> {
    let alloc = rt.alloc();
    let all = [Some(5), None, Some(3)];
    compare_structs(&rt, alloc, held(), Some(Some(3)), &all)?;
    compare_structs(&rt, alloc, MaybeOwn::Own, None, &[Some(5), None])
}

/// `&'static mut T`.
fn forever() -> Borrow {
    Borrow {
        lifetime: lifetime(None),
        mutability: Mutability::Mutable,
    }
}

#[test]
fn opaques_come_before_their_slice(rt: HostRuntime) -> Result<(), Fail> {
    let element = opaque(rt.alloc(), &[Some(1)], true, forever())?;
    let slice = Slice::Opaque(held(), element);
    compare(&rt, slice, Some(Some(3)), &[Some(1), None, Some(3)]);
    Ok(())
}

#[test]
fn an_owned_slice_has_the_lifetime_of_its_opaques(rt: HostRuntime) -> Result<(), Fail> {
    let element = opaque(rt.alloc(), &[Some(1)], false, forever())?;
    let slice = Slice::Opaque(MaybeOwn::Own, element);
    compare(&rt, slice, Some(None), &[Some(1), None]);
    Ok(())
}
