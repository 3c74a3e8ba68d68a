//! What is asked of paths.

use crate::tests::{enumeration, exclusive, lifetime, opaque, out_structure, shared, structure};
use hir_ids::{
    Borrow, EnumId, MaybeOwn, NonOptional, OpaqueId, Optional, OutStructId, StructId, TypeId,
};
use hir_life::{Lifetime, Lifetimes, MaybeStatic};
use hir_types::{OpaquePath, ReturnableStructPath, StructPathLike};
use std::alloc::Global;
use std::process::Abort;
use std::test::Fail;

/// The lifetime of a borrow, and whether it may be written through.
type Seen = Option<(MaybeStatic<Lifetime>, bool)>;

/// What is seen of a borrow.
fn seen(borrow: Option<&Borrow>) -> Seen {
    borrow.map(|borrow| (borrow.lifetime, borrow.mutability.is_mutable()))
}

/// Whether the path has one lifetime, of this number.
fn has_lifetime(lifetimes: &Lifetimes, number: usize) -> bool {
    lifetimes.len() == 1 && lifetimes.as_slice().first().copied() == Some(lifetime(Some(number)))
}

/// Compares what is asked of a path to a struct with its id, its owner and its one lifetime.
fn compare<S: StructPathLike>(
    rt: &impl Abort,
    path: &S,
    id: TypeId,
    owner: MaybeOwn,
    number: usize,
) {
    assert!(rt; path.id() == id);
    assert!(rt; seen(path.owner().as_borrowed()) == seen(owner.as_borrowed()));
    assert!(rt; has_lifetime(path.lifetimes(), number));
}

/// Whether what is asked of a path to the third opaque, held so, is this.
fn is_so(path: &OpaquePath<Optional, MaybeOwn>, optional: bool, borrow: Seen) -> bool {
    path.id() == TypeId::Opaque(OpaqueId::new(2))
        && path.is_optional() == optional
        && path.is_owned() == borrow.is_none()
        && seen(path.as_borrowed()) == borrow
}

/// Compares what is asked of an opaque, held so.
fn compare_opaque(
    rt: &impl Abort,
    alloc: Global,
    optional: bool,
    owner: MaybeOwn,
    borrow: Seen,
) -> Result<(), Fail> {
    let path = opaque(alloc, &[], optional, owner)?;
    assert!(rt; is_so(&path, optional, borrow));
    Ok(())
}

/// Compares what is asked of an opaque that may be written through its borrow.
fn compare_exclusive(rt: &impl Abort, alloc: Global, optional: bool) -> Result<(), Fail> {
    let owner = MaybeOwn::Borrow(exclusive(4));
    let borrow = Some((lifetime(Some(4)), true));
    compare_opaque(rt, alloc, optional, owner, borrow)
}

#[test]
fn opaques_may_be_absent_and_owned(rt: HostRuntime) -> Result<(), Fail> {
    let alloc = rt.alloc();
    compare_opaque(&rt, alloc, false, MaybeOwn::Own, None)?;
    compare_exclusive(&rt, alloc, false)?;
    compare_opaque(&rt, alloc, true, MaybeOwn::Own, None)?;
    compare_exclusive(&rt, alloc, true)
}

/// Whether the path is that of a receiver which is borrowed for `'6`, as one of what might be
/// absent.
fn is_wrapped(path: &OpaquePath<Optional, Borrow>) -> bool {
    !path.is_optional()
        && !path.is_owned()
        && path.id() == TypeId::Opaque(OpaqueId::new(9))
        && seen(Some(path.borrowed())) == Some((lifetime(Some(6)), false))
}

#[test]
fn a_receiver_is_one_that_is_not_absent(rt: HostRuntime) {
    let path: OpaquePath<NonOptional, Borrow> = OpaquePath {
        lifetimes: Lifetimes::new(rt.alloc()),
        optional: NonOptional,
        owner: shared(6),
        tcx_id: OpaqueId::new(9),
    };
    assert!(rt; seen(Some(path.borrowed())) == Some((lifetime(Some(6)), false)));
    let wrapped = path.wrap_optional();
    assert!(rt; is_wrapped(&wrapped));
}

#[test]
fn structs_have_lifetimes_ids_and_owners(rt: HostRuntime) -> Result<(), Fail> {
    let path = structure(rt.alloc(), &[Some(7)], MaybeOwn::Borrow(shared(2)))?;
    let id = TypeId::Struct(StructId::new(1));
    compare(&rt, &path, id, MaybeOwn::Borrow(shared(2)), 7);
    Ok(())
}

#[test]
fn returned_structs_are_owned(rt: HostRuntime) -> Result<(), Fail> {
    let path = structure(rt.alloc(), &[Some(8)], MaybeOwn::Own)?;
    let path = ReturnableStructPath::Struct(path);
    let id = TypeId::Struct(StructId::new(1));
    compare(&rt, &path, id, MaybeOwn::Own, 8);
    Ok(())
}

#[test]
fn out_structs_are_owned(rt: HostRuntime) -> Result<(), Fail> {
    let path = ReturnableStructPath::OutStruct(out_structure(rt.alloc(), &[Some(9)])?);
    let id = TypeId::OutStruct(OutStructId::new(3));
    compare(&rt, &path, id, MaybeOwn::Own, 9);
    Ok(())
}

#[test]
fn enums_have_ids(rt: HostRuntime) {
    assert!(rt; enumeration().id() == TypeId::Enum(EnumId::new(0)));
}
