//! What structs tell of their fields.

ghost use Rattle.std.specs.Prelude.{IsTrue};
ghost use Rattle.hir_defs.specs.Linking.{IsLinkable};
ghost use Rattle.hir_ids.specs.declared.ids.TypeId.TheVariants as type;

use crate::tests::made::{Made, Of, STATIC, input_struct, struct_path};
use crate::tests::signatures::{Signature, context};
use hir_borrow::StructBorrowInfo;
use hir_context::TypeContext;
use hir_ids::MaybeOwn;
use hir_life::Lifetime;
use hir_types::StructPath;
use std::alloc::Global;
use std::process::Abort;
use std::test::Fail;

/// A struct with three lifetimes.
const STRUCTS: &[Made] = &[(3, &[])];

/// A function that does nothing.
const NOTHING: Signature = Signature {
    bounded: false,
    count: 0,
    receiver: None,
    params: &[],
    returned: &[],
};

/// What the field of a struct with two lifetimes is given, and at which of its lifetimes it is told
/// which of the two.
const ROWS: [(&[usize], &[(usize, usize)]); 4] = [
    (&[1, 1, STATIC], &[(0, 1), (1, 1)]),
    (&[STATIC, STATIC, STATIC], &[]),
    (&[STATIC, 0, 1], &[(1, 0), (2, 1)]),
    (&[0, STATIC, STATIC], &[(0, 0)]),
];

/// Whether this is told.
fn is_told(told: &StructBorrowInfo<'_>, expected: &[(usize, usize)]) -> bool {
    let map = &told.borrowed_struct_lifetime_map;
    for (at, number) in expected {
        match map.get(&Lifetime::new(*at)) {
            Some(set) if set.len() == 1 && set.contains(&Lifetime::new(*number)) => {}
            _ => return false,
        }
    }
    told.env.num_lifetimes() == 3 && map.len() == expected.len()
}

/// Whether this is told, if anything is; nothing is where nothing is expected.
fn is_answered(told: &Option<StructBorrowInfo<'_>>, expected: &[(usize, usize)]) -> bool {
    match told {
        Some(told) => is_told(told, expected),
        None => expected.len() == 0,
    }
}

/// Whether the struct of the path is there, with as many lifetimes as it is given.
fn links(tcx: &TypeContext, path: &StructPath) -> bool
    ensures { IsTrue result → IsLinkable tcx.now.definitions (type.Struct path.now.tcx_id)
        path.now.lifetimes }
{
    match tcx.structs().get(path.tcx_id.index()) {
        Some(def) => def.lifetimes.num_lifetimes() == path.lifetimes.len(),
        None => false,
    }
}

/// What a struct with two lifetimes tells of the field.
fn told<'tcx>(
    alloc: Global,
    tcx: &'tcx TypeContext,
    path: &StructPath,
) -> Result<Option<StructBorrowInfo<'tcx>>, Fail> {
    if !links(tcx, path) {
        return Err(Fail::from("the field has three lifetimes"));
    }
    let outer = input_struct(alloc, 2, &[], false)?;
    Ok(StructBorrowInfo::compute_for_struct_field(alloc, &outer, path, tcx)?)
}

/// Whether this is told of a field of the path.
fn is_told_of(
    alloc: Global,
    tcx: &TypeContext,
    path: &StructPath,
    expected: &[(usize, usize)],
) -> Result<bool, Fail> {
    let told = told(alloc, tcx, path)?;
    Ok(is_answered(&told, expected))
}

/// Compares what is told of a field that is given these lifetimes.
fn compare_row(
    rt: &impl Abort,
    alloc: Global,
    tcx: &TypeContext,
    numbers: &[usize],
    expected: &[(usize, usize)],
) -> Result<(), Fail> {
    let path = struct_path(alloc, MaybeOwn::Own, 0, numbers)?;
    assert!(rt; is_told_of(alloc, tcx, &path, expected)?);
    Ok(())
}

/// Compares each row.
fn compare_rows(rt: &impl Abort, alloc: Global, tcx: &TypeContext) -> Result<(), Fail> {
    for (numbers, expected) in &ROWS {
        compare_row(rt, alloc, tcx, numbers, expected)?;
    }
    Ok(())
}

#[test]
fn structs_tell_of_their_fields(rt: HostRuntime) -> Result<(), Fail> {
    let tcx = context(rt.alloc(), STRUCTS, &NOTHING)?;
    compare_rows(&rt, rt.alloc(), &tcx)
}
