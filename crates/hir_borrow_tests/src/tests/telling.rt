//! What is told of inputs when they are visited.

use crate::tests::made::{Made, Of, STATIC};
use crate::tests::signatures::{Signature, context, function};
use bridge_decl::NoMemory;
use hir_borrow::{BorrowingParamVisitor, MethodVisitors, ParamBorrowInfo, StructBorrowInfo};
use hir_context::TypeContext;
use hir_definitions::{Method, Param};
use hir_life::Lifetime;
use std::alloc::Global;
use std::process::Abort;
use std::test::Fail;

/// What is told of an input.
#[derive(Clone, Copy, PartialEq)]
enum Told {
    NotBorrowed,
    TemporarySlice,
    BorrowedSlice,
    /// With how many of its lifetimes something is held, and how many for its first.
    Struct(usize, usize),
    BorrowedOpaque,
}

/// A struct with two lifetimes.
const STRUCTS: &[Made] = &[(2, &[("page", Of::Opaque(0, &[1]))])];

/// A function with `'a` and `'b: 'a`, which returns something for both.
const TAKING: Signature = Signature {
    bounded: true,
    count: 3,
    receiver: None,
    params: &[
        ("number", Of::Number),
        ("text", Of::Text(&[1])),
        ("brief", Of::Text(&[2])),
        ("owned", Of::OptionalText(&[])),
        ("texts", Of::Texts),
        ("page", Of::Opaque(0, &[])),
        ("other", Of::Opaque(2, &[STATIC])),
        ("within", Of::Opaque(2, &[1])),
        ("mark", Of::Optional(0, &[1, STATIC])),
        ("pair", Of::Struct(0, &[0, 1])),
        ("free", Of::Struct(0, &[2, STATIC])),
        ("pages", Of::Opaques(&[], 0, &[])),
    ],
    returned: &[0, 1],
};

/// What is told of each, in order.
const EXPECTED: [Told; 12] = [
    Told::NotBorrowed,
    Told::BorrowedSlice,
    Told::TemporarySlice,
    Told::TemporarySlice,
    Told::TemporarySlice,
    Told::BorrowedOpaque,
    Told::NotBorrowed,
    Told::BorrowedOpaque,
    Told::Struct(1, 2),
    Told::Struct(2, 1),
    Told::NotBorrowed,
    Told::BorrowedSlice,
];

/// What is told of a struct.
fn told_of_struct(told: &StructBorrowInfo<'_>) -> Told {
    let map = &told.borrowed_struct_lifetime_map;
    let first = map.get(&Lifetime::new(0)).map_or(0, |set| set.len());
    Told::Struct(map.len(), first)
}

/// What is told of a parameter.
fn told_of<'tcx>(
    visitor: &mut BorrowingParamVisitor<'tcx>,
    param: &'tcx Param,
) -> Result<Told, NoMemory> {
    let told = visitor.visit_param(&param.ty, param.name.as_str())?;
    Ok(match &told {
        ParamBorrowInfo::NotBorrowed => Told::NotBorrowed,
        ParamBorrowInfo::TemporarySlice => Told::TemporarySlice,
        ParamBorrowInfo::BorrowedSlice => Told::BorrowedSlice,
        ParamBorrowInfo::BorrowedOpaque => Told::BorrowedOpaque,
        ParamBorrowInfo::Struct(of_struct) => told_of_struct(of_struct),
    })
}

/// Lifetimes, and how many outlive each, if it is kept.
const LONGER: [(usize, Option<usize>); 3] = [(0, Some(2)), (1, Some(1)), (2, None)];

/// Whether so many lifetimes outlive each.
fn are_longer(visitor: &BorrowingParamVisitor<'_>) -> bool {
    for (number, expected) in &LONGER {
        let longer = visitor.all_longer_lifetimes(Lifetime::new(*number));
        if longer.map(|set| set.len()) != *expected {
            return false;
        }
    }
    true
}

/// Compares what is told of each parameter.
fn compare_params<'tcx>(
    rt: &impl Abort,
    visitor: &mut BorrowingParamVisitor<'tcx>,
    method: &'tcx Method,
) -> Result<(), Fail> {
    for (param, expected) in method.params.as_slice().iter().zip(EXPECTED.iter()) {
        assert!(rt; told_of(visitor, param)? == *expected);
    }
    Ok(())
}

/// Compares which lifetimes outlive each, and what is told of each parameter.
fn compare_told<'tcx>(
    rt: &impl Abort,
    visitor: &mut BorrowingParamVisitor<'tcx>,
    method: &'tcx Method,
) -> Result<(), Fail> {
    assert!(rt; are_longer(visitor));
    compare_params(rt, visitor, method)
}

/// The same by a visitor that has visited none.
fn compare(rt: &impl Abort, alloc: Global, tcx: &TypeContext) -> Result<(), Fail> {
    let method = function(tcx)?;
    let mut visitor = method.borrowing_param_visitor(alloc, tcx, false)?;
    compare_told(rt, &mut visitor, method)
}

#[test]
fn visits_tell_of_inputs(rt: HostRuntime) -> Result<(), Fail> {
    let tcx = context(rt.alloc(), STRUCTS, &TAKING)?;
    compare(&rt, rt.alloc(), &tcx)
}
