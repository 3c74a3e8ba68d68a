//! Nests of structs, in which each struct is held twice; and structs that are disabled.

use crate::tests::comparing::{Edge, Held, compare_held, compare_leaves, compare_path};
use crate::tests::made::{Of, add_struct, common_parts};
use crate::tests::signatures::{Signature, context_of, function};
use bridge_decl::IdentBuf;
use hir_borrow::{BorrowingFieldVisitor, MethodVisitors};
use hir_context::{ContextParts, TypeContext};
use std::alloc::Global;
use std::process::Abort;
use std::test::Fail;

/// A function that takes the last of ten structs.
const NESTED: Signature = Signature {
    bounded: false,
    count: 1,
    receiver: None,
    params: &[("p", Of::Struct(9, &[0]))],
    returned: &[0],
};

/// Adds a struct that holds this twice.
fn add_twice(alloc: Global, parts: &mut ContextParts, of: Of) -> Result<(), Fail> {
    add_struct(alloc, parts, 1, &[("a", of), ("b", of)], false)
}

/// Adds so many structs: the first holds two opaques, and each other the one before it, twice.
fn add_nest(alloc: Global, parts: &mut ContextParts, count: usize) -> Result<(), Fail> {
    add_twice(alloc, parts, Of::Opaque(0, &[]))?;
    for place in 1..count {
        add_twice(alloc, parts, Of::Struct(place - 1, &[0]))?;
    }
    Ok(())
}

/// The context of so many structs, of which a function takes the tenth.
fn nest(alloc: Global, count: usize) -> Result<TypeContext, Fail> {
    let mut parts = common_parts(alloc)?;
    add_nest(alloc, &mut parts, count)?;
    context_of(alloc, parts, &NESTED)
}

/// Some of the leaves of a nest, the last among them.
const PATHS: [(usize, &str); 3] = [
    (0, "p.a.a.a.a.a.a.a.a.a.a"),
    (1, "p.a.a.a.a.a.a.a.a.a.b"),
    (1023, "p.b.b.b.b.b.b.b.b.b.b"),
];

/// Compares the path of the leaf of a number, where there is one.
fn compare_path_of(
    rt: &impl Abort,
    alloc: Global,
    visitor: &BorrowingFieldVisitor<'_>,
    number: usize,
    expected: &str,
) -> Result<(), Fail> {
    match visitor.get(number) {
        Some(field) => compare_path(rt, alloc, &field, expected),
        None => Err(Fail::from("there is no leaf")),
    }
}

/// Compares these.
fn compare_paths(
    rt: &impl Abort,
    alloc: Global,
    visitor: &BorrowingFieldVisitor<'_>,
) -> Result<(), Fail> {
    assert!(rt; visitor.len() == 1024);
    for (number, expected) in &PATHS {
        compare_path_of(rt, alloc, visitor, *number, expected)?;
    }
    Ok(())
}

/// Compares the leaves of a nest.
fn compare_nest(rt: &impl Abort, alloc: Global, tcx: &TypeContext) -> Result<(), Fail> {
    let method = function(tcx)?;
    let this = IdentBuf::new(alloc, "this")?;
    let visitor = method.borrowing_field_visitor(alloc, tcx, &this)?;
    compare_paths(rt, alloc, &visitor)
}

/// What is held in a nest.
const HELD_IN_NEST: &[Held<'static>] = &[(0, &[Edge::Struct("p", 0, false)])];

/// Compares what is held in a nest, and its leaves.
fn compare_all(rt: &impl Abort, alloc: Global, tcx: &TypeContext) -> Result<(), Fail> {
    compare_held(rt, alloc, tcx, false, HELD_IN_NEST)?;
    compare_nest(rt, alloc, tcx)
}

#[test]
fn a_nest_has_a_leaf_for_each_way(rt: HostRuntime) -> Result<(), Fail> {
    let tcx = nest(rt.alloc(), 10)?;
    compare_all(&rt, rt.alloc(), &tcx)
}

/// A function that takes a struct which holds one that is disabled.
const DISABLED: Signature = Signature {
    bounded: true,
    count: 2,
    receiver: None,
    params: &[("p", Of::Struct(1, &[0, 1])), ("q", Of::Struct(0, &[0]))],
    returned: &[0],
};

/// Adds a disabled struct with a text, and one that holds it and a text of its own.
fn add_disabled(alloc: Global, parts: &mut ContextParts) -> Result<(), Fail> {
    add_struct(alloc, parts, 1, &[("s", Of::Text(&[0]))], true)?;
    let outer = [("off", Of::Struct(0, &[0])), ("t", Of::Text(&[1]))];
    add_struct(alloc, parts, 2, &outer, false)
}

/// The context of these.
fn with_disabled(alloc: Global) -> Result<TypeContext, Fail> {
    let mut parts = common_parts(alloc)?;
    add_disabled(alloc, &mut parts)?;
    context_of(alloc, parts, &DISABLED)
}

/// What is held in any case.
const EDGES: &[Edge<'static>] = &[
    Edge::Struct("p", 0, false),
    Edge::Struct("p", 1, false),
    Edge::Struct("q", 0, false),
];

/// What is held with slices.
const WITH_SLICES: &[Held<'static>] = &[(0, EDGES), (1, &[Edge::Struct("p", 1, false)])];

/// Compares what both visitors find.
fn compare_disabled(rt: &impl Abort, alloc: Global, tcx: &TypeContext) -> Result<(), Fail> {
    compare_leaves(rt, alloc, tcx, &[("p.t", &[1])])?;
    compare_held(rt, alloc, tcx, false, &[(0, EDGES)])?;
    compare_held(rt, alloc, tcx, true, WITH_SLICES)
}

#[test]
fn a_disabled_struct_has_edges_but_no_leaves_and_no_slices(rt: HostRuntime) -> Result<(), Fail> {
    let tcx = with_disabled(rt.alloc())?;
    compare_disabled(&rt, rt.alloc(), &tcx)
}
