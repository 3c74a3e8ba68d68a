//! What the visitors find, compared with tables.

use crate::tests::made::lifetime;
use crate::tests::signatures::function;
use bridge_decl::{IdentBuf, NoMemory};
use hir_borrow::{
    BorrowedLifetimeInfo, BorrowingField, BorrowingFieldVisitor, BorrowingParamVisitor,
    LifetimeEdge, LifetimeEdgeKind, MethodVisitors,
};
use hir_context::TypeContext;
use hir_definitions::{Method, ParamSelf};
use hir_life::Lifetime;
use hir_types::{Everywhere, HirType, SelfType};
use std::alloc::Global;
use std::collections::BTreeMap;
use std::process::Abort;
use std::test::Fail;

/// A leaf: its path, and the numbers of the lifetimes that it carries.
pub type Leaf = (&'static str, &'static [usize]);

/// An edge to an input of this name.
#[derive(Clone, Copy, PartialEq)]
pub enum Edge<'e> {
    /// To an opaque.
    Opaque(&'e str),
    /// To a slice.
    Slice(&'e str),
    /// To a struct at its lifetime of this number, in an option or not.
    Struct(&'e str, usize, bool),
}

/// The edges under the lifetime of a number.
pub type Held<'e> = (usize, &'e [Edge<'static>]);

/// Compares the path of a leaf.
pub fn compare_path(
    rt: &impl Abort,
    alloc: Global,
    field: &BorrowingField<'_>,
    expected: &str,
) -> Result<(), Fail> {
    let found = format!(in alloc; "{field}")?;
    assert!(rt; found.as_str() == expected);
    Ok(())
}

/// Whether a leaf carries the lifetimes of these numbers.
fn carries(field: &BorrowingField<'_>, numbers: &[usize]) -> bool {
    let carried = field.lifetimes();
    for (found, number) in carried.as_slice().iter().zip(numbers.iter()) {
        if *found != lifetime(*number) {
            return false;
        }
    }
    carried.len() == numbers.len()
}

/// Compares the leaf of a number, which has to be there.
fn compare_leaf(
    rt: &impl Abort,
    alloc: Global,
    visitor: &BorrowingFieldVisitor<'_>,
    number: usize,
    expected: &Leaf,
) -> Result<(), Fail> {
    match visitor.get(number) {
        Some(field) => {
            assert!(rt; carries(&field, expected.1));
            compare_path(rt, alloc, &field, expected.0)
        }
        None => Err(Fail::from("there is no leaf")),
    }
}

/// Compares all leaves.
fn compare_fields(
    rt: &impl Abort,
    alloc: Global,
    visitor: &BorrowingFieldVisitor<'_>,
    expected: &[Leaf],
) -> Result<(), Fail> {
    assert!(rt; visitor.len() == expected.len() && visitor.get(expected.len()).is_none());
    for (number, leaf) in expected.iter().enumerate() {
        compare_leaf(rt, alloc, visitor, number, leaf)?;
    }
    Ok(())
}

/// Compares all leaves of the function of a context; its receiver is called `this`.
pub fn compare_leaves(
    rt: &impl Abort,
    alloc: Global,
    tcx: &TypeContext,
    expected: &[Leaf],
) -> Result<(), Fail> {
    let method = function(tcx)?;
    let this = IdentBuf::new(alloc, "this")?;
    let visitor = method.borrowing_field_visitor(alloc, tcx, &this)?;
    compare_fields(rt, alloc, &visitor, expected)
}

/// The edge as it is written in tables.
fn edge_of<'e>(edge: &LifetimeEdge<'e>) -> Edge<'e> {
    match edge.kind {
        LifetimeEdgeKind::OpaqueParam => Edge::Opaque(edge.param_name),
        LifetimeEdgeKind::SliceParam => Edge::Slice(edge.param_name),
        LifetimeEdgeKind::StructLifetime(_, lifetime, optional) => {
            Edge::Struct(edge.param_name, lifetime.index(), optional)
        }
    }
}

/// Whether these edges are under a lifetime.
fn are_edges(info: &BorrowedLifetimeInfo<'_>, expected: &[Edge<'_>]) -> bool {
    for (edge, expected) in info.incoming_edges.iter().zip(expected.iter()) {
        if edge_of(edge) != *expected {
            return false;
        }
    }
    info.incoming_edges.len() == expected.len()
}

/// Visits the receiver of a method, where it is a struct.
fn visit_receiver<'tcx>(
    alloc: Global,
    visitor: &mut BorrowingParamVisitor<'tcx>,
    method: &'tcx Method,
) -> Result<(), NoMemory> {
    match &method.param_self {
        Some(
            ParamSelf {
                ty: SelfType::Struct(path),
                ..
            },
        ) => {
            let ty: HirType<Everywhere> = HirType::Struct(path.try_clone(alloc)?);
            visitor.visit_param(&ty, "this")?;
            Ok(())
        }
        _ => Ok(()),
    }
}

/// Visits all parameters of a method.
fn visit_params<'tcx>(
    visitor: &mut BorrowingParamVisitor<'tcx>,
    method: &'tcx Method,
) -> Result<(), NoMemory> {
    for param in method.params.as_slice() {
        visitor.visit_param(&param.ty, param.name.as_str())?;
    }
    Ok(())
}

/// Visits the inputs of a method in order.
fn visit<'tcx>(
    alloc: Global,
    visitor: &mut BorrowingParamVisitor<'tcx>,
    method: &'tcx Method,
) -> Result<(), NoMemory> {
    visit_receiver(alloc, visitor, method)?;
    visit_params(visitor, method)
}

/// Whether this is kept of each lifetime.
fn is_kept(map: &BTreeMap<Lifetime, BorrowedLifetimeInfo<'_>>, expected: &[Held<'_>]) -> bool {
    for (number, edges) in expected {
        match map.get(&Lifetime::new(*number)) {
            Some(info) if are_edges(info, edges) => {}
            _ => return false,
        }
    }
    map.len() == expected.len()
}

/// What the function of a context holds for the lifetimes that are kept.
fn held<'tcx>(
    alloc: Global,
    tcx: &'tcx TypeContext,
    with_slices: bool,
) -> Result<BTreeMap<Lifetime, BorrowedLifetimeInfo<'tcx>>, Fail> {
    let method = function(tcx)?;
    let mut visitor = method.borrowing_param_visitor(alloc, tcx, with_slices)?;
    visit(alloc, &mut visitor, method)?;
    Ok(visitor.borrow_map())
}

/// Compares all that the function of a context holds for the lifetimes that are kept.
pub fn compare_held(
    rt: &impl Abort,
    alloc: Global,
    tcx: &TypeContext,
    with_slices: bool,
    expected: &[Held<'_>],
) -> Result<(), Fail> {
    let held = held(alloc, tcx, with_slices)?;
    assert!(rt; is_kept(&held, expected));
    Ok(())
}

/// Compares what both visitors find, without slices.
pub fn compare_both(
    rt: &impl Abort,
    alloc: Global,
    tcx: &TypeContext,
    leaves: &[Leaf],
    held: &[Held<'_>],
) -> Result<(), Fail> {
    compare_leaves(rt, alloc, tcx, leaves)?;
    compare_held(rt, alloc, tcx, false, held)
}
