//! Slices of each kind of element, with each place of `'static`, where slices are included.

use crate::tests::comparing::{Edge, Held, Leaf, compare_held, compare_leaves};
use crate::tests::made::{Made, Named, Of, STATIC};
use crate::tests::signatures::{Signature, context};
use hir_context::TypeContext;
use std::alloc::Global;
use std::process::Abort;
use std::test::Fail;

/// Structs with a text, in a slice of which nothing is looked for; and one that holds it.
const STRUCTS: &[Made] = &[
    (1, &[("s", Of::Text(&[0]))]),
    (
        2,
        &[
            ("first", Of::Struct(0, &[1])),
            ("second", Of::Optional(0, &[STATIC])),
            ("page", Of::Opaque(0, &[])),
        ],
    ),
];

/// What a method takes that returns nothing of it: its leaves, and the lifetimes that are kept
/// where slices are included, each with what is held for it. It has the names `'a` and `'b: 'a`
/// and an anonymous lifetime, the number 2.
type Row = (Named, &'static [Leaf], &'static [Held<'static>]);

/// Texts, numbers and enums.
const PLAIN: [Row; 7] = [
    (
        &[("x", Of::Text(&[0]))],
        &[("x", &[0])],
        &[(0, &[Edge::Slice("x")])],
    ),
    (
        &[("x", Of::OptionalText(&[1])), ("y", Of::Text(&[0]))],
        &[("x", &[1]), ("y", &[0])],
        &[
            (0, &[Edge::Slice("x"), Edge::Slice("y")]),
            (1, &[Edge::Slice("x")]),
        ],
    ),
    // A lifetime without a name isn't kept.
    (&[("x", Of::Text(&[2]))], &[("x", &[2])], &[]),
    (&[("x", Of::Text(&[STATIC]))], &[("x", &[STATIC])], &[]),
    (&[("x", Of::Text(&[]))], &[], &[]),
    (
        &[("x", Of::Numbers(&[1])), ("y", Of::Numbers(&[STATIC]))],
        &[("x", &[1]), ("y", &[STATIC])],
        &[(1, &[Edge::Slice("x")])],
    ),
    (
        &[("x", Of::Colors(&[1])), ("y", Of::Colors(&[]))],
        &[("x", &[1])],
        &[(1, &[Edge::Slice("x")])],
    ),
];

/// Slices of structs and of opaques, and lists of texts.
const OF_OTHERS: [Row; 7] = [
    // The elements' lifetimes count for edges, but aren't kept.
    (
        &[("x", Of::Structs(&[0], 0, &[1]))],
        &[("x", &[0, 1])],
        &[(0, &[Edge::Slice("x")])],
    ),
    (
        &[("x", Of::Structs(&[STATIC], 0, &[1]))],
        &[("x", &[STATIC, 1])],
        &[],
    ),
    (
        &[("x", Of::Structs(&[1], 0, &[STATIC]))],
        &[("x", &[1, STATIC])],
        &[(1, &[Edge::Slice("x")])],
    ),
    (
        &[("x", Of::Opaques(&[1], 0, &[2]))],
        &[("x", &[1, 0, 2])],
        &[(1, &[Edge::Slice("x")])],
    ),
    // An owned slice of opaques lives as these.
    (
        &[("x", Of::Opaques(&[], 0, &[1]))],
        &[("x", &[0, 1])],
        &[(0, &[Edge::Slice("x")])],
    ),
    (
        &[("x", Of::Opaques(&[STATIC], 0, &[1]))],
        &[("x", &[STATIC, 0, 1])],
        &[],
    ),
    (&[("x", Of::Texts), ("y", Of::Number)], &[], &[]),
];

/// Slices in structs, by value, by reference and in options.
const INSIDE: [Row; 5] = [
    (
        &[("p", Of::Struct(0, &[1]))],
        &[("p.s", &[1])],
        &[(1, &[Edge::Struct("p", 0, false)])],
    ),
    (
        &[("p", Of::Lent(0, 0, &[1]))],
        &[("p.s", &[1])],
        &[(1, &[Edge::Struct("p", 0, false)])],
    ),
    (
        &[("p", Of::Optional(0, &[1]))],
        &[("p.s", &[1])],
        &[(1, &[Edge::Struct("p", 0, true)])],
    ),
    // The lifetimes are those that the method gives, and `page` is no slice.
    (
        &[("p", Of::Struct(1, &[1, 0]))],
        &[
            ("p.first.s", &[0]),
            ("p.second.s", &[STATIC]),
            ("p.page", &[1]),
        ],
        &[(
            0,
            &[Edge::Struct("p", 0, false), Edge::Struct("p", 1, false)],
        )],
    ),
    (&[("x", Of::Opaque(1, &[0]))], &[("x", &[1, 0])], &[]),
];

/// The context of a function that takes these.
fn taking(alloc: Global, params: Named) -> Result<TypeContext, Fail> {
    let signature = Signature {
        bounded: true,
        count: 3,
        receiver: None,
        params,
        returned: &[],
    };
    context(alloc, STRUCTS, &signature)
}

/// Compares what is found and kept in a context.
fn compare_found(
    rt: &impl Abort,
    alloc: Global,
    tcx: &TypeContext,
    leaves: &[Leaf],
    held: &[Held<'_>],
) -> Result<(), Fail> {
    compare_leaves(rt, alloc, tcx, leaves)?;
    compare_held(rt, alloc, tcx, false, &[])?;
    compare_held(rt, alloc, tcx, true, held)
}

/// Compares what is found and kept.
fn compare_row(rt: &impl Abort, alloc: Global, row: &Row) -> Result<(), Fail> {
    let (params, leaves, held) = row;
    let tcx = taking(alloc, params)?;
    compare_found(rt, alloc, &tcx, leaves, held)
}

/// Compares each row.
fn compare_rows(rt: &impl Abort, alloc: Global, rows: &[Row]) -> Result<(), Fail> {
    for row in rows {
        compare_row(rt, alloc, row)?;
    }
    Ok(())
}

#[test]
fn slices_of_plain_elements(rt: HostRuntime) -> Result<(), Fail> {
    compare_rows(&rt, rt.alloc(), &PLAIN)
}

#[test]
fn slices_of_structs_and_opaques(rt: HostRuntime) -> Result<(), Fail> {
    compare_rows(&rt, rt.alloc(), &OF_OTHERS)
}

#[test]
fn slices_in_structs(rt: HostRuntime) -> Result<(), Fail> {
    compare_rows(&rt, rt.alloc(), &INSIDE)
}
