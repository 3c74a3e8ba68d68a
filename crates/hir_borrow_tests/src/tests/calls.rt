//! Calls of functions at leaves and at their names.

use crate::tests::made::{Made, Of};
use crate::tests::signatures::{Signature, context, function};
use bridge_decl::IdentBuf;
use hir_borrow::{BorrowingField, BorrowingFieldVisitor, MethodVisitors};
use hir_context::TypeContext;
use hir_life::{Lifetime, MaybeStatic};
use std::alloc::Global;
use std::process::Abort;
use std::test::Fail;

/// A struct with two texts, in another.
const STRUCTS: &[Made] = &[
    (1, &[("inner", Of::Struct(1, &[0]))]),
    (
        1,
        &[("text", Of::Text(&[0])), ("held", Of::Opaque(0, &[0]))],
    ),
];

/// A function that takes both.
const TAKING: Signature = Signature {
    bounded: false,
    count: 2,
    receiver: None,
    params: &[
        ("whole_a", Of::Struct(0, &[1])),
        ("page", Of::Opaque(0, &[1])),
    ],
    returned: &[],
};

/// How many names lead to a leaf, and how long the last is.
fn backtraced(field: &BorrowingField<'_>) -> (usize, usize) {
    let mut found: (usize, usize) = (0, 0);
    field.backtrace(&mut |number, name| {
        found = (number.wrapping_add(1), name.as_str().len());
    });
    found
}

/// How long the name of this number is, as the error that ends a visit.
fn stopped(field: &BorrowingField<'_>, at: usize) -> Result<(), usize> {
    field.try_backtrace(&mut |number, name| {
        if number == at {
            Err(name.as_str().len())
        } else {
            Ok(())
        }
    })
}

/// Whether the names of a leaf are those of `whole_a.inner.text`.
fn are_names(field: &BorrowingField<'_>) -> bool {
    backtraced(field) == (3, 4)
        && stopped(field, 0) == Err(7)
        && stopped(field, 1) == Err(5)
        && stopped(field, 3) == Ok(())
}

/// How often the lifetime of this number is visited with a leaf.
fn visits(visitor: &BorrowingFieldVisitor<'_>, number: usize) -> usize {
    let mut count: usize = 0;
    let wanted = MaybeStatic::NonStatic(Lifetime::new(number));
    visitor.visit_borrowing_fields(&mut |lifetime, _field| {
        if lifetime == wanted {
            count = count.wrapping_add(1);
        }
    });
    count
}

/// Whether this is called at leaves: `page` carries both lifetimes, and the others the second alone.
fn are_calls(visitor: &BorrowingFieldVisitor<'_>) -> bool {
    match visitor.get(0) {
        Some(field) => are_names(&field) && visits(visitor, 0) == 1 && visits(visitor, 1) == 3,
        None => false,
    }
}

/// Compares what is called for the function of a context.
fn compare(rt: &impl Abort, alloc: Global, tcx: &TypeContext) -> Result<(), Fail> {
    let method = function(tcx)?;
    let this = IdentBuf::new(alloc, "this")?;
    let visitor = method.borrowing_field_visitor(alloc, tcx, &this)?;
    assert!(rt; are_calls(&visitor));
    Ok(())
}

#[test]
fn functions_are_called_at_leaves(rt: HostRuntime) -> Result<(), Fail> {
    let tcx = context(rt.alloc(), STRUCTS, &TAKING)?;
    compare(&rt, rt.alloc(), &tcx)
}
