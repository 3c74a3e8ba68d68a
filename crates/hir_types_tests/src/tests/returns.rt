//! What is asked of returns.

use crate::tests::{opaque, shared};
use hir_ids::{IntType, MaybeOwn, PrimitiveType};
use hir_life::Lifetime;
use hir_types::{HirType, OutType, OutputOnly, ReturnType, SuccessType, WriteType};
use std::alloc::Global;
use std::collections::BTreeSet;
use std::process::Abort;
use std::test::Fail;

/// The types and returns of methods.
type Success = SuccessType<OutputOnly>;

type Returned = ReturnType<OutputOnly>;

/// What the table says of one success.
#[derive(Clone, Copy)]
struct Row {
    writes: bool,
    writes_16: bool,
    primitive: Option<PrimitiveType>,
    unit: bool,
}

/// Of a value.
const VALUE: Row = Row {
    writes: false,
    writes_16: false,
    primitive: None,
    unit: false,
};

/// Whether what is asked of the success is what the row says.
fn is_so(success: &Success, row: &Row) -> bool {
    success.is_write() == row.writes
        && success.is_write_16() == row.writes_16
        && success.write_primitive() == row.primitive
        && success.is_unit() == row.unit
        && success.as_type().is_some() == (!row.writes && !row.unit)
}

/// Compares what is asked of the success with the row.
fn compare(rt: &impl Abort, success: Success, row: &Row) {
    assert!(rt; is_so(&success, row));
}

/// How many types the return has.
fn types_in(returned: &Returned) -> usize {
    let mut count = 0usize;
    returned.with_contained_types(|_ty| count = count.saturating_add(1));
    count
}

/// Whether these lifetimes have these numbers.
fn has_numbers(lifetimes: &BTreeSet<Lifetime>, numbers: &[usize]) -> bool {
    let mut rest = numbers;
    for lifetime in lifetimes {
        let Some((first, others)) = rest.split_first() else {
            return false;
        };
        if lifetime.index() != *first {
            return false;
        }
        rest = others;
    }
    rest.is_empty()
}

/// `Box<Page<'4, 'static>>` behind the given owner.
fn page(alloc: Global, owner: MaybeOwn) -> Result<OutType, Fail> {
    Ok(HirType::Opaque(opaque(alloc, &[Some(4), None], true, owner)?))
}

/// A wide number.
const WIDE: PrimitiveType = PrimitiveType::Int(IntType::U64);

/// What is written, whether that is a text in UTF-16, and of what it is a list.
const WRITERS: [(WriteType, bool, Option<PrimitiveType>); 3] = [
    (WriteType::Str, false, None),
    (WriteType::Str16, true, None),
    (WriteType::Primitive(WIDE), false, Some(WIDE)),
];

#[test]
fn writers_are_no_values(rt: HostRuntime) {
    for (written, writes_16, primitive) in &WRITERS {
        let row = Row {
            writes: true,
            writes_16: *writes_16,
            primitive: *primitive,
            unit: false,
        };
        compare(&rt, SuccessType::Write(*written), &row);
    }
}

#[test]
fn types_are_not_written(rt: HostRuntime) {
    let success = SuccessType::OutType(HirType::Primitive(PrimitiveType::Bool));
    compare(&rt, success, &VALUE);
}

#[test]
fn units_are_not_written(rt: HostRuntime) {
    let row = Row {
        unit: true,
        ..VALUE
    };
    compare(&rt, SuccessType::Unit, &row);
}

/// A return by its name in the table.
fn returned(alloc: Global, name: &str) -> Result<Returned, Fail> {
    Ok(match name {
        "unit" => ReturnType::Infallible(SuccessType::Unit),
        "writer" => ReturnType::Infallible(SuccessType::Write(WriteType::Str)),
        "nullable unit" => ReturnType::Nullable(SuccessType::Unit),
        "fallible unit" => ReturnType::Fallible(SuccessType::Unit, None),
        "nullable page" => {
            let page = page(alloc, MaybeOwn::Borrow(shared(1)))?;
            ReturnType::Nullable(SuccessType::OutType(page))
        }
        "fallible page" => {
            let error = page(alloc, MaybeOwn::Borrow(shared(2)))?;
            ReturnType::Fallible(SuccessType::Unit, Some(error))
        }
        _ => ReturnType::Infallible(SuccessType::OutType(HirType::Primitive(PrimitiveType::Char))),
    })
}

/// A return with whether nothing is returned then, whether its success is the unit, whether an error has a type, how many types it has, and
/// the lifetimes that it names.
type ReturnRow = (&'static str, bool, bool, bool, usize, &'static [usize]);

const RETURNS: [ReturnRow; 7] = [
    ("unit", true, true, false, 0, &[]),
    ("writer", true, false, false, 0, &[]),
    ("character", false, false, false, 1, &[]),
    ("nullable unit", false, true, false, 0, &[]),
    ("fallible unit", false, true, false, 0, &[]),
    ("nullable page", false, false, false, 1, &[1, 4]),
    ("fallible page", false, true, true, 1, &[2, 4]),
];

/// Whether the return is what the row says.
fn is_returned(alloc: Global, returned: &Returned, row: &ReturnRow) -> Result<bool, Fail> {
    let (_name, is_nothing, is_unit, has_error, types, numbers) = row;
    let lifetimes = returned.used_method_lifetimes(alloc)?;
    Ok(
        returned.is_ffi_unit() == *is_nothing
            && returned.success_type().is_unit() == *is_unit
            && returned.error_type().is_some() == *has_error
            && types_in(returned) == *types
            && has_numbers(&lifetimes, numbers),
    )
}

/// Whether a copy is.
fn is_copied(alloc: Global, returned: &Returned, row: &ReturnRow) -> Result<bool, Fail> {
    let copy = returned.try_clone(alloc)?;
    let is_returned = is_returned(alloc, &copy, row);
    drop(copy);
    is_returned
}

/// Whether the return and a copy of it are.
fn are_both(alloc: Global, returned: &Returned, row: &ReturnRow) -> Result<bool, Fail> {
    Ok(is_returned(alloc, returned, row)? && is_copied(alloc, returned, row)?)
}

/// Whether the return of the row's name and a copy of it are.
fn are_returned(alloc: Global, row: &ReturnRow) -> Result<bool, Fail> {
    let returned = returned(alloc, row.0)?;
    let are_both = are_both(alloc, &returned, row);
    drop(returned);
    are_both
}

#[test]
fn returns_are_what_they_say(rt: HostRuntime) -> Result<(), Fail> {
    for row in &RETURNS {
        assert!(rt; are_returned(rt.alloc(), row)?);
    }
    Ok(())
}
