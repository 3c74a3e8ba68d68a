//! Which definitions make a context, and what is told of those that make none.

use crate::tests::made::{Made, Of, add_opaque, add_struct, no_parts};
use crate::tests::nesting::add_chain;
use hir_context::{ContextFault, ContextParts, TypeContext};
use hir_fitting::Unfit;
use hir_ids::{SymbolId, TypeId};
use std::alloc::Global;
use std::test::Fail;

/// A kind of what is told.
pub const STRUCT: bool = false;

/// Another.
const OPAQUE: bool = true;

/// What is told: the kind and the id of what holds it, and those of what is named there.
pub type Told = Option<(bool, usize, bool, usize)>;

/// How many lifetimes each opaque has, the structs, and what is told of them.
type Row = (&'static [usize], &'static [Made], Told);

const ROWS: [Row; 12] = [
    (
        &[1],
        &[(1, &[Of::Opaque(0, &[0]), Of::Struct(1, &[])]), (0, &[])],
        None,
    ),
    // There is one opaque, with id 0.
    (
        &[0],
        &[(1, &[Of::Opaque(5, &[])])],
        Some((STRUCT, 0, OPAQUE, 5)),
    ),
    (
        &[0],
        &[(0, &[]), (1, &[Of::Opaque(1, &[])])],
        Some((STRUCT, 1, OPAQUE, 1)),
    ),
    (
        &[],
        &[(0, &[Of::Struct(1, &[])])],
        Some((STRUCT, 0, STRUCT, 1)),
    ),
    // The opaque has one lifetime, and the path none or two.
    (
        &[1],
        &[(1, &[Of::Opaque(0, &[])])],
        Some((STRUCT, 0, OPAQUE, 0)),
    ),
    (
        &[1],
        &[(1, &[Of::Opaque(0, &[0, 0])])],
        Some((STRUCT, 0, OPAQUE, 0)),
    ),
    (
        &[],
        &[(0, &[]), (1, &[Of::Listed(0, &[0])])],
        Some((STRUCT, 1, STRUCT, 0)),
    ),
    // The struct has no lifetime 0, or no lifetime 1.
    (
        &[0],
        &[(0, &[Of::Opaque(0, &[])])],
        Some((STRUCT, 0, STRUCT, 0)),
    ),
    (
        &[2],
        &[(1, &[Of::Opaque(0, &[0, 1])])],
        Some((STRUCT, 0, STRUCT, 0)),
    ),
    (
        &[],
        &[(1, &[]), (1, &[Of::Optional(0, &[1])])],
        Some((STRUCT, 1, STRUCT, 1)),
    ),
    (&[], &[(1, &[]), (1, &[Of::Optional(0, &[0])])], None),
    (&[], &[], None),
];

/// Adds these opaques and structs.
fn add_all(
    alloc: Global,
    parts: &mut ContextParts,
    opaques: &[usize],
    structs: &[Made],
) -> Result<(), Fail> {
    for count in opaques {
        add_opaque(alloc, parts, *count, None)?;
    }
    for (count, fields) in structs {
        add_struct(alloc, parts, "Line", *count, fields)?;
    }
    Ok(())
}

/// What parts are made of.
#[derive(Drop)]
pub enum Case {
    /// Opaques with so many lifetimes, and structs.
    Defs(&'static [usize], &'static [Made]),
    /// An opaque with this iterator.
    Iterable(Option<usize>),
    /// So many structs, each of which contains the one before it.
    Chain(usize),
}

/// Adds what the case has.
fn add_case(alloc: Global, parts: &mut ContextParts, case: &Case) -> Result<(), Fail> {
    match case {
        Case::Defs(opaques, structs) => add_all(alloc, parts, opaques, structs),
        Case::Iterable(iterable) => add_opaque(alloc, parts, 0, *iterable),
        Case::Chain(len) => add_chain(alloc, parts, *len),
    }
}

/// The kind and the id of a struct or an opaque. No other is told here.
fn kind_and_id(id: &SymbolId) -> (bool, usize) {
    match id {
        SymbolId::TypeId(TypeId::Opaque(id)) => (OPAQUE, id.index()),
        SymbolId::TypeId(TypeId::Struct(id)) => (STRUCT, id.index()),
        _ => (STRUCT, usize::MAX),
    }
}

/// What is told, as the table has it.
fn as_told(unfit: &Unfit) -> Told {
    let holder = kind_and_id(&unfit.holder);
    let named = kind_and_id(&unfit.named);
    Some((holder.0, holder.1, named.0, named.1))
}

/// What is told of these parts.
fn told_of_parts(alloc: Global, parts: ContextParts) -> Result<Told, Fail> {
    match TypeContext::new(alloc, parts).err() {
        None => Ok(None),
        Some(ContextFault::Unfit(unfit)) => Ok(as_told(&unfit)),
        Some(ContextFault::NoMemory) => Err(Fail::from("there was no memory")),
    }
}

/// What is told of a case.
pub fn told_of(alloc: Global, case: &Case) -> Result<Told, Fail> {
    let mut parts = no_parts(alloc);
    add_case(alloc, &mut parts, case)?;
    told_of_parts(alloc, parts)
}

#[test]
fn all_that_is_named_is_there(rt: HostRuntime) -> Result<(), Fail> {
    for (opaques, structs, expected) in &ROWS {
        let found = told_of(rt.alloc(), &Case::Defs(*opaques, *structs))?;
        assert!(rt; found == *expected);
    }
    Ok(())
}

/// What iterates over the one opaque, and what is told of it.
const ITERATORS: [(Option<usize>, Told); 3] = [
    (None, None),
    (Some(0), None),
    (Some(1), Some((OPAQUE, 0, OPAQUE, 1))),
];

#[test]
fn what_iterates_is_there(rt: HostRuntime) -> Result<(), Fail> {
    for (iterable, expected) in &ITERATORS {
        let found = told_of(rt.alloc(), &Case::Iterable(*iterable))?;
        assert!(rt; found == *expected);
    }
    Ok(())
}
