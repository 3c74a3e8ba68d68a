//! Structs that contain themselves, and chains of structs.

use crate::tests::fitting::{Case, STRUCT, Told, told_of};
use crate::tests::made::{Made, Of, add_struct};
use hir_context::ContextParts;
use std::alloc::Global;
use std::test::Fail;

/// Structs, and the first of them that contains itself, where one does.
const ROWS: [(&[Made], Option<usize>); 10] = [
    (&[(0, &[Of::Struct(0, &[])])], Some(0)),
    (&[(0, &[Of::Optional(0, &[])])], Some(0)),
    (&[(1, &[Of::Lent(0, &[0])])], Some(0)),
    // The elements of a slice aren't contained.
    (&[(1, &[Of::Listed(0, &[0])])], None),
    // One leads to the other, which contains itself.
    (
        &[(0, &[Of::Struct(1, &[])]), (0, &[Of::Struct(1, &[])])],
        Some(1),
    ),
    // Through two others.
    (
        &[
            (0, &[Of::Struct(1, &[])]),
            (0, &[Of::Optional(2, &[])]),
            (0, &[Of::Struct(0, &[])]),
        ],
        Some(0),
    ),
    // Two rings have the second struct in common, and the first isn't on either.
    (
        &[
            (0, &[Of::Struct(1, &[])]),
            (0, &[Of::Struct(2, &[]), Of::Struct(3, &[])]),
            (0, &[Of::Struct(1, &[])]),
            (0, &[Of::Struct(1, &[])]),
        ],
        Some(1),
    ),
    // Twice the same, and no ring.
    (
        &[(0, &[Of::Struct(1, &[]), Of::Struct(1, &[])]), (0, &[])],
        None,
    ),
    (&[(0, &[]), (0, &[Of::Struct(0, &[])])], None),
    (&[], None),
];

/// What is told of the struct of this id: it is named twice.
fn told(expected: Option<usize>) -> Told {
    match expected {
        Some(id) => Some((STRUCT, id, STRUCT, id)),
        None => None,
    }
}

/// Adds so many structs, each of which contains the one before it.
pub fn add_chain(alloc: Global, parts: &mut ContextParts, len: usize) -> Result<(), Fail> {
    add_struct(alloc, parts, "Link", 0, &[])?;
    for before in 1..len {
        add_struct(alloc, parts, "Link", 0, &[Of::Struct(before - 1, &[])])?;
    }
    Ok(())
}

#[test]
fn no_struct_contains_itself(rt: HostRuntime) -> Result<(), Fail> {
    for (structs, expected) in &ROWS {
        let found = told_of(rt.alloc(), &Case::Defs(&[], *structs))?;
        assert!(rt; found == told(*expected));
    }
    Ok(())
}

/// How long chains are, and what is told of them: the struct 256 is the first that has so many
/// below it; where there is one more, it still is.
const CHAINS: [(usize, Option<usize>); 4] = [
    (255, None),
    (256, None),
    (257, Some(256)),
    (258, Some(256)),
];

#[test]
fn chains_have_256_structs_at_most(rt: HostRuntime) -> Result<(), Fail> {
    for (len, expected) in &CHAINS {
        let found = told_of(rt.alloc(), &Case::Chain(*len))?;
        assert!(rt; found == told(*expected));
    }
    Ok(())
}
