//! Tables of declarations, with what is answered.

mod accepted;
mod answers;
mod backends;
mod callbacks;
mod contexts;
mod declarations;
mod disabled;
mod frames;
mod keys;
mod lifetimes;
mod marked;
mod marks;
mod names;
mod nesting;
mod notation;
mod numerous;
mod options;
mod order;
mod paths;
mod pending;
mod presence;
mod signatures;
mod slices;
mod special;
mod types;
mod usage;
mod values;
mod worked;

use std::alloc::Global;
use std::process::Abort;
use std::test::Fail;

/// What stands before the declarations of rows on types.
const DECLARED: &str =
    "opaque O @mutable opaque M #auto.abi_compatible #auto.mut_struct_ref struct S { a: u8 } struct Z out_struct Q { a: u8 } #auto.abi_compatible enum E { A=0 } trait T ";

/// Declarations in the notation of `notation`, and `ok` or what is told of them.
type Row = (&'static str, &'static str);

/// Compares what is found of declarations with what is expected.
fn compare_found(rt: &impl Abort, found: &str, expected: &str, declared: &str) {
    assert_eq!(rt; found, expected, "of {declared}");
}

/// Compares what is told of the declarations of a row, before which others stand, where the backend supports all.
fn compare_row(rt: &impl Abort, alloc: Global, before: &str, row: &Row) -> Result<(), Fail> {
    let (declared, expected) = row;
    let found = answers::answer(alloc, backends::ALL, before, declared)?;
    compare_found(rt, found.as_str(), expected, declared);
    Ok(())
}

/// Compares what is told of all rows.
fn compare(rt: &impl Abort, alloc: Global, before: &str, rows: &[Row]) -> Result<(), Fail> {
    for row in rows {
        compare_row(rt, alloc, before, row)?;
    }
    Ok(())
}
