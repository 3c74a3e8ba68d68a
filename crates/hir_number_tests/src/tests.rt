//! What all tests use.

mod answers;
mod breaches;
mod declared;
mod found;
mod functions;
mod limits;
mod made;
mod methods;
mod notation;
mod others;
mod rendered;
mod slow;

use answers::{Call, answer};
use bridge_decl::NoMemory;
use std::alloc::Global;
use std::process::Abort;

/// Compares what the call answers for each row with what the row says.
fn compare(
    rt: &impl Abort,
    alloc: Global,
    call: Call,
    rows: &[(&str, &str)],
) -> Result<(), NoMemory> {
    for (row, expected) in rows {
        assert_eq!(rt; answer(alloc, call, row)?.as_str(), *expected, "of {row}");
    }
    Ok(())
}
