//! Faults as reports.

use super::notation::parse;
use bridge_decl::NoMemory;
use bridge_grid::{TypeFault, tell, tell_field};
use hir_backends::SupportFlag;
use hir_reports::{ErrorStore, LoweringReport, Rule};
use std::alloc::Global;

const FAULTS: [TypeFault; 2] = [
    TypeFault::Broken(Rule::OptionShape),
    TypeFault::Denied(SupportFlag::StaticSlices),
];

const TEXTS: [&str; 3] = [
    "Lowering error in S\n  OptionShape: found Option<T> with a T that is not allowed\n",
    "Lowering error in S\n  SupportDenied: backend must support static_slices\n",
    "Lowering error in S\n  FfiUnsafe: field f is FFI-unsafe\n",
];

/// Whether the reports have these texts.
fn are(alloc: Global, reports: &[LoweringReport], texts: &[&str]) -> Result<bool, NoMemory> {
    for (report, text) in reports.iter().zip(texts.iter()) {
        if report.to_string(alloc)?.as_str() != *text {
            return Ok(false);
        }
    }
    Ok(reports.len() == texts.len())
}

fn tell_fields(alloc: Global, store: &mut ErrorStore<'_>) -> Result<(), NoMemory> {
    tell_field(alloc, store, "e", &parse(alloc, "Option<&'a O>")?)?;
    tell_field(alloc, store, "f", &parse(alloc, "Option<u8>")?)
}

#[test]
fn reports(rt: HostRuntime) -> Result<(), NoMemory> {
    let mut store = ErrorStore::new(rt.alloc());
    store.set_item("S");
    tell(rt.alloc(), &mut store, &FAULTS)?;
    tell_fields(rt.alloc(), &mut store)?;
    let reports = store.take_errors();
    assert!(rt; are(rt.alloc(), reports.as_slice(), &TEXTS)?);
    Ok(())
}
