//! What all tests use.

mod callbacks;
mod items;
mod notation;
mod results;
mod rows;
mod table;
mod telling;

use bridge_decl::{Items, Mutability, NoMemory};
use bridge_rules::{Catalog, Entry};
use hir_backends::{BackendAttrSupport, SupportFlag};
use std::alloc::Global;

/// One module: a struct `S`, one without fields `Z`, an out-struct `T`, one without fields `Y`, an opaque `O`, one that is marked as
/// mutable `M`, an enum `E`, and a trait `Tr`.
const ENTRIES: [Entry; 8] = [
    Entry::Struct(0, true),
    Entry::Struct(1, false),
    Entry::OutStruct(0, true),
    Entry::OutStruct(1, false),
    Entry::Opaque(0, Mutability::Immutable),
    Entry::Opaque(1, Mutability::Mutable),
    Entry::Enum(0),
    Entry::Trait(0),
];

fn catalog(alloc: Global) -> Result<Catalog, NoMemory> {
    let mut entries = Items::new(alloc);
    for entry in ENTRIES {
        entries.push(entry)?;
    }
    let mut modules = Items::new(alloc);
    modules.push(entries)?;
    Ok(Catalog { modules })
}

/// A backend that supports nothing, or everything.
fn backend(is_able: bool) -> BackendAttrSupport {
    let mut support = BackendAttrSupport::none();
    if is_able {
        for flag in SupportFlag::all() {
            support = support.with(*flag);
        }
    }
    support
}
