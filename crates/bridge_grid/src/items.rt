//! What is wrong in receivers and writers, and what traits and functions need.

ghost use Rattle.std.specs.Prelude.{◌≡◌, IfOk};
ghost use Rattle.bridge_grid.specs.Items.{free_function_faults, lent_receiver_faults, own_receiver_faults, receiver_faults, trait_faults, writer_faults};

use crate::asked::{both, denied, denied_if, mark_faults, told};
use crate::fault::{TypeFault, TypeFaults};
use bridge_ast::ItemPlace;
use bridge_decl::{Items, Mutability, NoMemory, WriteType};
use bridge_rules::{Catalog, Entry, refs_flag};
use hir_backends::{BackendAttrSupport, SupportFlag};
use hir_life::{Lifetime, MaybeStatic};
use hir_reports::Rule;
use std::alloc::Global;

fn own_receiver_faults(alloc: Global, entry: Entry) -> Result<TypeFaults, NoMemory>
    ensures { IfOk result (λ faults. faults ≡ own_receiver_faults entry) }
{
    match entry {
        Entry::OutStruct(_, _) => told(alloc, TypeFault::Broken(Rule::OutStructInput)),
        Entry::Opaque(_, _) => told(alloc, TypeFault::Broken(Rule::OpaqueByValue)),
        Entry::Struct(_, _) | Entry::Enum(_) | Entry::Trait(_) | Entry::Function(_) => {
            Ok(Items::new(alloc))
        }
    }
}

fn lent_receiver_faults(
    alloc: Global,
    support: &BackendAttrSupport,
    mutability: Mutability,
    entry: Entry,
) -> Result<TypeFaults, NoMemory>
    ensures { IfOk result
        (λ faults. faults ≡ lent_receiver_faults support.now mutability entry) }
{
    match entry {
        Entry::Struct(_, _) => denied(alloc, support, refs_flag(mutability)),
        Entry::OutStruct(_, _) => told(alloc, TypeFault::Broken(Rule::OutStructInput)),
        Entry::Opaque(_, mark) => mark_faults(alloc, mutability, mark),
        Entry::Enum(_) | Entry::Trait(_) | Entry::Function(_) => Ok(Items::new(alloc)),
    }
}

/// What is wrong in a receiver: `self` of a type that stands at a place, or a reference to it.
pub fn receiver_faults(
    alloc: Global,
    support: &BackendAttrSupport,
    catalog: &Catalog,
    borrow: Option<(MaybeStatic<Lifetime>, Mutability)>,
    place: ItemPlace,
) -> Result<TypeFaults, NoMemory>
    ensures { IfOk result
        (λ faults. faults ≡ receiver_faults support.now catalog.now borrow place) }
{
    match borrow {
        Some((_, mutability)) => {
            lent_receiver_faults(alloc, support, mutability, catalog.entry(place))
        }
        None => own_receiver_faults(alloc, catalog.entry(place)),
    }
}

/// What is wrong in the trailing writer of a method or a function.
pub fn writer_faults(
    alloc: Global,
    support: &BackendAttrSupport,
    writer: WriteType,
) -> Result<TypeFaults, NoMemory>
    ensures { IfOk result (λ faults. faults ≡ writer_faults support.now writer) }
{
    match writer {
        WriteType::Str => Ok(Items::new(alloc)),
        WriteType::Str16 => denied(alloc, support, SupportFlag::Utf16Writeables),
        WriteType::Primitive(_) => denied(alloc, support, SupportFlag::GenericWriteables),
    }
}

/// What a trait needs that is `Send` or `Sync`.
pub fn trait_faults(
    alloc: Global,
    support: &BackendAttrSupport,
    is_send: bool,
    is_sync: bool,
) -> Result<TypeFaults, NoMemory>
    ensures { IfOk result (λ faults. faults ≡ trait_faults support.now is_send is_sync) }
{
    both(
        denied_if(alloc, support, is_send, SupportFlag::TraitsAreSend)?,
        denied_if(alloc, support, is_sync, SupportFlag::TraitsAreSync)?,
    )
}

/// What a function outside types needs.
pub fn free_function_faults(
    alloc: Global,
    support: &BackendAttrSupport,
) -> Result<TypeFaults, NoMemory>
    ensures { IfOk result (λ faults. faults ≡ free_function_faults support.now) }
{
    denied(alloc, support, SupportFlag::FreeFunctions)
}
