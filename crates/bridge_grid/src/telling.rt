//! Faults as reports.

ghost use Rattle.std.specs.Prelude.{◌≡◌, IfOk, OnErr, OnOk, length, map, take};
ghost use Rattle.hir_reports.specs.Store.{added, gained};
ghost use Rattle.bridge_grid.specs.Telling.{fault_error, field_error};
ghost use Rattle.bridge_grid.specs.rules.FfiUnsafe.{IsFfiSafe};

use crate::fault::TypeFault;
use crate::ffi::is_ffi_safe;
use bridge_decl::NoMemory;
use hir_number::NumberedType;
use hir_reports::{ErrorStore, LoweringError, Rule};
use std::alloc::Global;

fn fault_error(alloc: Global, fault: TypeFault) -> Result<LoweringError, NoMemory>
    ensures { IfOk result (λ error. error ≡ fault_error fault) }
{
    match fault {
        TypeFault::Broken(rule) => LoweringError::new(alloc, rule, &[]),
        TypeFault::Denied(flag) => {
            LoweringError::new(alloc, Rule::SupportDenied, &[flag.text()])
        }
    }
}

fn push_each(alloc: Global, store: &mut ErrorStore, faults: &[TypeFault]) -> Result<(), NoMemory>
    ensures ok { OnOk result (store.new ≡ added store.old (map fault_error faults.now)) }
    ensures reports { OnErr result
        (take (length store.old.reports) store.new.reports ≡ store.old.reports) }
    ensures place { OnErr result (store.new.place ≡ store.old.place) }
{
    for fault in faults {
        let error = fault_error(alloc, *fault)?;
        store.push(error)?;
    }
    Ok(())
}

/// Adds a report for each fault, in order, at the place of the store. `NoMemory` where there is no
/// memory for all of them: then the store holds what it held.
pub fn tell(alloc: Global, store: &mut ErrorStore, faults: &[TypeFault]) -> Result<(), NoMemory>
    ensures ok { OnOk result (store.new ≡ added store.old (map fault_error faults.now)) }
    ensures err { OnErr result (store.new ≡ store.old) }
{
    let held = store.len();
    let done = push_each(alloc, store, faults);
    if done.is_err() {
        store.truncate(held);
    }
    done
}

/// Adds a report of `FfiUnsafe`, at the place of the store, where a field of that name may not have
/// that type. `NoMemory` where there is no memory for it: then the store holds what it held.
pub fn tell_field(
    alloc: Global,
    store: &mut ErrorStore,
    name: &str,
    ty: &NumberedType,
) -> Result<(), NoMemory>
    ensures safe { OnOk result (IsFfiSafe ty.now → store.new ≡ store.old) }
    ensures told { OnOk result (¬ IsFfiSafe ty.now
        → store.new ≡ gained store.old (field_error name.now)) }
    ensures err { OnErr result (store.new ≡ store.old) }
{
    if is_ffi_safe(ty) {
        return Ok(());
    }
    let error = LoweringError::new(alloc, Rule::FfiUnsafe, &[name])?;
    store.push(error)
}
