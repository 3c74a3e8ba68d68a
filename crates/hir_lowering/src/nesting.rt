//! What is told of how structs nest.

ghost use Rattle.std.specs.Prelude.{◌≡◌, ◌++◌, ◌≤◌, OnOk, length};
ghost use Rattle.bridge_places.specs.Places.{places_of};
ghost use Rattle.bridge_places.specs.declared.kinds.Kind.TheVariants as kind;
ghost use Rattle.hir_lowering.specs.Nesting.{each_nesting_report, nesting_error, nesting_errors};
ghost use Rattle.hir_lowering.specs.Nesting.{nesting_reports, nesting_reports_at};
ghost use Rattle.hir_modules.specs.Holding.{HoldsStill};
ghost use Rattle.hir_reports.specs.Store.{added};

use bridge_ast::{Env, ItemPlace, name_of};
use bridge_decl::NoMemory;
use hir_nesting::NestingFault;
use hir_reports::{ErrorStore, LoweringError, Rule};
use sqlite_items::at;
use std::alloc::Global;

/// The rule that a struct breaks by a fault.
fn error_of(alloc: Global, fault: &NestingFault) -> LoweringError
    ensures { result ≡ nesting_error fault.now }
{
    match fault {
        NestingFault::ContainsItself => LoweringError::plain(alloc, Rule::StructContainsItself),
        NestingFault::NestsTooDeep => LoweringError::plain(alloc, Rule::NestingTooDeep),
    }
}

/// Telling the fault, where there is one, at the store's place.
fn tell_fault(
    alloc: Global,
    fault: &Option<NestingFault>,
    errors: &mut ErrorStore<'_>,
) -> Result<(), NoMemory>
    ensures told { OnOk result (errors.new ≡ added errors.old (nesting_errors fault.now)) }
    ensures kept { HoldsStill errors.old errors.new }
{
    match fault {
        Some(fault) => errors.push(error_of(alloc, fault)),
        None => Ok(()),
    }
}

/// Telling the fault of the struct at a place, where it has one.
fn tell_at<'tree>(
    alloc: Global,
    env: &'tree Env,
    number: usize,
    place: ItemPlace,
    faults: &[Option<NestingFault>],
    errors: &mut ErrorStore<'tree>,
) -> Result<(), NoMemory>
    ensures told { OnOk result (errors.new.reports ≡ errors.old.reports
        ++ nesting_reports_at env.now faults.now (number, place)) }
    ensures kept { HoldsStill errors.old errors.new }
{
    let Some(fault) = at(faults, number) else {
        return Ok(());
    };
    let Some(module) = at(env.modules(), place.module) else {
        return Ok(());
    };
    let Some(item) = at(module.items.as_slice(), place.item) else {
        return Ok(());
    };
    errors.set_module(module.path.as_slice());
    errors.set_item(name_of(item).as_str());
    tell_fault(alloc, fault, errors)
}

/// Telling the faults of the structs at these places, in order.
fn tell_each<'tree>(
    alloc: Global,
    env: &'tree Env,
    places: &[ItemPlace],
    faults: &[Option<NestingFault>],
    errors: &mut ErrorStore<'tree>,
) -> Result<(), NoMemory>
    ensures told { OnOk result (errors.new.reports ≡ errors.old.reports
        ++ each_nesting_report env.now faults.now places.now) }
    ensures kept { HoldsStill errors.old errors.new }
{
    for number in 0..places.len() {
        tell_at(alloc, env, number, places[number], faults, errors)?;
    }
    Ok(())
}

/// Telling of each struct that it contains itself or nests too deep, where it does: structs first, and
/// then those that only go out, of which the faults have first so many as `count`. `NoMemory` where
/// there is no memory for the reports.
pub fn tell_nesting<'tree>(
    alloc: Global,
    env: &'tree Env,
    structs: &[ItemPlace],
    out_structs: &[ItemPlace],
    count: usize,
    faults: &[Option<NestingFault>],
    errors: &mut ErrorStore<'tree>,
) -> Result<(), NoMemory>
    requires structs { structs.now ≡ places_of env.now kind.Struct }
    requires out_structs { out_structs.now ≡ places_of env.now kind.OutStruct }
    requires all { count ≤ length faults.now }
    ensures told { OnOk result (errors.new.reports ≡ errors.old.reports
        ++ nesting_reports env.now count faults.now) }
    ensures kept { HoldsStill errors.old errors.new }
{
    let (first, others) = faults.split_at(count);
    tell_each(alloc, env, structs, others, errors)?;
    tell_each(alloc, env, out_structs, first, errors)
}
