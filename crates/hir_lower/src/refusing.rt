//! All declarations, lowered or refused.

ghost use Rattle.std.specs.Prelude.{◌≡◌, ◌≢◌, [], ℕ, OnOk};
ghost use Rattle.bridge_ast.specs.Sound.{AreSound};
ghost use Rattle.bridge_places.specs.Entries.{IsCatalog};
ghost use Rattle.bridge_places.specs.Places.{of_kind, places_of};
ghost use Rattle.bridge_places.specs.declared.kinds.Kind.{Kind};
ghost use Rattle.hir_lower.specs.inside.Telling.{AnswersAll, GivesUnlessTold, TellsAll, TellsNestingAfter};
ghost use Rattle.hir_lowering.specs.Interface.{AreNamed};
ghost use Rattle.hir_number.specs.Naming.{Naming};

use crate::fault::LowerFault;
use bridge_ast::Env;
use bridge_decl::NoMemory;
use bridge_places::{ItemOrder, Kind, a_listed_place_has_its_kind};
use hir_backends::AttributeValidator;
use hir_config::LoweringConfig;
use hir_lowering::{lower_in_order, tell_nesting, what_is_fine_is_all_made};
use hir_nesting::nesting_faults;
use hir_reports::ErrorStore;
use hir_usage_notes::LoweredDefinitions;
use std::alloc::Global;

/// Telling of the structs of definitions that contain themselves or nest too deep, that they do.
fn tell_nesting_of<'tree>(
    alloc: Global,
    env: &'tree Env,
    order: &ItemOrder,
    defs: &LoweredDefinitions,
    errors: &mut ErrorStore<'tree>,
) -> Result<(), NoMemory>
    requires places { (k : Kind) → of_kind k order.now.places ≡ places_of env.now k }
    ensures { OnOk result
        (TellsNestingAfter env.now defs.now errors.old.reports errors.new.reports) }
{
    let faults = nesting_faults(alloc, defs.out_structs.as_slice(), defs.structs.as_slice())?;
    tell_nesting(
        alloc,
        env,
        order.places.of_kind(Kind::Struct),
        order.places.of_kind(Kind::OutStruct),
        defs.out_structs.len(),
        faults.as_slice(),
        errors,
    )
}

/// The same where nothing is told yet.
fn tell_nesting_of_fine<'tree>(
    alloc: Global,
    env: &'tree Env,
    order: &ItemOrder,
    defs: &LoweredDefinitions,
    errors: &mut ErrorStore<'tree>,
) -> Result<(), NoMemory>
    requires places { (k : Kind) → of_kind k order.now.places ≡ places_of env.now k }
    ensures fine { errors.old.reports ≡ [] → OnOk result
        (TellsNestingAfter env.now defs.now errors.old.reports errors.new.reports) }
    ensures others { errors.old.reports ≢ [] → errors.new ≡ errors.old }
{
    if errors.is_empty() {
        tell_nesting_of(alloc, env, order, defs, errors)
    } else {
        Ok(())
    }
}

/// All declarations, told with all that is wrong in them, and else with all that is wrong in how
/// their structs nest.
fn lower_whole<'tree, V: AttributeValidator>(
    alloc: Global,
    env: &'tree Env,
    order: &ItemOrder,
    config: LoweringConfig,
    validator: &V,
    errors: &mut ErrorStore<'tree>,
) -> Result<LoweredDefinitions, NoMemory>
    requires sound { AreSound env.now }
    requires catalog { IsCatalog env.now order.now.catalog }
    requires places { (k : Kind) → of_kind k order.now.places ≡ places_of env.now k }
    requires empty { errors.old.reports ≡ [] }
    ensures { (names : ℕ → Naming) → AreNamed env.now names → TellsAll env.now
        (V.meaning validator.now) config names errors.new.reports result }
{
    let defs = lower_in_order(alloc, env, order, config, validator, errors)?;
    tell_nesting_of_fine(alloc, env, order, &defs, errors)?;
    Ok(defs)
}

/// A value where nothing is told, and else what is.
fn unless_told<T: Drop>(errors: &mut ErrorStore<'_>, value: T) -> Result<T, LowerFault>
    ensures { GivesUnlessTold errors.old.reports value result }
{
    if errors.is_empty() {
        Ok(value)
    } else {
        Err(LowerFault::Refused(errors.take_errors()))
    }
}

/// All declarations, whose items stand in that order: the definitions of all, or all that is wrong.
pub(crate) fn lower_or_refuse<V: AttributeValidator>(
    alloc: Global,
    env: &Env,
    order: &ItemOrder,
    config: LoweringConfig,
    validator: &V,
) -> Result<LoweredDefinitions, LowerFault>
    requires sound { AreSound env.now }
    requires catalog { IsCatalog env.now order.now.catalog }
    requires places { (k : Kind) → of_kind k order.now.places ≡ places_of env.now k }
    ensures { (names : ℕ → Naming) → AreNamed env.now names → AnswersAll env.now
        (V.meaning validator.now) config names result }
{
    let mut errors = ErrorStore::new(alloc);
    let defs = lower_whole(alloc, env, order, config, validator, &mut errors)?;
    what_is_fine_is_all_made();
    a_listed_place_has_its_kind();
    unless_told(&mut errors, defs)
}
