//! The walk over all declarations.

ghost use Rattle.std.specs.Prelude.{◌≡◌, ◌++◌, ℕ, IfOk, OnOk, map};
ghost use Rattle.bridge_ast.specs.Sound.{AreSound};
ghost use Rattle.bridge_places.specs.Entries.{IsCatalog};
ghost use Rattle.bridge_places.specs.Places.{of_kind, places_of};
ghost use Rattle.bridge_places.specs.declared.kinds.Kind.{Kind};
ghost use Rattle.hir_lowering.specs.Interface.{AreNamed, Interface};
ghost use Rattle.hir_lowering.specs.Lowered.{AreLowered, item_reports_in_order};
ghost use Rattle.hir_lowering.specs.Walks.{Walks};
ghost use Rattle.hir_lowering.specs.inside.Walking.{IsInterface, Lends};
ghost use Rattle.hir_modules.specs.Holding.{HoldsStill};
ghost use Rattle.hir_modules.specs.ModuleMarks.{module_marks};
ghost use Rattle.hir_number.specs.Naming.{Naming};

use crate::items::lower_each;
use crate::kinds::{Enums, Functions, Opaques, OutStructs, Structs, Traits};
use bridge_ast::Env;
use bridge_decl::NoMemory;
use bridge_places::{ItemOrder, Kind, KindPlaces};
use hir_attrs::Attrs;
use hir_backends::AttributeValidator;
use hir_config::LoweringConfig;
use hir_items::Lowering;
use hir_modules::lower_modules;
use hir_reports::ErrorStore;
use hir_usage_notes::LoweredDefinitions;
use std::alloc::Global;

/// The items of all kinds, in the order in which they are lowered.
fn lower_kinds<'tree, V: AttributeValidator>(
    env: &'tree Env,
    lent: &Lowering<'_, V>,
    marks: &[Attrs],
    places: &KindPlaces,
    defs: &mut LoweredDefinitions,
    errors: &mut ErrorStore<'tree>,
) -> Result<(), NoMemory>
    requires same { lent.now.env.now ≡ env.now }
    requires sound { AreSound env.now }
    requires marks { marks.now
        ≡ map (module_marks (V.meaning lent.now.validator.now) env.now) env.now }
    requires places { (k : Kind) → of_kind k places.now ≡ places_of env.now k }
    ensures told { (it : Interface) → IsInterface it
        → Lends (V.meaning lent.now.validator.now) lent.now it
        → OnOk result (errors.new.reports ≡ errors.old.reports ++ item_reports_in_order it) }
    ensures made { (it : Interface) → IsInterface it
        → Lends (V.meaning lent.now.validator.now) lent.now it
        → OnOk result (AreLowered it defs.new) }
    ensures kept { HoldsStill errors.old errors.new }
{
    let at = places.of_kind(Kind::OutStruct);
    defs.out_structs = lower_each::<OutStructs, V>(env, lent, marks, at, errors)?;
    let at = places.of_kind(Kind::Struct);
    defs.structs = lower_each::<Structs, V>(env, lent, marks, at, errors)?;
    let at = places.of_kind(Kind::Opaque);
    defs.opaques = lower_each::<Opaques, V>(env, lent, marks, at, errors)?;
    let at = places.of_kind(Kind::Enum);
    defs.enums = lower_each::<Enums, V>(env, lent, marks, at, errors)?;
    let at = places.of_kind(Kind::Trait);
    defs.traits = lower_each::<Traits, V>(env, lent, marks, at, errors)?;
    let at = places.of_kind(Kind::Function);
    defs.functions = lower_each::<Functions, V>(env, lent, marks, at, errors)?;
    Ok(())
}

/// The same into definitions of their own.
fn lower_items<'tree, V: AttributeValidator>(
    env: &'tree Env,
    lent: &Lowering<'_, V>,
    marks: &[Attrs],
    places: &KindPlaces,
    errors: &mut ErrorStore<'tree>,
) -> Result<LoweredDefinitions, NoMemory>
    requires same { lent.now.env.now ≡ env.now }
    requires sound { AreSound env.now }
    requires marks { marks.now
        ≡ map (module_marks (V.meaning lent.now.validator.now) env.now) env.now }
    requires places { (k : Kind) → of_kind k places.now ≡ places_of env.now k }
    ensures told { (it : Interface) → IsInterface it
        → Lends (V.meaning lent.now.validator.now) lent.now it
        → OnOk result (errors.new.reports ≡ errors.old.reports ++ item_reports_in_order it) }
    ensures made { (it : Interface) → IsInterface it
        → Lends (V.meaning lent.now.validator.now) lent.now it
        → IfOk result (AreLowered it) }
    ensures kept { HoldsStill errors.old errors.new }
{
    let mut defs = LoweredDefinitions::new(lent.alloc);
    lower_kinds(env, lent, marks, places, &mut defs, errors)?;
    Ok(defs)
}

/// All declarations, where that is the order of their items: what is wrong is told, of modules first
/// and then of the items by their kinds, each at its place, and of the items of which nothing is told
/// the definitions are made. Nothing ends the walk but want of memory, which is `NoMemory`.
pub fn lower_in_order<'tree, V: AttributeValidator>(
    alloc: Global,
    env: &'tree Env,
    order: &ItemOrder,
    config: LoweringConfig,
    validator: &V,
    errors: &mut ErrorStore<'tree>,
) -> Result<LoweredDefinitions, NoMemory>
    requires sound { AreSound env.now }
    requires catalog { IsCatalog env.now order.now.catalog }
    requires places { (k : Kind) → of_kind k order.now.places ≡ places_of env.now k }
    ensures walked { (names : ℕ → Naming) → AreNamed env.now names → Walks env.now
        (V.meaning validator.now) config names errors.old errors.new result }
    ensures kept { HoldsStill errors.old errors.new }
{
    let marks = lower_modules(alloc, env, validator, errors)?;
    let support = validator.attrs_supported();
    let lent = Lowering {
        alloc,
        env,
        validator,
        support: &support,
        config,
        catalog: &order.catalog,
    };
    lower_items(env, &lent, marks.as_slice(), &order.places, errors)
}
