//! The items of one kind, one after another.

ghost use Rattle.std.specs.Prelude.{◌≡◌, ◌++◌, [], Some, IfOk, OnOk, map, slice_get};
ghost use Rattle.std.specs.List.{cons_option};
ghost use Rattle.bridge_ast.specs.Sound.{AreSound};
ghost use Rattle.hir_items.specs.Placing.{unless_reported};
ghost use Rattle.hir_lowering.specs.Interface.{Interface};
ghost use Rattle.hir_lowering.specs.Placing.{each_made, each_report, form_of, made_at, reports_at, reports_of};
ghost use Rattle.hir_lowering.specs.inside.Walking.{IsInterface, Lends};
ghost use Rattle.hir_modules.specs.Holding.{HoldsStill};
ghost use Rattle.hir_modules.specs.ModuleMarks.{module_marks};

use crate::kinds::DefinitionKind;
use bridge_ast::{Env, Item, ItemPlace, Module};
use bridge_decl::NoMemory;
use hir_attrs::Attrs;
use hir_backends::AttributeValidator;
use hir_items::Lowering;
use hir_reports::ErrorStore;
use sqlite_items::at;

/// One more, where it is there.
fn keep<T: Drop>(list: &mut Vec<T>, one: Option<T>) -> Result<(), NoMemory>
    ensures { OnOk result (list.new.items ≡ list.old.items ++ cons_option one []) }
{
    match one {
        Some(one) => {
            list.push(one)?;
            Ok(())
        }
        None => Ok(()),
    }
}

/// The item that stands at a place of the module.
fn lower_found<'tree, K: DefinitionKind, V: AttributeValidator>(
    env: &Env,
    lent: &Lowering<'_, V>,
    marks: &[Attrs],
    place: ItemPlace,
    module: &'tree Module,
    item: &'tree Item,
    errors: &mut ErrorStore<'tree>,
) -> Result<Option<K::Def>, NoMemory>
    requires same { lent.now.env.now ≡ env.now }
    requires sound { AreSound env.now }
    requires there { slice_get env.now place.«module» ≡ Some «module».now }
    requires found { slice_get «module».now.items place.item ≡ Some item.now }
    requires marks { marks.now
        ≡ map (module_marks (V.meaning lent.now.validator.now) env.now) env.now }
    ensures told { (it : Interface) → IsInterface it
        → Lends (V.meaning lent.now.validator.now) lent.now it
        → OnOk result (errors.new.reports ≡ errors.old.reports
        ++ reports_of it K.told place («module».now, item.now)) }
    ensures made { (it : Interface) → IsInterface it
        → Lends (V.meaning lent.now.validator.now) lent.now it
        → IfOk result (λ made. made ≡ unless_reported
        (reports_of it K.told place («module».now, item.now))
        (form_of it K.made place («module».now, item.now))) }
    ensures kept { HoldsStill errors.old errors.new }
{
    errors.set_module(module.path.as_slice());
    K::lower(lent, place, &marks[place.module], item, errors)
}

/// The item at a place.
fn lower_at<'tree, K: DefinitionKind, V: AttributeValidator>(
    env: &'tree Env,
    lent: &Lowering<'_, V>,
    marks: &[Attrs],
    place: ItemPlace,
    errors: &mut ErrorStore<'tree>,
) -> Result<Option<K::Def>, NoMemory>
    requires same { lent.now.env.now ≡ env.now }
    requires sound { AreSound env.now }
    requires marks { marks.now
        ≡ map (module_marks (V.meaning lent.now.validator.now) env.now) env.now }
    ensures told { (it : Interface) → IsInterface it
        → Lends (V.meaning lent.now.validator.now) lent.now it
        → OnOk result (errors.new.reports ≡ errors.old.reports ++ reports_at it K.told place) }
    ensures made { (it : Interface) → IsInterface it
        → Lends (V.meaning lent.now.validator.now) lent.now it
        → IfOk result (λ made. made ≡ made_at it K.told K.made place) }
    ensures kept { HoldsStill errors.old errors.new }
{
    let Some(module) = at(env.modules(), place.module) else {
        return Ok(None);
    };
    let Some(item) = at(module.items.as_slice(), place.item) else {
        return Ok(None);
    };
    lower_found::<K, V>(env, lent, marks, place, module, item, errors)
}

/// The items at these places, in order. A fault in one ends nothing.
pub fn lower_each<'tree, K: DefinitionKind, V: AttributeValidator>(
    env: &'tree Env,
    lent: &Lowering<'_, V>,
    marks: &[Attrs],
    places: &[ItemPlace],
    errors: &mut ErrorStore<'tree>,
) -> Result<Vec<K::Def>, NoMemory>
    requires same { lent.now.env.now ≡ env.now }
    requires sound { AreSound env.now }
    requires marks { marks.now
        ≡ map (module_marks (V.meaning lent.now.validator.now) env.now) env.now }
    ensures told { (it : Interface) → IsInterface it
        → Lends (V.meaning lent.now.validator.now) lent.now it
        → OnOk result (errors.new.reports
        ≡ errors.old.reports ++ each_report it K.told places.now) }
    ensures made { (it : Interface) → IsInterface it
        → Lends (V.meaning lent.now.validator.now) lent.now it
        → IfOk result (λ made. made.items ≡ each_made it K.told K.made places.now) }
    ensures kept { HoldsStill errors.old errors.new }
{
    let mut made = Vec::new(lent.alloc);
    for place in places {
        let one = lower_at::<K, V>(env, lent, marks, *place, errors)?;
        keep(&mut made, one)?;
    }
    Ok(made)
}
