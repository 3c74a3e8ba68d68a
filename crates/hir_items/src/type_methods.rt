//! The methods of a type, each at its own place.

ghost use Rattle.std.specs.Prelude.{◌≡◌, ◌++◌, ◌<◌, [], IfOk, None, OnOk, Some, length, map};
ghost use Rattle.std.specs.List.{All, filter_map};
ghost use Rattle.bridge_decl.specs.Lifetimes.{IsSoundEnvironment};
ghost use Rattle.hir_modules.specs.Holding.{HoldsStill};
ghost use Rattle.hir_reports.specs.Store.{at_subitem};
ghost use Rattle.hir_number.specs.Naming.{IsNaming, Naming};
ghost use Rattle.hir_items.specs.Setting.{setting};
ghost use Rattle.hir_items.specs.TypeMethods.{all_method_reports, each_method_reports, method_reports, one_method_form, type_method_form, type_method_reports};
ghost use Rattle.hir_items.specs.inside.Reported.{with_reports};

use crate::choosing::{after, keep};
use crate::loans::Lowering;
use crate::repeated::tell_repeated;
use bridge_ast::ItemPlace;
use bridge_decl::{AttrInheritContext, Items, Method as Declared, NoMemory};
use hir_attrs::Attrs;
use hir_backends::AttributeValidator;
use hir_definitions::Method;
use hir_methods::{lower_method, what_is_fine_is_made};
use hir_reports::ErrorStore;

/// A method of the item of the store, told at the method. Afterwards the place is the item's.
fn lower_at_itself<'tree, V: AttributeValidator>(
    lent: &Lowering<'_, V>,
    place: ItemPlace,
    module_set: &Attrs,
    method: &'tree Declared,
    errors: &mut ErrorStore<'tree>,
) -> Result<Option<Method>, NoMemory>
    requires number { place.«module» < length lent.now.env.now }
    requires sound { IsSoundEnvironment method.now.lifetime_env }
    ensures told { (names : Naming) → IsNaming lent.now.env.now place.«module» names
        → OnOk result (errors.new ≡ with_reports (at_subitem errors.old None) (method_reports
        (setting (V.meaning lent.now.validator.now) lent.now names) errors.old.place.«module»
        errors.old.place.item place module_set.now method.now)) }
    ensures made { (names : Naming) → IsNaming lent.now.env.now place.«module» names
        → IfOk result (λ made. method_reports
        (setting (V.meaning lent.now.validator.now) lent.now names) errors.old.place.«module»
        errors.old.place.item place module_set.now method.now ≡ [] → made ≡ one_method_form
        (setting (V.meaning lent.now.validator.now) lent.now names) place module_set.now
        method.now) }
    ensures kept { HoldsStill errors.old errors.new }
{
    let context = AttrInheritContext::MethodOrImplFromModule;
    let parent = module_set.for_inheritance(lent.alloc, context)?;
    errors.set_subitem(method.name.as_str());
    let made = lower_method(
        lent.alloc,
        lent.env,
        place.module,
        place,
        method,
        parent,
        lent.validator,
        lent.support,
        lent.config,
        lent.catalog,
        errors,
    )?;
    errors.clear_subitem();
    Ok(made)
}

/// Adds those methods of the item of the store that aren't disabled and of which nothing is told.
fn add_methods<'tree, V: AttributeValidator>(
    lent: &Lowering<'_, V>,
    place: ItemPlace,
    module_set: &Attrs,
    methods: &'tree [Declared],
    lowered: &mut Items<Method>,
    errors: &mut ErrorStore<'tree>,
) -> Result<(), NoMemory>
    requires number { place.«module» < length lent.now.env.now }
    requires sound { All IsSoundEnvironment (map (λ method. method.lifetime_env) methods.now) }
    ensures told { (names : Naming) → IsNaming lent.now.env.now place.«module» names
        → OnOk result (errors.new ≡ with_reports (at_subitem errors.old None)
        (each_method_reports
        (setting (V.meaning lent.now.validator.now) lent.now names) errors.old.place.«module»
        errors.old.place.item place module_set.now methods.now)) }
    ensures made { (names : Naming) → IsNaming lent.now.env.now place.«module» names
        → OnOk result (each_method_reports
        (setting (V.meaning lent.now.validator.now) lent.now names) errors.old.place.«module»
        errors.old.place.item place module_set.now methods.now ≡ []
        → lowered.new ≡ lowered.old ++ filter_map (one_method_form
        (setting (V.meaning lent.now.validator.now) lent.now names) place module_set.now)
        methods.now) }
    ensures kept { HoldsStill errors.old errors.new }
{
    errors.clear_subitem();
    for method in methods {
        let one = lower_at_itself(lent, place, module_set, method, errors)?;
        keep(lowered, one)?;
    }
    Ok(())
}

/// The same, and tells of those that stand once on a type and stand there before.
fn add_all_methods<'tree, V: AttributeValidator>(
    lent: &Lowering<'_, V>,
    place: ItemPlace,
    module_set: &Attrs,
    methods: &'tree [Declared],
    lowered: &mut Items<Method>,
    errors: &mut ErrorStore<'tree>,
) -> Result<(), NoMemory>
    requires number { place.«module» < length lent.now.env.now }
    requires sound { All IsSoundEnvironment (map (λ method. method.lifetime_env) methods.now) }
    ensures told { (names : Naming) → IsNaming lent.now.env.now place.«module» names
        → OnOk result (errors.new ≡ with_reports (at_subitem errors.old None)
        (all_method_reports
        (setting (V.meaning lent.now.validator.now) lent.now names) errors.old.place.«module»
        errors.old.place.item place module_set.now methods.now)) }
    ensures made { (names : Naming) → IsNaming lent.now.env.now place.«module» names
        → OnOk result (all_method_reports
        (setting (V.meaning lent.now.validator.now) lent.now names) errors.old.place.«module»
        errors.old.place.item place module_set.now methods.now ≡ []
        → lowered.new ≡ lowered.old ++ filter_map (one_method_form
        (setting (V.meaning lent.now.validator.now) lent.now names) place module_set.now)
        methods.now) }
    ensures kept { HoldsStill errors.old errors.new }
{
    add_methods(lent, place, module_set, methods, lowered, errors)?;
    tell_repeated(lent, module_set, methods, errors)
}

/// The methods of the item of the store, a type with these marks: the enabled ones, in order, and
/// none where the type is disabled. What is wrong in one is told at it, and keeps no other from being
/// told. Where something is told, what is made is of no use.
pub(crate) fn lower_type_methods<'tree, V: AttributeValidator>(
    lent: &Lowering<'_, V>,
    place: ItemPlace,
    module_set: &Attrs,
    marks: &Attrs,
    methods: &'tree [Declared],
    errors: &mut ErrorStore<'tree>,
) -> Result<Items<Method>, NoMemory>
    requires number { place.«module» < length lent.now.env.now }
    requires sound { All IsSoundEnvironment (map (λ method. method.lifetime_env) methods.now) }
    ensures told { (names : Naming) → IsNaming lent.now.env.now place.«module» names
        → OnOk result (errors.new ≡ with_reports (at_subitem errors.old None)
        (type_method_reports
        (setting (V.meaning lent.now.validator.now) lent.now names) errors.old.place.«module»
        errors.old.place.item place module_set.now marks.now methods.now)) }
    ensures made { (names : Naming) → IsNaming lent.now.env.now place.«module» names
        → IfOk result (λ lowered. type_method_reports
        (setting (V.meaning lent.now.validator.now) lent.now names) errors.old.place.«module»
        errors.old.place.item place module_set.now marks.now methods.now ≡ []
        → type_method_form (setting (V.meaning lent.now.validator.now) lent.now names) place
        module_set.now marks.now methods.now ≡ Some lowered) }
    ensures kept { HoldsStill errors.old errors.new }
{
    what_is_fine_is_made();
    let mut lowered = Items::new(lent.alloc);
    if marks.disable {
        errors.clear_subitem();
        return Ok(lowered);
    }
    let done = add_all_methods(lent, place, module_set, methods, &mut lowered, errors);
    after(lowered, done)
}
