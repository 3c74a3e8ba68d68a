//! Methods of traits, each at its place.

ghost use Rattle.std.specs.Prelude.{◌≡◌, ◌++◌, ◌<◌, [], All, IfOk, OnOk, Some, length};
ghost use Rattle.bridge_decl.specs.Lifetimes.{IsSoundEnvironment};
ghost use Rattle.bridge_decl.specs.declared.traits.TraitMethod.{TraitMethod};
ghost use Rattle.hir_attrs.specs.Reading.{marks_of};
ghost use Rattle.hir_items.specs.Placing.{where_enabled};
ghost use Rattle.hir_items.specs.inside.Reported.{GivenUnlessReported};
ghost use Rattle.hir_methods.specs.Untyped.{unless_disabled};
ghost use Rattle.hir_methods.specs.inside.Parts.{GivenUnlessTold};
ghost use Rattle.hir_modules.specs.Holding.{HoldsStill};
ghost use Rattle.hir_number.specs.Naming.{IsNaming, Naming};
ghost use Rattle.hir_reports.specs.Store.{Held, Keeps, added, at_subitem};
ghost use Rattle.hir_traits.specs.TraitMethods.{enabled_trait_method_errors, enabled_trait_method_form, trait_method_errors, trait_method_form};
ghost use Rattle.hir_traits.specs.Traits.{trait_methods_form, trait_methods_reports};
ghost use Rattle.hir_traits.specs.inside.Parts.{with_next_method};

use crate::callbacks::join_whole;
use crate::heads::lower_head;
use crate::types::lower_types;
use bridge_ast::ItemPlace;
use bridge_decl::{Items, NoMemory, TraitMethod};
use hir_attrs::Attrs;
use hir_backends::AttributeValidator;
use hir_items::Lowering;
use hir_methods::{beside, keep, read_marks};
use hir_reports::ErrorStore;
use hir_types::Callback;

/// An enabled method of the trait there, with these marks.
fn lower_enabled<V: AttributeValidator>(
    lowering: &Lowering<'_, V>,
    place: ItemPlace,
    method: &TraitMethod,
    attrs: Attrs,
    errors: &mut ErrorStore<'_>,
) -> Result<Option<Callback>, NoMemory>
    requires inside { place.«module» < length lowering.now.env.now }
    requires sound { IsSoundEnvironment method.now.lifetimes }
    ensures told { (names : Naming) → IsNaming lowering.now.env.now place.«module» names
        → OnOk result (errors.new ≡ added errors.old (enabled_trait_method_errors
        (V.meaning lowering.now.validator.now) lowering.now.support.now lowering.now.config
        lowering.now.catalog.now names place method.now)) }
    ensures made { (names : Naming) → IsNaming lowering.now.env.now place.«module» names
        → IfOk result (GivenUnlessTold (enabled_trait_method_errors
        (V.meaning lowering.now.validator.now) lowering.now.support.now lowering.now.config
        lowering.now.catalog.now names place method.now) (enabled_trait_method_form
        (V.meaning lowering.now.validator.now) lowering.now.catalog.now names place attrs
        method.now)) }
    ensures kept { (earlier : Held) → Keeps earlier errors.old → Keeps earlier errors.new }
{
    let read = lower_head(lowering.alloc, method, lowering.validator, errors)?;
    let types = lower_types(lowering, place, method, read.are_named, errors);
    let parts = beside(read.head, types)?;
    join_whole(lowering.alloc, attrs, parts)
}

/// One more method, where all before it are made. It is left out where it is disabled.
fn lower_marked<V: AttributeValidator>(
    lowering: &Lowering<'_, V>,
    place: ItemPlace,
    method: &TraitMethod,
    attrs: Attrs,
    methods: &mut Option<Items<Callback>>,
    errors: &mut ErrorStore<'_>,
) -> Result<(), NoMemory>
    requires inside { place.«module» < length lowering.now.env.now }
    requires sound { IsSoundEnvironment method.now.lifetimes }
    ensures told { (names : Naming) → IsNaming lowering.now.env.now place.«module» names
        → OnOk result (errors.new ≡ added errors.old (unless_disabled attrs
        (enabled_trait_method_errors (V.meaning lowering.now.validator.now)
        lowering.now.support.now lowering.now.config lowering.now.catalog.now names place
        method.now))) }
    ensures made { (names : Naming) → IsNaming lowering.now.env.now place.«module» names
        → OnOk result (unless_disabled attrs (enabled_trait_method_errors
        (V.meaning lowering.now.validator.now) lowering.now.support.now lowering.now.config
        lowering.now.catalog.now names place method.now) ≡ [] → methods.new
        ≡ with_next_method attrs methods.old (enabled_trait_method_form
        (V.meaning lowering.now.validator.now) lowering.now.catalog.now names place attrs
        method.now)) }
    ensures kept { (earlier : Held) → Keeps earlier errors.old → Keeps earlier errors.new }
{
    if attrs.disable {
        return Ok(());
    }
    let one = lower_enabled(lowering, place, method, attrs, errors)?;
    keep(methods, one)
}

/// One more method, whose marks start from the whole set of its trait.
fn lower_method<V: AttributeValidator>(
    lowering: &Lowering<'_, V>,
    place: ItemPlace,
    method: &TraitMethod,
    parent: &Attrs,
    methods: &mut Option<Items<Callback>>,
    errors: &mut ErrorStore<'_>,
) -> Result<(), NoMemory>
    requires inside { place.«module» < length lowering.now.env.now }
    requires sound { IsSoundEnvironment method.now.lifetimes }
    ensures told { (names : Naming) → IsNaming lowering.now.env.now place.«module» names
        → OnOk result (errors.new ≡ added errors.old (trait_method_errors
        (V.meaning lowering.now.validator.now) lowering.now.support.now lowering.now.config
        lowering.now.catalog.now names place parent.now method.now)) }
    ensures made { (names : Naming) → IsNaming lowering.now.env.now place.«module» names
        → OnOk result (trait_method_errors (V.meaning lowering.now.validator.now)
        lowering.now.support.now lowering.now.config lowering.now.catalog.now names place
        parent.now method.now ≡ [] → methods.new ≡ with_next_method
        (marks_of (V.meaning lowering.now.validator.now) method.now.attrs parent.now)
        methods.old (trait_method_form (V.meaning lowering.now.validator.now)
        lowering.now.catalog.now names place parent.now method.now)) }
    ensures kept { (earlier : Held) → Keeps earlier errors.old → Keeps earlier errors.new }
{
    let start = parent.try_clone(lowering.alloc)?;
    let attrs = read_marks(
        lowering.alloc,
        &method.attrs,
        start,
        lowering.validator,
        errors,
    )?;
    lower_marked(lowering, place, method, attrs, methods, errors)
}

/// The same, at the place of the method.
fn lower_next<'tree, V: AttributeValidator>(
    lowering: &Lowering<'_, V>,
    place: ItemPlace,
    method: &'tree TraitMethod,
    parent: &Attrs,
    methods: &mut Option<Items<Callback>>,
    errors: &mut ErrorStore<'tree>,
) -> Result<(), NoMemory>
    requires inside { place.«module» < length lowering.now.env.now }
    requires sound { IsSoundEnvironment method.now.lifetimes }
    ensures told { (names : Naming) → IsNaming lowering.now.env.now place.«module» names
        → OnOk result (errors.new ≡ added (at_subitem errors.old (Some method.now.name))
        (trait_method_errors (V.meaning lowering.now.validator.now) lowering.now.support.now
        lowering.now.config lowering.now.catalog.now names place parent.now method.now)) }
    ensures made { (names : Naming) → IsNaming lowering.now.env.now place.«module» names
        → OnOk result (trait_method_errors (V.meaning lowering.now.validator.now)
        lowering.now.support.now lowering.now.config lowering.now.catalog.now names place
        parent.now method.now ≡ [] → methods.new ≡ with_next_method
        (marks_of (V.meaning lowering.now.validator.now) method.now.attrs parent.now)
        methods.old (trait_method_form (V.meaning lowering.now.validator.now)
        lowering.now.catalog.now names place parent.now method.now)) }
    ensures kept { (earlier : Held) → HoldsStill earlier errors.old
        → HoldsStill earlier errors.new }
{
    errors.set_subitem(method.name.as_str());
    lower_method(lowering, place, method, parent, methods, errors)
}

/// All methods of a list. None only where something is told of them.
fn lower_each<'tree, V: AttributeValidator>(
    lowering: &Lowering<'_, V>,
    place: ItemPlace,
    methods: &'tree [TraitMethod],
    parent: &Attrs,
    errors: &mut ErrorStore<'tree>,
) -> Result<Option<Items<Callback>>, NoMemory>
    requires inside { place.«module» < length lowering.now.env.now }
    requires sound { All (λ (m : TraitMethod). IsSoundEnvironment m.lifetimes) methods.now }
    ensures told { (names : Naming) → IsNaming lowering.now.env.now place.«module» names
        → OnOk result (errors.new.reports ≡ errors.old.reports ++ trait_methods_reports
        (V.meaning lowering.now.validator.now) lowering.now.support.now lowering.now.config
        lowering.now.catalog.now names place parent.now errors.old.place.«module»
        errors.old.place.item methods.now) }
    ensures made { (names : Naming) → IsNaming lowering.now.env.now place.«module» names
        → IfOk result (GivenUnlessReported (trait_methods_reports
        (V.meaning lowering.now.validator.now) lowering.now.support.now lowering.now.config
        lowering.now.catalog.now names place parent.now errors.old.place.«module»
        errors.old.place.item methods.now) (trait_methods_form
        (V.meaning lowering.now.validator.now) lowering.now.catalog.now names place parent.now
        methods.now)) }
    ensures kept { (earlier : Held) → HoldsStill earlier errors.old
        → HoldsStill earlier errors.new }
{
    let mut made = Some(Items::new(lowering.alloc));
    for method in methods {
        lower_next(lowering, place, method, parent, &mut made, errors)?;
    }
    Ok(made)
}

/// The methods of a trait with that set of marks: a disabled one has none.
pub fn lower_methods<'tree, V: AttributeValidator>(
    lowering: &Lowering<'_, V>,
    place: ItemPlace,
    methods: &'tree [TraitMethod],
    parent: &Attrs,
    errors: &mut ErrorStore<'tree>,
) -> Result<Option<Items<Callback>>, NoMemory>
    requires inside { place.«module» < length lowering.now.env.now }
    requires sound { All (λ (m : TraitMethod). IsSoundEnvironment m.lifetimes) methods.now }
    ensures told { (names : Naming) → IsNaming lowering.now.env.now place.«module» names
        → OnOk result (errors.new.reports ≡ errors.old.reports ++ trait_methods_reports
        (V.meaning lowering.now.validator.now) lowering.now.support.now lowering.now.config
        lowering.now.catalog.now names place parent.now errors.old.place.«module»
        errors.old.place.item (where_enabled parent.now methods.now)) }
    ensures made { (names : Naming) → IsNaming lowering.now.env.now place.«module» names
        → IfOk result (GivenUnlessReported (trait_methods_reports
        (V.meaning lowering.now.validator.now) lowering.now.support.now lowering.now.config
        lowering.now.catalog.now names place parent.now errors.old.place.«module»
        errors.old.place.item (where_enabled parent.now methods.now))
        (trait_methods_form (V.meaning lowering.now.validator.now) lowering.now.catalog.now
        names place parent.now (where_enabled parent.now methods.now))) }
    ensures kept { (earlier : Held) → HoldsStill earlier errors.old
        → HoldsStill earlier errors.new }
{
    if parent.disable {
        return Ok(Some(Items::new(lowering.alloc)));
    }
    lower_each(lowering, place, methods, parent, errors)
}
