//! Structs and out-structs.

ghost use Rattle.std.specs.Prelude.{◌≡◌, ◌≢◌, ◌++◌, ◌<◌, ◌↔◌, [], IfOk, IsTrue, OnOk, length};
ghost use Rattle.bridge_ast.specs.Sound.{HasSoundLifetimes};
ghost use Rattle.bridge_decl.specs.Lifetimes.{IsSoundEnvironment};
ghost use Rattle.bridge_decl.specs.declared.modules.Item.TheVariants as item_of;
ghost use Rattle.hir_fields.specs.Fields.{fields_errors, fields_form, out_fields_errors, out_fields_form};
ghost use Rattle.hir_heads.specs.Heads.{lifetime_errors};
ghost use Rattle.hir_items.specs.Placing.{unless_reported, where_enabled};
ghost use Rattle.hir_items.specs.Setting.{setting};
ghost use Rattle.hir_items.specs.Structs.{out_struct_item_form, out_struct_own_errors, out_struct_reports, struct_item_form, struct_own_errors, struct_reports, type_fields_form, zero_size_errors};
ghost use Rattle.hir_items.specs.inside.Reported.{GivenUnlessReported};
ghost use Rattle.hir_items.specs.inside.StructParts.{both_parts, out_struct_own_form, struct_own, struct_own_form};
ghost use Rattle.hir_methods.specs.inside.Parts.{GivenUnlessTold};
ghost use Rattle.hir_modules.specs.Holding.{HoldsStill};
ghost use Rattle.hir_number.specs.Naming.{IsNaming, Naming};
ghost use Rattle.hir_reports.specs.Store.{Held, Keeps, added};

use crate::choosing::unless_more;
use crate::defining::{Own, define};
use crate::heads::{Title, lower_title, lower_type_notes};
use crate::loans::Lowering;
use crate::telling::tell_if;
use crate::type_methods::lower_type_methods;
use bridge_ast::ItemPlace;
use bridge_decl::{Items, NoMemory, Struct};
use hir_attrs::Attrs;
use hir_backends::AttributeValidator;
use hir_definitions::{
    Method, OutStructDef, OutStructField, SpecialMethodPresence, StructDef, StructField,
    TypingUseInfo,
};
use hir_fields::{lower_fields, lower_out_fields};
use hir_heads::Notes;
use hir_ids::Ident;
use hir_mark_contexts::MarkContext;
use hir_methods::paired;
use hir_reports::{ErrorStore, Rule};
use hir_types::{Everywhere, OutputOnly, TyPosition};
use std::alloc::Global;

/// What a struct or an out-struct has beside its notes and its methods.
#[derive(Drop)]
pub struct StructOwn<P: TyPosition> {
    /// Its name and its lifetimes.
    pub title: Title,
    /// Its fields, in order.
    pub fields: Items<StructField<P>>,
}

impl<P: TyPosition> Own for StructOwn<P> {
    ghost use Rattle.hir_items.specs.inside.StructParts.{defined_struct};

    type Definition = StructDef<P>;

    ghost define = { defined_struct };

    fn define(
        self,
        alloc: Global,
        notes: Notes,
        methods: Items<Method>,
        special_method_presence: SpecialMethodPresence,
    ) -> StructDef<P> {
        let StructOwn { title, fields } = self;
        let Title { name, lifetimes } = title;
        let Notes { docs, attrs } = notes;
        StructDef {
            docs,
            name: Ident::new(name),
            fields,
            methods,
            attrs,
            lifetimes,
            special_method_presence,
            usage: TypingUseInfo::unused(alloc),
        }
    }
}

/// What a struct has itself, where there are its title and its fields.
fn both_parts<P: TyPosition>(
    title: Option<Title>,
    fields: Option<Items<StructField<P>>>,
) -> Option<StructOwn<P>>
    ensures { result ≡ both_parts title fields }
{
    match paired(title, fields) {
        Some((title, fields)) => Some(StructOwn { title, fields }),
        None => None,
    }
}

/// The same, unless there was no memory for the fields.
fn struct_own<P: TyPosition>(
    title: Option<Title>,
    fields: Result<Option<Items<StructField<P>>>, NoMemory>,
) -> Result<Option<StructOwn<P>>, NoMemory>
    ensures { result ≡ struct_own title fields }
{
    match fields {
        Ok(fields) => Ok(both_parts(title, fields)),
        Err(error) => Err(error),
    }
}

/// Whether a struct has methods but no fields.
fn has_methods_alone(item: &Struct) -> bool
    ensures { IsTrue result ↔ ((item.now.fields ≡ []) × (item.now.methods ≢ [])) }
{
    item.fields.is_empty() && !item.methods.is_empty()
}

/// Tells of a struct that it has methods but no fields, where it is so.
fn tell_zero_size(alloc: Global, item: &Struct, errors: &mut ErrorStore<'_>) -> Result<(), NoMemory>
    ensures told { OnOk result (errors.new
        ≡ added errors.old (zero_size_errors item.now.fields item.now.methods)) }
    ensures kept { (earlier : Held) → Keeps earlier errors.old → Keeps earlier errors.new }
{
    tell_if(
        alloc,
        has_methods_alone(item),
        Rule::ZeroSizeMethods,
        errors,
    )
}

/// The fields of a struct with these marks: none where it is disabled, of which nothing more is told.
fn struct_fields<V: AttributeValidator>(
    lent: &Lowering<'_, V>,
    number: usize,
    marks: &Attrs,
    item: &Struct,
    errors: &mut ErrorStore<'_>,
) -> Result<Option<Items<StructField<Everywhere>>>, NoMemory>
    requires number { number < length lent.now.env.now }
    requires sound { IsSoundEnvironment item.now.lifetimes }
    ensures told { (names : Naming) → IsNaming lent.now.env.now number names
        → OnOk result (errors.new ≡ added errors.old (where_enabled marks.now
        (zero_size_errors item.now.fields item.now.methods
        ++ fields_errors (V.meaning lent.now.validator.now) lent.now.catalog.now
        names item.now))) }
    ensures made { (names : Naming) → IsNaming lent.now.env.now number names
        → IfOk result (GivenUnlessTold (lifetime_errors item.now.lifetimes
        ++ where_enabled marks.now (zero_size_errors item.now.fields item.now.methods
        ++ fields_errors
        (V.meaning lent.now.validator.now) lent.now.catalog.now names item.now))
        (type_fields_form marks.now (fields_form (V.meaning lent.now.validator.now)
        lent.now.catalog.now names item.now))) }
    ensures kept { (earlier : Held) → Keeps earlier errors.old → Keeps earlier errors.new }
{
    if marks.disable {
        return Ok(Some(Items::new(lent.alloc)));
    }
    tell_zero_size(lent.alloc, item, errors)?;
    lower_fields(
        lent.alloc,
        lent.env,
        number,
        item,
        lent.catalog,
        lent.validator,
        errors,
    )
}

/// What a struct with these marks has beside its notes and its methods.
fn struct_itself<V: AttributeValidator>(
    lent: &Lowering<'_, V>,
    number: usize,
    marks: &Attrs,
    item: &Struct,
    errors: &mut ErrorStore<'_>,
) -> Result<Option<StructOwn<Everywhere>>, NoMemory>
    requires number { number < length lent.now.env.now }
    requires sound { IsSoundEnvironment item.now.lifetimes }
    ensures told { (names : Naming) → IsNaming lent.now.env.now number names
        → OnOk result (errors.new ≡ added errors.old (struct_own_errors
        (setting (V.meaning lent.now.validator.now) lent.now names) marks.now item.now)) }
    ensures made { (names : Naming) → IsNaming lent.now.env.now number names
        → IfOk result (GivenUnlessTold (struct_own_errors
        (setting (V.meaning lent.now.validator.now) lent.now names) marks.now item.now)
        (struct_own_form (setting (V.meaning lent.now.validator.now) lent.now names)
        marks.now item.now)) }
    ensures kept { (earlier : Held) → Keeps earlier errors.old → Keeps earlier errors.new }
{
    let title = lower_title(lent.alloc, &item.name, &item.lifetimes, errors)?;
    let fields = struct_fields(lent, number, marks, item, errors);
    struct_own(title, fields)
}

/// A struct, where nothing is told of it.
fn struct_here<'tree, V: AttributeValidator>(
    lent: &Lowering<'_, V>,
    place: ItemPlace,
    module_set: &Attrs,
    item: &'tree Struct,
    errors: &mut ErrorStore<'tree>,
) -> Result<Option<StructDef<Everywhere>>, NoMemory>
    requires number { place.«module» < length lent.now.env.now }
    requires sound { HasSoundLifetimes (item_of.Struct item.now) }
    ensures told { (names : Naming) → IsNaming lent.now.env.now place.«module» names
        → OnOk result (errors.new.reports ≡ errors.old.reports ++ struct_reports
        (setting (V.meaning lent.now.validator.now) lent.now names) errors.old.place.«module»
        place module_set.now item.now) }
    ensures made { (names : Naming) → IsNaming lent.now.env.now place.«module» names
        → IfOk result (GivenUnlessReported (struct_reports
        (setting (V.meaning lent.now.validator.now) lent.now names) errors.old.place.«module»
        place module_set.now item.now) (struct_item_form
        (setting (V.meaning lent.now.validator.now) lent.now names) place module_set.now
        item.now)) }
    ensures kept { HoldsStill errors.old errors.new }
{
    errors.set_item(item.name.as_str());
    let context = MarkContext::Struct;
    let notes = lower_type_notes(lent, module_set, context, &item.docs, &item.attrs, errors)?;
    let own = struct_itself(lent, place.module, &notes.attrs, item, errors)?;
    let methods = item.methods.as_slice();
    let methods = lower_type_methods(lent, place, module_set, &notes.attrs, methods, errors);
    define(lent.alloc, notes, own, methods)
}

/// A struct at a place of a module with these marks, which is told with all that is wrong in it: at
/// itself, and at each of its methods. Of a disabled one its marks, the conditions of its documents,
/// its name and the names of its lifetimes alone are tested, and it has no fields and no methods.
/// None exactly where something is told. The caller has set the module of the store. `NoMemory`
/// where there is no memory for it or for the reports.
pub fn lower_struct<'tree, V: AttributeValidator>(
    lent: &Lowering<'_, V>,
    place: ItemPlace,
    module_set: &Attrs,
    item: &'tree Struct,
    errors: &mut ErrorStore<'tree>,
) -> Result<Option<StructDef<Everywhere>>, NoMemory>
    requires number { place.«module» < length lent.now.env.now }
    requires sound { HasSoundLifetimes (item_of.Struct item.now) }
    ensures told { (names : Naming) → IsNaming lent.now.env.now place.«module» names
        → OnOk result (errors.new.reports ≡ errors.old.reports ++ struct_reports
        (setting (V.meaning lent.now.validator.now) lent.now names) errors.old.place.«module»
        place module_set.now item.now) }
    ensures made { (names : Naming) → IsNaming lent.now.env.now place.«module» names
        → IfOk result (λ made. made ≡ unless_reported (struct_reports
        (setting (V.meaning lent.now.validator.now) lent.now names) errors.old.place.«module»
        place module_set.now item.now) (struct_item_form
        (setting (V.meaning lent.now.validator.now) lent.now names) place module_set.now
        item.now)) }
    ensures kept { HoldsStill errors.old errors.new }
{
    let before = errors.len();
    let made = struct_here(lent, place, module_set, item, errors)?;
    Ok(unless_more(before, errors, made))
}

/// The fields of an out-struct with these marks: none where it is disabled, of which nothing more is told.
fn out_struct_fields<V: AttributeValidator>(
    lent: &Lowering<'_, V>,
    number: usize,
    marks: &Attrs,
    item: &Struct,
    errors: &mut ErrorStore<'_>,
) -> Result<Option<Items<OutStructField>>, NoMemory>
    requires number { number < length lent.now.env.now }
    requires sound { IsSoundEnvironment item.now.lifetimes }
    ensures told { (names : Naming) → IsNaming lent.now.env.now number names
        → OnOk result (errors.new ≡ added errors.old (where_enabled marks.now
        (out_fields_errors (V.meaning lent.now.validator.now) lent.now.catalog.now
        names item.now))) }
    ensures made { (names : Naming) → IsNaming lent.now.env.now number names
        → IfOk result (GivenUnlessTold (lifetime_errors item.now.lifetimes
        ++ where_enabled marks.now (out_fields_errors
        (V.meaning lent.now.validator.now) lent.now.catalog.now names item.now))
        (type_fields_form marks.now (out_fields_form (V.meaning lent.now.validator.now)
        lent.now.catalog.now names item.now))) }
    ensures kept { (earlier : Held) → Keeps earlier errors.old → Keeps earlier errors.new }
{
    if marks.disable {
        return Ok(Some(Items::new(lent.alloc)));
    }
    lower_out_fields(
        lent.alloc,
        lent.env,
        number,
        item,
        lent.catalog,
        lent.validator,
        errors,
    )
}

/// What an out-struct with these marks has beside its notes and its methods.
fn out_struct_itself<V: AttributeValidator>(
    lent: &Lowering<'_, V>,
    number: usize,
    marks: &Attrs,
    item: &Struct,
    errors: &mut ErrorStore<'_>,
) -> Result<Option<StructOwn<OutputOnly>>, NoMemory>
    requires number { number < length lent.now.env.now }
    requires sound { IsSoundEnvironment item.now.lifetimes }
    ensures told { (names : Naming) → IsNaming lent.now.env.now number names
        → OnOk result (errors.new ≡ added errors.old (out_struct_own_errors
        (setting (V.meaning lent.now.validator.now) lent.now names) marks.now item.now)) }
    ensures made { (names : Naming) → IsNaming lent.now.env.now number names
        → IfOk result (GivenUnlessTold (out_struct_own_errors
        (setting (V.meaning lent.now.validator.now) lent.now names) marks.now item.now)
        (out_struct_own_form (setting (V.meaning lent.now.validator.now) lent.now names)
        marks.now item.now)) }
    ensures kept { (earlier : Held) → Keeps earlier errors.old → Keeps earlier errors.new }
{
    let title = lower_title(lent.alloc, &item.name, &item.lifetimes, errors)?;
    let fields = out_struct_fields(lent, number, marks, item, errors);
    struct_own(title, fields)
}

/// An out-struct, where nothing is told of it.
fn out_struct_here<'tree, V: AttributeValidator>(
    lent: &Lowering<'_, V>,
    place: ItemPlace,
    module_set: &Attrs,
    item: &'tree Struct,
    errors: &mut ErrorStore<'tree>,
) -> Result<Option<OutStructDef>, NoMemory>
    requires number { place.«module» < length lent.now.env.now }
    requires sound { HasSoundLifetimes (item_of.Struct item.now) }
    ensures told { (names : Naming) → IsNaming lent.now.env.now place.«module» names
        → OnOk result (errors.new.reports ≡ errors.old.reports ++ out_struct_reports
        (setting (V.meaning lent.now.validator.now) lent.now names) errors.old.place.«module»
        place module_set.now item.now) }
    ensures made { (names : Naming) → IsNaming lent.now.env.now place.«module» names
        → IfOk result (GivenUnlessReported (out_struct_reports
        (setting (V.meaning lent.now.validator.now) lent.now names) errors.old.place.«module»
        place module_set.now item.now) (out_struct_item_form
        (setting (V.meaning lent.now.validator.now) lent.now names) place module_set.now
        item.now)) }
    ensures kept { HoldsStill errors.old errors.new }
{
    errors.set_item(item.name.as_str());
    let context = MarkContext::OutStruct;
    let notes = lower_type_notes(lent, module_set, context, &item.docs, &item.attrs, errors)?;
    let own = out_struct_itself(lent, place.module, &notes.attrs, item, errors)?;
    let methods = item.methods.as_slice();
    let methods = lower_type_methods(lent, place, module_set, &notes.attrs, methods, errors);
    define(lent.alloc, notes, own, methods)
}

/// An out-struct; else as [`lower_struct`], but that it may have methods without fields, and that the
/// layout of its fields is nothing to it.
pub fn lower_out_struct<'tree, V: AttributeValidator>(
    lent: &Lowering<'_, V>,
    place: ItemPlace,
    module_set: &Attrs,
    item: &'tree Struct,
    errors: &mut ErrorStore<'tree>,
) -> Result<Option<OutStructDef>, NoMemory>
    requires number { place.«module» < length lent.now.env.now }
    requires sound { HasSoundLifetimes (item_of.Struct item.now) }
    ensures told { (names : Naming) → IsNaming lent.now.env.now place.«module» names
        → OnOk result (errors.new.reports ≡ errors.old.reports ++ out_struct_reports
        (setting (V.meaning lent.now.validator.now) lent.now names) errors.old.place.«module»
        place module_set.now item.now) }
    ensures made { (names : Naming) → IsNaming lent.now.env.now place.«module» names
        → IfOk result (λ made. made ≡ unless_reported (out_struct_reports
        (setting (V.meaning lent.now.validator.now) lent.now names) errors.old.place.«module»
        place module_set.now item.now) (out_struct_item_form
        (setting (V.meaning lent.now.validator.now) lent.now names) place module_set.now
        item.now)) }
    ensures kept { HoldsStill errors.old errors.new }
{
    let before = errors.len();
    let made = out_struct_here(lent, place, module_set, item, errors)?;
    Ok(unless_more(before, errors, made))
}
