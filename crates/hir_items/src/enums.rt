//! Enums.

ghost use Rattle.std.specs.Prelude.{◌≡◌, ◌++◌, ◌<◌, IfOk, OnOk, length};
ghost use Rattle.bridge_ast.specs.Sound.{HasSoundLifetimes};
ghost use Rattle.bridge_decl.specs.declared.modules.Item.TheVariants as item_of;
ghost use Rattle.hir_heads.specs.Told.{MadeUnlessTold};
ghost use Rattle.hir_items.specs.Enums.{enum_item_form, enum_own_errors, enum_reports};
ghost use Rattle.hir_items.specs.Placing.{unless_reported};
ghost use Rattle.hir_items.specs.Setting.{setting};
ghost use Rattle.hir_items.specs.inside.EnumParts.{enum_own, enum_own_form};
ghost use Rattle.hir_items.specs.inside.Reported.{GivenUnlessReported};
ghost use Rattle.hir_modules.specs.Holding.{HoldsStill};
ghost use Rattle.hir_number.specs.Naming.{IsNaming, Naming};
ghost use Rattle.hir_reports.specs.Store.{Held, Keeps, added};

use crate::choosing::unless_more;
use crate::defining::{Own, define};
use crate::heads::lower_type_notes;
use crate::loans::Lowering;
use crate::type_methods::lower_type_methods;
use bridge_ast::ItemPlace;
use bridge_decl::{Enum, IdentBuf, Items, NoMemory};
use hir_attrs::Attrs;
use hir_backends::AttributeValidator;
use hir_definitions::{EnumDef, EnumVariant, Method, SpecialMethodPresence, TypingUseInfo};
use hir_fields::lower_variants;
use hir_heads::{Notes, lower_ident};
use hir_ids::Ident;
use hir_mark_contexts::MarkContext;
use hir_methods::paired;
use hir_reports::ErrorStore;
use std::alloc::Global;

/// What an enum has beside its notes and its methods.
#[derive(Drop)]
pub struct EnumOwn {
    /// Its name.
    pub name: IdentBuf,
    /// Its variants, in order.
    pub variants: Items<EnumVariant>,
}

impl Own for EnumOwn {
    ghost use Rattle.hir_items.specs.inside.EnumParts.{defined_enum};

    type Definition = EnumDef;

    ghost define = { defined_enum };

    fn define(
        self,
        alloc: Global,
        notes: Notes,
        methods: Items<Method>,
        special_method_presence: SpecialMethodPresence,
    ) -> EnumDef {
        let EnumOwn { name, variants } = self;
        let Notes { docs, attrs } = notes;
        EnumDef {
            docs,
            name: Ident::new(name),
            variants,
            methods,
            attrs,
            special_method_presence,
            usage: TypingUseInfo::unused(alloc),
        }
    }
}

/// What an enum has itself, where there are its name and its variants.
fn enum_own(name: Option<IdentBuf>, variants: Option<Items<EnumVariant>>) -> Option<EnumOwn>
    ensures { result ≡ enum_own name variants }
{
    match paired(name, variants) {
        Some((name, variants)) => Some(EnumOwn { name, variants }),
        None => None,
    }
}

/// What an enum with these marks has beside its notes and its methods, also where it is disabled.
fn lower_own<V: AttributeValidator>(
    lent: &Lowering<'_, V>,
    marks: &Attrs,
    item: &Enum,
    errors: &mut ErrorStore<'_>,
) -> Result<Option<EnumOwn>, NoMemory>
    ensures told { OnOk result (errors.new ≡ added errors.old
        (enum_own_errors (V.meaning lent.now.validator.now) marks.now item.now)) }
    ensures made { IfOk result (MadeUnlessTold
        (enum_own_errors (V.meaning lent.now.validator.now) marks.now item.now)
        (enum_own_form (V.meaning lent.now.validator.now) marks.now item.now)) }
    ensures kept { (earlier : Held) → Keeps earlier errors.old → Keeps earlier errors.new }
{
    let name = lower_ident(lent.alloc, &item.name, errors)?;
    let variants = item.variants.as_slice();
    let variants = lower_variants(lent.alloc, variants, marks, lent.validator, errors)?;
    Ok(enum_own(name, variants))
}

/// An enum, where nothing is told of it.
fn lower_here<'tree, V: AttributeValidator>(
    lent: &Lowering<'_, V>,
    place: ItemPlace,
    module_set: &Attrs,
    item: &'tree Enum,
    errors: &mut ErrorStore<'tree>,
) -> Result<Option<EnumDef>, NoMemory>
    requires number { place.«module» < length lent.now.env.now }
    requires sound { HasSoundLifetimes (item_of.Enum item.now) }
    ensures told { (names : Naming) → IsNaming lent.now.env.now place.«module» names
        → OnOk result (errors.new.reports ≡ errors.old.reports ++ enum_reports
        (setting (V.meaning lent.now.validator.now) lent.now names) errors.old.place.«module»
        place module_set.now item.now) }
    ensures made { (names : Naming) → IsNaming lent.now.env.now place.«module» names
        → IfOk result (GivenUnlessReported (enum_reports
        (setting (V.meaning lent.now.validator.now) lent.now names) errors.old.place.«module»
        place module_set.now item.now) (enum_item_form
        (setting (V.meaning lent.now.validator.now) lent.now names) place module_set.now
        item.now)) }
    ensures kept { HoldsStill errors.old errors.new }
{
    errors.set_item(item.name.as_str());
    let context = MarkContext::Enum;
    let notes = lower_type_notes(lent, module_set, context, &item.docs, &item.attrs, errors)?;
    let own = lower_own(lent, &notes.attrs, item, errors)?;
    let methods = item.methods.as_slice();
    let methods = lower_type_methods(lent, place, module_set, &notes.attrs, methods, errors);
    define(lent.alloc, notes, own, methods)
}

/// An enum at a place of a module with these marks, which is told with all that is wrong in it: at
/// itself, and at each of its methods. Of a disabled one its marks, the conditions of its documents,
/// its name and its variants alone are tested, and it has no methods. None exactly where something
/// is told. The caller has set the module of the store. `NoMemory` where there is no memory for it
/// or for the reports.
pub fn lower_enum<'tree, V: AttributeValidator>(
    lent: &Lowering<'_, V>,
    place: ItemPlace,
    module_set: &Attrs,
    item: &'tree Enum,
    errors: &mut ErrorStore<'tree>,
) -> Result<Option<EnumDef>, NoMemory>
    requires number { place.«module» < length lent.now.env.now }
    requires sound { HasSoundLifetimes (item_of.Enum item.now) }
    ensures told { (names : Naming) → IsNaming lent.now.env.now place.«module» names
        → OnOk result (errors.new.reports ≡ errors.old.reports ++ enum_reports
        (setting (V.meaning lent.now.validator.now) lent.now names) errors.old.place.«module»
        place module_set.now item.now) }
    ensures made { (names : Naming) → IsNaming lent.now.env.now place.«module» names
        → IfOk result (λ made. made ≡ unless_reported (enum_reports
        (setting (V.meaning lent.now.validator.now) lent.now names) errors.old.place.«module»
        place module_set.now item.now) (enum_item_form
        (setting (V.meaning lent.now.validator.now) lent.now names) place module_set.now
        item.now)) }
    ensures kept { HoldsStill errors.old errors.new }
{
    let before = errors.len();
    let made = lower_here(lent, place, module_set, item, errors)?;
    Ok(unless_more(before, errors, made))
}
