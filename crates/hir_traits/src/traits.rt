//! Traits with their methods.

ghost use Rattle.std.specs.Prelude.{◌≡◌, ◌++◌, ◌<◌, IfOk, OnOk, length};
ghost use Rattle.bridge_ast.specs.Sound.{HasSoundLifetimes};
ghost use Rattle.bridge_decl.specs.declared.modules.Item.TheVariants as declared;
ghost use Rattle.hir_items.specs.Placing.{unless_reported};
ghost use Rattle.hir_items.specs.inside.Reported.{GivenUnlessReported};
ghost use Rattle.hir_modules.specs.Holding.{HoldsStill};
ghost use Rattle.hir_number.specs.Naming.{IsNaming, Naming};
ghost use Rattle.hir_reports.specs.Store.{Held};
ghost use Rattle.hir_traits.specs.Traits.{trait_form, trait_reports};
ghost use Rattle.hir_traits.specs.inside.Parts.{assembled};

use crate::methods::lower_methods;
use crate::own::{OwnHead, lower_own};
use bridge_ast::ItemPlace;
use bridge_decl::{Items, NoMemory, Trait};
use hir_attrs::Attrs;
use hir_backends::AttributeValidator;
use hir_definitions::{TraitDef, TypingUseInfo};
use hir_heads::Notes;
use hir_ids::Ident;
use hir_items::Lowering;
use hir_methods::{kept_if, paired};
use hir_reports::ErrorStore;
use hir_types::Callback;
use std::alloc::Global;

/// A trait of these parts, where there are all.
fn assembled(alloc: Global, head: OwnHead, methods: Option<Items<Callback>>) -> Option<TraitDef>
    ensures { result ≡ assembled head methods }
{
    let OwnHead { notes, names } = head;
    let Notes { docs, attrs } = notes;
    match paired(names, methods) {
        Some((names, methods)) => Some(TraitDef {
            docs,
            name: Ident::new(names.name),
            methods,
            attrs,
            lifetimes: names.lifetimes,
            usage: TypingUseInfo::unused(alloc),
        }),
        None => None,
    }
}

/// A trait, at its place.
fn lower_whole<'tree, V: AttributeValidator>(
    lowering: &Lowering<'_, V>,
    place: ItemPlace,
    item: &'tree Trait,
    start: Attrs,
    errors: &mut ErrorStore<'tree>,
) -> Result<Option<TraitDef>, NoMemory>
    requires inside { place.«module» < length lowering.now.env.now }
    requires sound { HasSoundLifetimes (declared.Trait item.now) }
    ensures told { (names : Naming) → IsNaming lowering.now.env.now place.«module» names
        → OnOk result (errors.new.reports ≡ errors.old.reports ++ trait_reports
        (V.meaning lowering.now.validator.now) lowering.now.support.now lowering.now.config
        lowering.now.catalog.now names place start errors.old.place.«module» item.now) }
    ensures made { (names : Naming) → IsNaming lowering.now.env.now place.«module» names
        → IfOk result (GivenUnlessReported (trait_reports
        (V.meaning lowering.now.validator.now) lowering.now.support.now lowering.now.config
        lowering.now.catalog.now names place start errors.old.place.«module» item.now)
        (trait_form (V.meaning lowering.now.validator.now) lowering.now.catalog.now names
        place start item.now)) }
    ensures kept { (earlier : Held) → HoldsStill earlier errors.old
        → HoldsStill earlier errors.new }
{
    errors.set_item(item.name.as_str());
    let head = lower_own(lowering, item, start, errors)?;
    let methods = item.methods.as_slice();
    let methods = lower_methods(lowering, place, methods, &head.notes.attrs, errors)?;
    Ok(assembled(lowering.alloc, head, methods))
}

/// A trait that stands there, in the module that the store is set to, with its methods, which is told
/// with all that is wrong in it: first at the trait, and then at each method, in order. Its marks
/// start from those that are handed in, and its methods' from the whole of its own. None exactly
/// where something is told. `NoMemory` where there is no memory for it or for the reports.
pub fn lower_trait<'tree, V: AttributeValidator>(
    lowering: &Lowering<'_, V>,
    place: ItemPlace,
    item: &'tree Trait,
    start: Attrs,
    errors: &mut ErrorStore<'tree>,
) -> Result<Option<TraitDef>, NoMemory>
    requires inside { place.«module» < length lowering.now.env.now }
    requires sound { HasSoundLifetimes (declared.Trait item.now) }
    ensures told { (names : Naming) → IsNaming lowering.now.env.now place.«module» names
        → OnOk result (errors.new.reports ≡ errors.old.reports ++ trait_reports
        (V.meaning lowering.now.validator.now) lowering.now.support.now lowering.now.config
        lowering.now.catalog.now names place start errors.old.place.«module» item.now) }
    ensures made { (names : Naming) → IsNaming lowering.now.env.now place.«module» names
        → IfOk result (λ made. made ≡ unless_reported (trait_reports
        (V.meaning lowering.now.validator.now) lowering.now.support.now lowering.now.config
        lowering.now.catalog.now names place start errors.old.place.«module» item.now)
        (trait_form (V.meaning lowering.now.validator.now) lowering.now.catalog.now names
        place start item.now)) }
    ensures kept { HoldsStill errors.old errors.new }
{
    let before = errors.len();
    let made = lower_whole(lowering, place, item, start, errors)?;
    Ok(kept_if(errors.len() == before, made))
}
