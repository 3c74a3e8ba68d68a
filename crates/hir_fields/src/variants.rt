//! The variants of enums.

ghost use Rattle.std.specs.Prelude.{◌≡◌, IfOk, OnOk};
ghost use Rattle.hir_fields.specs.Variants.{variant_errors, variant_form, variants_errors, variants_form};
ghost use Rattle.hir_fields.specs.inside.Kinds.{variant_with};
ghost use Rattle.hir_heads.specs.Told.{MadeUnlessTold};
ghost use Rattle.hir_reports.specs.Store.{Held, Keeps, added};

use crate::gathering::with_next;
use crate::heads::{Head, lower_head};
use bridge_decl::{AttrInheritContext, Items, NoMemory, Variant};
use hir_attrs::Attrs;
use hir_backends::AttributeValidator;
use hir_definitions::EnumVariant;
use hir_heads::Notes;
use hir_mark_contexts::MarkContext;
use hir_reports::ErrorStore;
use std::alloc::Global;

/// A variant with what it has beside its number.
fn variant_with(head: Head, discriminant: i64) -> EnumVariant
    ensures { result ≡ variant_with head discriminant }
{
    let Head { name, notes } = head;
    let Notes { docs, attrs } = notes;
    EnumVariant {
        docs,
        name,
        discriminant,
        attrs,
    }
}

fn lower_variant<V: AttributeValidator>(
    alloc: Global,
    variant: &Variant,
    enum_set: &Attrs,
    validator: &V,
    errors: &mut ErrorStore<'_>,
) -> Result<Option<EnumVariant>, NoMemory>
    ensures told { OnOk result (errors.new ≡ added errors.old
        (variant_errors (V.meaning validator.now) enum_set.now variant.now)) }
    ensures made { IfOk result (MadeUnlessTold
        (variant_errors (V.meaning validator.now) enum_set.now variant.now)
        (variant_form (V.meaning validator.now) enum_set.now variant.now)) }
    ensures kept { (earlier : Held) → Keeps earlier errors.old → Keeps earlier errors.new }
{
    let start = enum_set.for_inheritance(alloc, AttrInheritContext::Variant)?;
    let head = lower_head(
        alloc,
        &variant.name,
        &variant.docs,
        &variant.attrs,
        MarkContext::EnumVariant,
        start,
        validator,
        errors,
    )?;
    match head {
        Some(head) => Ok(Some(variant_with(head, variant.discriminant))),
        None => Ok(None),
    }
}

/// The variants of an enum, in order, with the set of the enum's marks, of which each variant takes
/// over what a variant may. None only where something is wrong: all of it is told, in order.
/// `NoMemory` where there is no memory for them or for the reports.
pub fn lower_variants<V: AttributeValidator>(
    alloc: Global,
    variants: &[Variant],
    enum_set: &Attrs,
    validator: &V,
    errors: &mut ErrorStore<'_>,
) -> Result<Option<Items<EnumVariant>>, NoMemory>
    ensures told { OnOk result (errors.new ≡ added errors.old
        (variants_errors (V.meaning validator.now) enum_set.now variants.now)) }
    ensures made { IfOk result (MadeUnlessTold
        (variants_errors (V.meaning validator.now) enum_set.now variants.now)
        (variants_form (V.meaning validator.now) enum_set.now variants.now)) }
    ensures kept { (earlier : Held) → Keeps earlier errors.old → Keeps earlier errors.new }
{
    let mut made = Some(Items::new(alloc));
    for variant in variants {
        let next = lower_variant(alloc, variant, enum_set, validator, errors)?;
        made = with_next(made, next)?;
    }
    Ok(made)
}
