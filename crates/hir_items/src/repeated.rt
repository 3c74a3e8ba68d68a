//! Special methods that stand once on a type.

ghost use Rattle.std.specs.Prelude.{◌≡◌, IfOk, None, OnOk};
ghost use Rattle.hir_items.specs.Repeated.{enabled_kind, method_kind, repeated_report, repeated_reports};
ghost use Rattle.hir_items.specs.inside.Reported.{with_reports};
ghost use Rattle.hir_modules.specs.Holding.{HoldsStill};
ghost use Rattle.hir_reports.specs.Store.{at_subitem};
ghost use Rattle.hir_special.specs.Repeated.{none_seen, seen_after};

use crate::loans::Lowering;
use bridge_decl::{AttrInheritContext, Method as Declared, NoMemory};
use hir_attrs::{Attrs, SpecialKind};
use hir_backends::AttributeValidator;
use hir_reports::ErrorStore;
use hir_special::{SeenSpecials, test_repeated};

/// What a method with these marks is, where it is enabled.
fn enabled_kind(attrs: &Attrs) -> Option<SpecialKind>
    ensures { result ≡ enabled_kind attrs.now }
{
    if attrs.disable {
        return None;
    }
    match &attrs.special_method {
        Some(special) => Some(special.kind()),
        None => None,
    }
}

/// So of a declared one. What its marks break is told elsewhere.
fn method_kind<V: AttributeValidator>(
    lent: &Lowering<'_, V>,
    module_set: &Attrs,
    method: &Declared,
) -> Result<Option<SpecialKind>, NoMemory>
    ensures { IfOk result (λ kind. kind ≡ method_kind
        (V.meaning lent.now.validator.now) module_set.now method.now) }
{
    let context = AttrInheritContext::MethodOrImplFromModule;
    let start = module_set.for_inheritance(lent.alloc, context)?;
    let mut aside = ErrorStore::new(lent.alloc);
    let attrs = Attrs::from_ast(lent.alloc, &method.attrs, lent.validator, start, &mut aside)?;
    Ok(enabled_kind(&attrs))
}

/// Tells of one, after those that were seen, at the method; and which were seen with it. Afterwards the
/// place is the item's.
fn test_at_itself<'tree, V: AttributeValidator>(
    lent: &Lowering<'_, V>,
    module_set: &Attrs,
    seen: SeenSpecials,
    method: &'tree Declared,
    errors: &mut ErrorStore<'tree>,
) -> Result<SeenSpecials, NoMemory>
    ensures told { OnOk result (errors.new
        ≡ with_reports (at_subitem errors.old None) (repeated_report
        (V.meaning lent.now.validator.now) lent.now.support.now errors.old.place.«module»
        errors.old.place.item module_set.now seen method.now)) }
    ensures after { IfOk result (λ now. now ≡ seen_after (method_kind
        (V.meaning lent.now.validator.now) module_set.now method.now) seen) }
    ensures kept { HoldsStill errors.old errors.new }
{
    let kind = method_kind(lent, module_set, method)?;
    errors.set_subitem(method.name.as_str());
    test_repeated(lent.alloc, lent.support, seen, kind, errors)?;
    errors.clear_subitem();
    Ok(seen.after(kind))
}

/// Tells of each method of the item of the store that stands once on a type and stands there before
/// (rule `SpecialRepeated`), at the method.
pub(crate) fn tell_repeated<'tree, V: AttributeValidator>(
    lent: &Lowering<'_, V>,
    module_set: &Attrs,
    methods: &'tree [Declared],
    errors: &mut ErrorStore<'tree>,
) -> Result<(), NoMemory>
    ensures told { OnOk result (errors.new
        ≡ with_reports (at_subitem errors.old None) (repeated_reports
        (V.meaning lent.now.validator.now) lent.now.support.now errors.old.place.«module»
        errors.old.place.item module_set.now none_seen methods.now)) }
    ensures kept { HoldsStill errors.old errors.new }
{
    errors.clear_subitem();
    let mut seen = SeenSpecials::none();
    for method in methods {
        seen = test_at_itself(lent, module_set, seen, method, errors)?;
    }
    Ok(())
}
