//! Functions as items of their modules.

ghost use Rattle.std.specs.Prelude.{◌≡◌, ◌++◌, ◌<◌, IfOk, OnOk, length};
ghost use Rattle.bridge_ast.specs.Sound.{HasSoundLifetimes};
ghost use Rattle.bridge_decl.specs.declared.modules.Item.TheVariants as item_of;
ghost use Rattle.hir_items.specs.FreeFunctions.{function_item_form, function_reports};
ghost use Rattle.hir_items.specs.Placing.{unless_reported};
ghost use Rattle.hir_items.specs.Setting.{setting};
ghost use Rattle.hir_modules.specs.Holding.{HoldsStill};
ghost use Rattle.hir_number.specs.Naming.{IsNaming, Naming};

use crate::loans::Lowering;
use bridge_decl::{AttrInheritContext, Function, NoMemory};
use hir_attrs::Attrs;
use hir_backends::AttributeValidator;
use hir_definitions::Method;
use hir_methods::lower_function;
use hir_reports::ErrorStore;

/// A function of the module of a number with these marks, which is told, at itself, with all that is
/// wrong in it. A disabled one stays, without lifetimes, parameters and a return. None exactly where
/// something is told. The caller has set the module of the store. `NoMemory` where there is no memory
/// for it or for the reports.
pub fn lower_free_function<'tree, V: AttributeValidator>(
    lent: &Lowering<'_, V>,
    number: usize,
    module_set: &Attrs,
    item: &'tree Function,
    errors: &mut ErrorStore<'tree>,
) -> Result<Option<Method>, NoMemory>
    requires number { number < length lent.now.env.now }
    requires sound { HasSoundLifetimes (item_of.Function item.now) }
    ensures told { (names : Naming) → IsNaming lent.now.env.now number names
        → OnOk result (errors.new.reports ≡ errors.old.reports ++ function_reports
        (setting (V.meaning lent.now.validator.now) lent.now names) errors.old.place.«module»
        module_set.now item.now) }
    ensures made { (names : Naming) → IsNaming lent.now.env.now number names
        → IfOk result (λ made. made ≡ unless_reported (function_reports
        (setting (V.meaning lent.now.validator.now) lent.now names) errors.old.place.«module»
        module_set.now item.now) (function_item_form
        (setting (V.meaning lent.now.validator.now) lent.now names) module_set.now item.now)) }
    ensures kept { HoldsStill errors.old errors.new }
{
    let parent = module_set.for_inheritance(lent.alloc, AttrInheritContext::OfType)?;
    errors.set_item(item.name.as_str());
    lower_function(
        lent.alloc,
        lent.env,
        number,
        item,
        parent,
        lent.validator,
        lent.support,
        lent.config,
        lent.catalog,
        errors,
    )
}
