//! Types that are told with all that is wrong, or lowered.

ghost use Rattle.std.specs.Prelude.{◌≡◌, IfOk, OnErr, OnOk};
ghost use Rattle.bridge_grid.specs.Faults.{type_faults};
ghost use Rattle.bridge_grid.specs.Params.{callback_param_faults, param_faults};
ghost use Rattle.bridge_grid.specs.Returns.{returned_faults};
ghost use Rattle.hir_form.specs.Judging.{IsJudged, with_faults};
ghost use Rattle.hir_form.specs.ParamForms.{callback_return_form, field_form, out_type_form, param_form};

use crate::accepting::{accept_callback_return, accept_param, accept_type};
use bridge_decl::NoMemory;
use bridge_grid::{Part, tell, test_callback_param, test_param, test_return, test_type};
use bridge_rules::{Catalog, Position};
use hir_backends::BackendAttrSupport;
use hir_config::LoweringConfig;
use hir_number::NumberedType;
use hir_reports::ErrorStore;
use hir_types::{CallbackReturn, Everywhere, HirType, InputOnly, OutType, OutputOnly, ReturnType};
use std::alloc::Global;

/// The type of a field of a struct. None where something is wrong with it: then each fault is
/// reported, in order, at the place of the store. `NoMemory` where there is no memory for it or for
/// the reports: then the store holds what it held.
pub fn judge_field(
    alloc: Global,
    store: &mut ErrorStore,
    support: &BackendAttrSupport,
    catalog: &Catalog,
    ty: &NumberedType,
) -> Result<Option<HirType<Everywhere>>, NoMemory>
    ensures told { OnOk result (store.new ≡ with_faults store.old
        (type_faults support.now catalog.now Position.Field Part.Whole ty.now)) }
    ensures form { IfOk result (IsJudged
        (type_faults support.now catalog.now Position.Field Part.Whole ty.now)
        (field_form catalog.now ty.now)) }
    ensures err { OnErr result (store.new ≡ store.old) }
{
    let faults = test_type(alloc, support, catalog, Position::Field, ty)?;
    let made = accept_type::<Everywhere>(alloc, catalog, ty, &faults)?;
    tell(alloc, store, faults.as_slice())?;
    Ok(made)
}

/// The type of a field of an out-struct; else as [`judge_field`].
pub fn judge_out_field(
    alloc: Global,
    store: &mut ErrorStore,
    support: &BackendAttrSupport,
    catalog: &Catalog,
    ty: &NumberedType,
) -> Result<Option<OutType>, NoMemory>
    ensures told { OnOk result (store.new ≡ with_faults store.old
        (type_faults support.now catalog.now Position.OutField Part.Whole ty.now)) }
    ensures form { IfOk result (IsJudged
        (type_faults support.now catalog.now Position.OutField Part.Whole ty.now)
        (out_type_form catalog.now ty.now)) }
    ensures err { OnErr result (store.new ≡ store.old) }
{
    let faults = test_type(alloc, support, catalog, Position::OutField, ty)?;
    let made = accept_type::<OutputOnly>(alloc, catalog, ty, &faults)?;
    tell(alloc, store, faults.as_slice())?;
    Ok(made)
}

/// The type of a parameter of a trait's method; else as [`judge_field`].
pub fn judge_callback_param(
    alloc: Global,
    store: &mut ErrorStore,
    support: &BackendAttrSupport,
    config: LoweringConfig,
    catalog: &Catalog,
    ty: &NumberedType,
) -> Result<Option<OutType>, NoMemory>
    ensures told { OnOk result (store.new ≡ with_faults store.old
        (callback_param_faults support.now config catalog.now ty.now)) }
    ensures form { IfOk result (IsJudged
        (callback_param_faults support.now config catalog.now ty.now)
        (out_type_form catalog.now ty.now)) }
    ensures err { OnErr result (store.new ≡ store.old) }
{
    let faults = test_callback_param(alloc, support, config, catalog, ty)?;
    let made = accept_type::<OutputOnly>(alloc, catalog, ty, &faults)?;
    tell(alloc, store, faults.as_slice())?;
    Ok(made)
}

/// The type of a parameter of a method or a function, which may be a callback; else as
/// [`judge_field`].
pub fn judge_param(
    alloc: Global,
    store: &mut ErrorStore,
    support: &BackendAttrSupport,
    config: LoweringConfig,
    catalog: &Catalog,
    ty: &NumberedType,
) -> Result<Option<HirType<InputOnly>>, NoMemory>
    ensures told { OnOk result (store.new ≡ with_faults store.old
        (param_faults support.now config catalog.now ty.now)) }
    ensures form { IfOk result (IsJudged
        (param_faults support.now config catalog.now ty.now)
        (param_form catalog.now ty.now)) }
    ensures err { OnErr result (store.new ≡ store.old) }
{
    let faults = test_param(alloc, support, config, catalog, ty)?;
    let made = accept_param(alloc, catalog, ty, &faults)?;
    tell(alloc, store, faults.as_slice())?;
    Ok(made)
}

/// What a trait's method returns; else as [`judge_field`].
pub fn judge_callback_return(
    alloc: Global,
    store: &mut ErrorStore,
    support: &BackendAttrSupport,
    catalog: &Catalog,
    ty: &NumberedType,
) -> Result<Option<ReturnType<CallbackReturn>>, NoMemory>
    ensures told { OnOk result (store.new ≡ with_faults store.old
        (returned_faults support.now catalog.now Position.CallbackReturn ty.now)) }
    ensures form { IfOk result (IsJudged
        (returned_faults support.now catalog.now Position.CallbackReturn ty.now)
        (callback_return_form catalog.now ty.now)) }
    ensures err { OnErr result (store.new ≡ store.old) }
{
    let faults = test_return(alloc, support, catalog, Position::CallbackReturn, ty)?;
    let made = accept_callback_return(alloc, catalog, ty, &faults)?;
    tell(alloc, store, faults.as_slice())?;
    Ok(made)
}
