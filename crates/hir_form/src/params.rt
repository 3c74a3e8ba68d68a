//! What parameters and their callbacks are lowered to.

ghost use Rattle.hir_form.specs.inside.Makes.{Makes};
ghost use Rattle.hir_form.specs.ParamForms.{callback_form, callback_param_form, callback_params_form, callback_return_form, param_form};

use crate::returns::lower_return;
use crate::stop::Stop;
use crate::types::lower_type;
use bridge_decl::Items;
use bridge_rules::Catalog;
use hir_number::NumberedType;
use hir_types::{
    Callback, CallbackParam, CallbackReturn, HirType, InputOnly, OutputOnly, ReturnType,
};
use std::alloc::Global;

/// What a function takes.
fn lower_callback_param(
    alloc: Global,
    catalog: &Catalog,
    ty: &NumberedType,
) -> Result<CallbackParam, Stop>
    ensures { Makes result (callback_param_form catalog.now ty.now) }
{
    let ty = lower_type::<OutputOnly>(alloc, catalog, ty)?;
    Ok(CallbackParam { ty, name: None })
}

fn lower_callback_params(
    alloc: Global,
    catalog: &Catalog,
    inputs: &[NumberedType],
) -> Result<Items<CallbackParam>, Stop>
    ensures { Makes result (callback_params_form catalog.now inputs.now) }
{
    let mut params = Items::new(alloc);
    for ty in inputs {
        params.push(lower_callback_param(alloc, catalog, ty)?)?;
    }
    Ok(params)
}

fn lower_callback_return(
    alloc: Global,
    catalog: &Catalog,
    output: &NumberedType,
) -> Result<ReturnType<CallbackReturn>, Stop>
    ensures { Makes result (callback_return_form catalog.now output.now) }
{
    lower_return::<CallbackReturn>(alloc, catalog, None, output)
}

fn lower_callback(
    alloc: Global,
    catalog: &Catalog,
    inputs: &[NumberedType],
    output: &NumberedType,
) -> Result<Callback, Stop>
    ensures { Makes result (callback_form catalog.now inputs.now output.now) }
{
    let params = lower_callback_params(alloc, catalog, inputs)?;
    let output = lower_callback_return(alloc, catalog, output)?;
    Ok(Callback {
        param_self: None,
        params,
        output,
        name: None,
        attrs: None,
        docs: None,
    })
}

/// What a parameter of a method or a function is lowered to. `Refused` where it may not stand
/// there.
pub fn lower_param(
    alloc: Global,
    catalog: &Catalog,
    ty: &NumberedType,
) -> Result<HirType<InputOnly>, Stop>
    ensures { Makes result (param_form catalog.now ty.now) }
{
    match ty {
        NumberedType::Function(inputs, output, _) => {
            let callback = lower_callback(alloc, catalog, inputs.as_slice(), output.get())?;
            Ok(HirType::Callback(callback))
        }
        _ => lower_type::<InputOnly>(alloc, catalog, ty),
    }
}
