//! What is wrong in parameters.

ghost use Rattle.std.specs.Prelude.{◌≡◌, IfOk};
ghost use Rattle.std.specs.List.{flat_map};
ghost use Rattle.bridge_grid.specs.Params.{callback_param_faults, in_param_faults, param_faults, reference_faults};

use crate::asked::{both, told_if};
use crate::carrying::{carries, is_slice};
use crate::fault::{TypeFault, TypeFaults};
use crate::part::Part;
use crate::returns::returned_faults;
use crate::types::type_faults;
use bridge_decl::{Items, NoMemory};
use bridge_rules::{Catalog, Position};
use hir_backends::BackendAttrSupport;
use hir_config::LoweringConfig;
use hir_number::NumberedType;
use hir_reports::Rule;
use std::alloc::Global;

fn reference_faults(
    alloc: Global,
    config: LoweringConfig,
    ty: &NumberedType,
) -> Result<TypeFaults, NoMemory>
    ensures { IfOk result (λ faults. faults ≡ reference_faults config ty.now) }
{
    let is_allowed = config.unsafe_references_in_callbacks || is_slice(ty);
    let is_broken = !is_allowed && carries(ty);
    told_if(alloc, is_broken, TypeFault::Broken(Rule::CallbackReference))
}

/// What is wrong in a parameter of a callback or of a trait's method.
pub fn callback_param_faults(
    alloc: Global,
    support: &BackendAttrSupport,
    config: LoweringConfig,
    catalog: &Catalog,
    ty: &NumberedType,
) -> Result<TypeFaults, NoMemory>
    ensures { IfOk result
        (λ faults. faults ≡ callback_param_faults support.now config catalog.now ty.now) }
{
    let at = Position::CallbackParam;
    both(
        type_faults(alloc, support, catalog, at, Part::Whole, ty)?,
        reference_faults(alloc, config, ty)?,
    )
}

fn callback_params_faults(
    alloc: Global,
    support: &BackendAttrSupport,
    config: LoweringConfig,
    catalog: &Catalog,
    inputs: &[NumberedType],
) -> Result<TypeFaults, NoMemory>
    ensures { IfOk result (λ faults. faults
        ≡ flat_map (callback_param_faults support.now config catalog.now) inputs.now) }
{
    let mut faults = Items::new(alloc);
    for ty in inputs {
        faults.append(callback_param_faults(alloc, support, config, catalog, ty)?)?;
    }
    Ok(faults)
}

/// What is wrong inside a parameter.
fn in_param_faults(
    alloc: Global,
    support: &BackendAttrSupport,
    config: LoweringConfig,
    catalog: &Catalog,
    ty: &NumberedType,
) -> Result<TypeFaults, NoMemory>
    ensures { IfOk result
        (λ faults. faults ≡ in_param_faults support.now config catalog.now ty.now) }
{
    match ty {
        NumberedType::Function(inputs, output, _) => {
            let at = Position::CallbackReturn;
            both(
                callback_params_faults(alloc, support, config, catalog, inputs.as_slice())?,
                returned_faults(alloc, support, catalog, at, output.get())?,
            )
        }
        _ => Ok(Items::new(alloc)),
    }
}

/// What is wrong in a parameter of a method or a function.
pub fn param_faults(
    alloc: Global,
    support: &BackendAttrSupport,
    config: LoweringConfig,
    catalog: &Catalog,
    ty: &NumberedType,
) -> Result<TypeFaults, NoMemory>
    ensures { IfOk result
        (λ faults. faults ≡ param_faults support.now config catalog.now ty.now) }
{
    let own = type_faults(alloc, support, catalog, Position::Param, Part::Whole, ty)?;
    if own.is_empty() {
        in_param_faults(alloc, support, config, catalog, ty)
    } else {
        Ok(own)
    }
}
