//! Whole signatures.

ghost use Rattle.std.specs.Prelude.{◌≡◌, ◌++◌, [], IfOk, OnErr, OnOk, is_some, true};
ghost use Rattle.std.specs.List.{flat_map};
ghost use Rattle.bridge_grid.specs.Params.{param_faults};
ghost use Rattle.hir_form.specs.inside.Makes.{Makes};
ghost use Rattle.hir_form.specs.Judging.{IsJudged, with_faults};
ghost use Rattle.hir_form.specs.ParamForms.{params_form};
ghost use Rattle.hir_form.specs.SignatureForms.{output_faults, output_form, own_faults, own_form, signature_faults, signature_form, written_faults};

use crate::params::lower_param;
use crate::receivers::lower_receiver;
use crate::returns::{lower_return, unit_form};
use crate::stop::Stop;
use bridge_decl::{Items, Mutability, NoMemory, WriteType};
use bridge_grid::{TypeFaults, tell, test_param, test_receiver, test_return, test_writer};
use bridge_rules::{Catalog, Position};
use hir_backends::BackendAttrSupport;
use hir_config::LoweringConfig;
use hir_life::{Lifetime, MaybeStatic};
use hir_number::{NumberedSignature, NumberedType, Target};
use hir_reports::ErrorStore;
use hir_types::{HirType, InputOnly, OutputOnly, ReturnType, SelfType};
use std::alloc::{AllocError, Global};

/// The types of a method or a function.
#[derive(Drop)]
pub struct LoweredSignature {
    /// The receiver. None for a function.
    pub param_self: Option<SelfType>,
    /// The parameters, without the trailing writer.
    pub params: Items<HirType<InputOnly>>,
    /// What is returned or written.
    pub output: ReturnType<OutputOnly>,
}

// ---- what is wrong

fn own_faults(
    alloc: Global,
    support: &BackendAttrSupport,
    catalog: &Catalog,
    borrow: Option<(MaybeStatic<Lifetime>, Mutability)>,
    own: &Option<Target>,
) -> Result<TypeFaults, NoMemory>
    ensures { IfOk result
        (λ faults. faults ≡ own_faults support.now catalog.now borrow own.now) }
{
    match own {
        Some(target) => test_receiver(alloc, support, catalog, borrow, target.place),
        None => Ok(Items::new(alloc)),
    }
}

fn params_faults(
    alloc: Global,
    support: &BackendAttrSupport,
    config: LoweringConfig,
    catalog: &Catalog,
    params: &[NumberedType],
) -> Result<TypeFaults, NoMemory>
    ensures { IfOk result
        (λ faults. faults ≡ flat_map (param_faults support.now config catalog.now) params.now) }
{
    let mut faults = Items::new(alloc);
    for ty in params {
        faults.append(test_param(alloc, support, config, catalog, ty)?)?;
    }
    Ok(faults)
}

fn written_faults(
    alloc: Global,
    support: &BackendAttrSupport,
    written: Option<WriteType>,
) -> Result<TypeFaults, NoMemory>
    ensures { IfOk result (λ faults. faults ≡ written_faults support.now written) }
{
    match written {
        Some(writer) => test_writer(alloc, support, writer),
        None => Ok(Items::new(alloc)),
    }
}

fn output_faults(
    alloc: Global,
    support: &BackendAttrSupport,
    catalog: &Catalog,
    output: &Option<NumberedType>,
) -> Result<TypeFaults, NoMemory>
    ensures { IfOk result (λ faults. faults ≡ output_faults support.now catalog.now output.now) }
{
    match output {
        Some(ty) => test_return(alloc, support, catalog, Position::Return, ty),
        None => Ok(Items::new(alloc)),
    }
}

/// One list after another.
fn both(first: TypeFaults, second: TypeFaults) -> Result<TypeFaults, NoMemory>
    ensures { IfOk result (λ faults. faults ≡ first ++ second) }
{
    let mut faults = first;
    faults.append(second)?;
    Ok(faults)
}

fn signature_faults(
    alloc: Global,
    support: &BackendAttrSupport,
    config: LoweringConfig,
    catalog: &Catalog,
    written: Option<WriteType>,
    signature: &NumberedSignature,
) -> Result<TypeFaults, NoMemory>
    ensures { IfOk result (λ faults. faults
        ≡ signature_faults support.now config catalog.now written signature.now) }
{
    let own = own_faults(alloc, support, catalog, signature.borrow, &signature.own)?;
    let params = signature.params.as_slice();
    let params = params_faults(alloc, support, config, catalog, params)?;
    let written = written_faults(alloc, support, written)?;
    let output = output_faults(alloc, support, catalog, &signature.output)?;
    both(own, both(params, both(written, output)?)?)
}

// ---- what is made

fn lower_own(
    alloc: Global,
    catalog: &Catalog,
    borrow: Option<(MaybeStatic<Lifetime>, Mutability)>,
    own: &Option<Target>,
) -> Result<Option<SelfType>, Stop>
    ensures { Makes result (own_form catalog.now borrow own.now) }
{
    match own {
        Some(target) => {
            let receiver = lower_receiver(alloc, catalog, borrow, target)?;
            Ok(Some(receiver))
        }
        None => Ok(None),
    }
}

fn lower_params(
    alloc: Global,
    catalog: &Catalog,
    types: &[NumberedType],
) -> Result<Items<HirType<InputOnly>>, Stop>
    ensures { Makes result (params_form catalog.now types.now) }
{
    let mut params = Items::new(alloc);
    for ty in types {
        params.push(lower_param(alloc, catalog, ty)?)?;
    }
    Ok(params)
}

fn lower_output(
    alloc: Global,
    catalog: &Catalog,
    written: Option<WriteType>,
    output: &Option<NumberedType>,
) -> Result<ReturnType<OutputOnly>, Stop>
    ensures { Makes result (output_form catalog.now written output.now) }
{
    match output {
        Some(ty) => lower_return::<OutputOnly>(alloc, catalog, written, ty),
        None => Ok(ReturnType::Infallible(unit_form(written))),
    }
}

fn lower_signature(
    alloc: Global,
    catalog: &Catalog,
    written: Option<WriteType>,
    signature: &NumberedSignature,
) -> Result<LoweredSignature, Stop>
    ensures { Makes result (signature_form catalog.now written signature.now) }
{
    let param_self = lower_own(alloc, catalog, signature.borrow, &signature.own)?;
    let params = lower_params(alloc, catalog, signature.params.as_slice())?;
    let output = lower_output(alloc, catalog, written, &signature.output)?;
    Ok(LoweredSignature {
        param_self,
        params,
        output,
    })
}

fn accept_signature(
    alloc: Global,
    catalog: &Catalog,
    written: Option<WriteType>,
    signature: &NumberedSignature,
    faults: &TypeFaults,
) -> Result<Option<LoweredSignature>, NoMemory>
    requires { faults.now ≡ []
        → is_some (signature_form catalog.now written signature.now) ≡ true }
    ensures { IfOk result
        (IsJudged faults.now (signature_form catalog.now written signature.now)) }
{
    if !faults.is_empty() {
        return Ok(None);
    }
    match lower_signature(alloc, catalog, written, signature) {
        Ok(signature) => Ok(Some(signature)),
        Err(Stop::NoMemory) => Err(AllocError),
        Err(Stop::Refused) => unreachable!(),
    }
}

/// The types of a method or a function, with what its trailing writer takes, where it has one. None
/// where something is wrong with one of them or with the writer: then each fault is reported, in
/// order, at the place of the store. `NoMemory` where there is no memory for it or for the reports:
/// then the store holds what it held.
pub fn judge_signature(
    alloc: Global,
    store: &mut ErrorStore,
    support: &BackendAttrSupport,
    config: LoweringConfig,
    catalog: &Catalog,
    written: Option<WriteType>,
    signature: &NumberedSignature,
) -> Result<Option<LoweredSignature>, NoMemory>
    ensures told { OnOk result (store.new ≡ with_faults store.old
        (signature_faults support.now config catalog.now written signature.now)) }
    ensures form { IfOk result (IsJudged
        (signature_faults support.now config catalog.now written signature.now)
        (signature_form catalog.now written signature.now)) }
    ensures err { OnErr result (store.new ≡ store.old) }
{
    let faults = signature_faults(alloc, support, config, catalog, written, signature)?;
    let made = accept_signature(alloc, catalog, written, signature, &faults)?;
    tell(alloc, store, faults.as_slice())?;
    Ok(made)
}
