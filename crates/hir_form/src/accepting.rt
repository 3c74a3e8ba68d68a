//! What is made of a type by what is wrong with it: its form, or nothing.

ghost use Rattle.std.specs.Prelude.{◌≡◌, [], IfOk, is_some, true};
ghost use Rattle.hir_form.specs.Judging.{IsJudged};
ghost use Rattle.hir_form.specs.ParamForms.{callback_return_form, param_form};
ghost use Rattle.hir_form.specs.TypeForms.{type_form};

use crate::params::lower_param;
use crate::positions::Forms;
use crate::returns::lower_return;
use crate::stop::Stop;
use crate::types::lower_type;
use bridge_decl::NoMemory;
use bridge_grid::TypeFaults;
use bridge_rules::Catalog;
use hir_number::NumberedType;
use hir_types::{CallbackReturn, HirType, InputOnly, ReturnType};
use std::alloc::{AllocError, Global};

/// A type that these faults are told of.
pub fn accept_type<P: Forms>(
    alloc: Global,
    catalog: &Catalog,
    ty: &NumberedType,
    faults: &TypeFaults,
) -> Result<Option<HirType<P>>, NoMemory>
    requires { faults.now ≡ []
        → is_some (type_form {P = P} {C = P.CallbackInstantiation} {I = P.StructId}
        P.makers catalog.now ty.now) ≡ true }
    ensures { IfOk result (IsJudged faults.now (type_form P.makers catalog.now ty.now)) }
{
    if !faults.is_empty() {
        return Ok(None);
    }
    match lower_type(alloc, catalog, ty) {
        Ok(ty) => Ok(Some(ty)),
        Err(Stop::NoMemory) => Err(AllocError),
        Err(Stop::Refused) => unreachable!(),
    }
}

/// What a callback or a trait's method returns, which these faults are told of.
pub fn accept_callback_return(
    alloc: Global,
    catalog: &Catalog,
    ty: &NumberedType,
    faults: &TypeFaults,
) -> Result<Option<ReturnType<CallbackReturn>>, NoMemory>
    requires { faults.now ≡ [] → is_some (callback_return_form catalog.now ty.now) ≡ true }
    ensures { IfOk result (IsJudged faults.now (callback_return_form catalog.now ty.now)) }
{
    if !faults.is_empty() {
        return Ok(None);
    }
    match lower_return(alloc, catalog, None, ty) {
        Ok(ty) => Ok(Some(ty)),
        Err(Stop::NoMemory) => Err(AllocError),
        Err(Stop::Refused) => unreachable!(),
    }
}

/// A parameter that these faults are told of.
pub fn accept_param(
    alloc: Global,
    catalog: &Catalog,
    ty: &NumberedType,
    faults: &TypeFaults,
) -> Result<Option<HirType<InputOnly>>, NoMemory>
    requires { faults.now ≡ [] → is_some (param_form catalog.now ty.now) ≡ true }
    ensures { IfOk result (IsJudged faults.now (param_form catalog.now ty.now)) }
{
    if !faults.is_empty() {
        return Ok(None);
    }
    match lower_param(alloc, catalog, ty) {
        Ok(ty) => Ok(Some(ty)),
        Err(Stop::NoMemory) => Err(AllocError),
        Err(Stop::Refused) => unreachable!(),
    }
}
