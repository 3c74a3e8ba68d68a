//! What returns are lowered to.

ghost use Rattle.std.specs.Prelude.{◌≡◌, option_map};
ghost use Rattle.hir_form.specs.inside.Makes.{Makes};
ghost use Rattle.hir_form.specs.ReturnForms.{error_form, out_form, return_form, returned_option_form, success_form, unit_form, writer_form};
ghost use Rattle.hir_types.specs.declared.returns.ReturnType.TheVariants as returned;

use crate::positions::Forms;
use crate::primitives::primitive_form;
use crate::stop::Stop;
use crate::types::lower_type;
use bridge_decl::WriteType as Declared;
use bridge_rules::Catalog;
use hir_number::NumberedType;
use hir_types::{HirType, ReturnType, SuccessType, WriteType};
use std::alloc::Global;

/// What a writer takes.
fn writer_form(writer: Declared) -> WriteType
    ensures { result ≡ writer_form writer }
{
    match writer {
        Declared::Str => WriteType::Str,
        Declared::Str16 => WriteType::Str16,
        Declared::Primitive(primitive) => WriteType::Primitive(primitive_form(primitive)),
    }
}

/// What comes of success where nothing is returned.
pub fn unit_form<P: Forms>(written: Option<Declared>) -> SuccessType<P>
    ensures { result ≡ unit_form written }
{
    match written {
        Some(writer) => SuccessType::Write(writer_form(writer)),
        None => SuccessType::Unit,
    }
}

/// A value that comes of success.
fn lower_out<P: Forms>(
    alloc: Global,
    catalog: &Catalog,
    ty: &NumberedType,
) -> Result<SuccessType<P>, Stop>
    ensures { Makes result (out_form P.makers catalog.now ty.now) }
{
    Ok(SuccessType::OutType(lower_type(alloc, catalog, ty)?))
}

/// What comes of success.
fn lower_success<P: Forms>(
    alloc: Global,
    catalog: &Catalog,
    written: Option<Declared>,
    ty: &NumberedType,
) -> Result<SuccessType<P>, Stop>
    ensures { Makes result (success_form P.makers catalog.now written ty.now) }
{
    match ty {
        NumberedType::Unit => Ok(unit_form(written)),
        _ => lower_out(alloc, catalog, ty),
    }
}

/// What comes of failure.
fn lower_error<P: Forms>(
    alloc: Global,
    catalog: &Catalog,
    ty: &NumberedType,
) -> Result<Option<HirType<P>>, Stop>
    ensures { Makes result (error_form P.makers catalog.now ty.now) }
{
    match ty {
        NumberedType::Unit => Ok(None),
        _ => Ok(Some(lower_type(alloc, catalog, ty)?)),
    }
}

/// A value that comes always.
fn lower_infallible<P: Forms>(
    alloc: Global,
    catalog: &Catalog,
    ty: &NumberedType,
) -> Result<ReturnType<P>, Stop>
    ensures { Makes result
        (option_map (λ s. returned.Infallible s) (out_form P.makers catalog.now ty.now)) }
{
    Ok(ReturnType::Infallible(lower_out(alloc, catalog, ty)?))
}

/// An option that is returned.
fn lower_option<P: Forms>(
    alloc: Global,
    catalog: &Catalog,
    written: Option<Declared>,
    ty: &NumberedType,
    inner: &NumberedType,
) -> Result<ReturnType<P>, Stop>
    ensures { Makes result
        (returned_option_form P.makers catalog.now written ty.now inner.now) }
{
    match inner {
        NumberedType::Reference(_, _, _) => lower_infallible(alloc, catalog, ty),
        NumberedType::Box(_) => lower_infallible(alloc, catalog, ty),
        _ => {
            let success = lower_success(alloc, catalog, written, inner)?;
            Ok(ReturnType::Nullable(success))
        }
    }
}

/// What a return is lowered to at the position `P`, with what the trailing writer takes, where
/// there is one. `Refused` where it may not stand there.
pub fn lower_return<P: Forms>(
    alloc: Global,
    catalog: &Catalog,
    written: Option<Declared>,
    ty: &NumberedType,
) -> Result<ReturnType<P>, Stop>
    ensures { Makes result (return_form P.makers catalog.now written ty.now) }
{
    match ty {
        NumberedType::Option(inner, _) => lower_option(alloc, catalog, written, ty, inner.get()),
        NumberedType::Result(ok, err, _) => {
            let success = lower_success(alloc, catalog, written, ok.get())?;
            let error = lower_error(alloc, catalog, err.get())?;
            Ok(ReturnType::Fallible(success, error))
        }
        _ => {
            let success = lower_success(alloc, catalog, written, ty)?;
            Ok(ReturnType::Infallible(success))
        }
    }
}
