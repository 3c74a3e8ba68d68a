//! What is wrong in what is returned.

ghost use Rattle.std.specs.Prelude.{◌≡◌, IfOk};
ghost use Rattle.bridge_grid.specs.Returns.{is_pointer, result_part_faults, returned_faults, returned_option_faults};

use crate::asked::{both, told};
use crate::fault::{TypeFault, TypeFaults};
use crate::part::Part;
use crate::types::type_faults;
use bridge_decl::{Items, NoMemory, StdlibOrDiplomat};
use bridge_rules::{Catalog, Position};
use hir_backends::BackendAttrSupport;
use hir_number::NumberedType;
use hir_reports::Rule;
use std::alloc::Global;

/// Whether a type is a reference or a box.
pub fn is_pointer(ty: &NumberedType) -> bool
    ensures { result ≡ is_pointer ty.now }
{
    match ty {
        NumberedType::Reference(_, _, _) => true,
        NumberedType::Box(_) => true,
        _ => false,
    }
}

/// A part of a result.
fn result_part_faults(
    alloc: Global,
    support: &BackendAttrSupport,
    catalog: &Catalog,
    at: Position,
    part: Part,
    ty: &NumberedType,
) -> Result<TypeFaults, NoMemory>
    ensures { IfOk result
        (λ faults. faults ≡ result_part_faults support.now catalog.now at part ty.now) }
{
    match ty {
        NumberedType::Unit => Ok(Items::new(alloc)),
        NumberedType::Option(inner, StdlibOrDiplomat::Stdlib) => {
            if is_pointer(inner.get()) {
                type_faults(alloc, support, catalog, at, part, ty)
            } else {
                told(alloc, TypeFault::Broken(Rule::StdOptionPlace))
            }
        }
        _ => type_faults(alloc, support, catalog, at, part, ty),
    }
}

/// An option that is returned.
fn returned_option_faults(
    alloc: Global,
    support: &BackendAttrSupport,
    catalog: &Catalog,
    at: Position,
    ty: &NumberedType,
    inner: &NumberedType,
) -> Result<TypeFaults, NoMemory>
    ensures { IfOk result
        (λ faults. faults ≡ returned_option_faults support.now catalog.now at ty.now inner.now) }
{
    match inner {
        NumberedType::Unit => Ok(Items::new(alloc)),
        NumberedType::Reference(_, _, _) => {
            type_faults(alloc, support, catalog, at, Part::Whole, ty)
        }
        NumberedType::Box(_) => type_faults(alloc, support, catalog, at, Part::Whole, ty),
        _ => type_faults(alloc, support, catalog, at, Part::Inside, inner),
    }
}

/// What is wrong in a type that is returned at that position.
pub fn returned_faults(
    alloc: Global,
    support: &BackendAttrSupport,
    catalog: &Catalog,
    at: Position,
    ty: &NumberedType,
) -> Result<TypeFaults, NoMemory>
    ensures { IfOk result
        (λ faults. faults ≡ returned_faults support.now catalog.now at ty.now) }
{
    match ty {
        NumberedType::Unit => Ok(Items::new(alloc)),
        NumberedType::Option(inner, _) => {
            returned_option_faults(alloc, support, catalog, at, ty, inner.get())
        }
        NumberedType::Result(ok, err, _) => both(
            result_part_faults(alloc, support, catalog, at, Part::Inside, ok.get())?,
            result_part_faults(alloc, support, catalog, at, Part::Error, err.get())?,
        ),
        _ => type_faults(alloc, support, catalog, at, Part::Whole, ty),
    }
}
