//! What slices of other types than primitive ones ask.

ghost use Rattle.std.specs.Prelude.{◌≡◌, IfOk};
ghost use Rattle.bridge_grid.specs.Asked.{element_in, element_out, opaques_in, slice_borrows, value_element};

use crate::asked::simple_tests::{is_fixed, is_fixed_slice};
use crate::asked::{both, denied, mark_faults, muts, of_opaque, statics, told, told_if};
use crate::fault::{TypeFault, TypeFaults};
use bridge_decl::{Items, NoMemory};
use bridge_rules::{Element, Value};
use hir_backends::{BackendAttrSupport, SupportFlag};
use hir_ids::Borrow;
use hir_reports::Rule;
use std::alloc::Global;

/// The slice's own borrow.
pub fn slice_borrows(
    alloc: Global,
    support: &BackendAttrSupport,
    borrow: Option<Borrow>,
) -> Result<TypeFaults, NoMemory>
    ensures { IfOk result (λ faults. faults ≡ slice_borrows support.now borrow) }
{
    match borrow {
        Some(borrow) => both(
            statics(alloc, support, borrow.lifetime)?,
            muts(alloc, support, borrow.mutability)?,
        ),
        None => Ok(Items::new(alloc)),
    }
}

/// A slice of references to opaques that comes in.
fn opaques_in(
    alloc: Global,
    support: &BackendAttrSupport,
    borrow: Option<Borrow>,
    element: Borrow,
) -> Result<TypeFaults, NoMemory>
    ensures { IfOk result (λ faults. faults ≡ opaques_in support.now borrow element) }
{
    let is_fixed = is_fixed_slice(borrow) || is_fixed(element);
    both(
        told_if(alloc, is_fixed, TypeFault::Broken(Rule::OpaqueSliceShape))?,
        denied(alloc, support, SupportFlag::OpaqueSlices)?,
    )
}

fn value_element(alloc: Global, value: Value) -> Result<TypeFaults, NoMemory>
    ensures { IfOk result (λ faults. faults ≡ value_element value) }
{
    match value {
        Value::Primitive(_) => told(alloc, TypeFault::Broken(Rule::SliceElement)),
        _ => Ok(Items::new(alloc)),
    }
}

/// An element of what comes in.
pub fn element_in(
    alloc: Global,
    support: &BackendAttrSupport,
    borrow: Option<Borrow>,
    element: Element,
) -> Result<TypeFaults, NoMemory>
    ensures { IfOk result (λ faults. faults ≡ element_in support.now borrow element) }
{
    match element {
        Element::Value(value) => value_element(alloc, value),
        Element::Opaque => told(alloc, TypeFault::Broken(Rule::OpaqueByValue)),
        Element::OpaqueReference(inner, _, mark) => both(
            mark_faults(alloc, inner.mutability, mark)?,
            opaques_in(alloc, support, borrow, inner)?,
        ),
        Element::OpaqueOption(inner, _, spelling) => both(
            of_opaque(alloc, spelling)?,
            opaques_in(alloc, support, borrow, inner)?,
        ),
        Element::Other => told(alloc, TypeFault::Broken(Rule::SliceElement)),
    }
}

/// An element of what goes out.
pub fn element_out(alloc: Global, element: Element) -> Result<TypeFaults, NoMemory>
    ensures { IfOk result (λ faults. faults ≡ element_out element) }
{
    match element {
        Element::Value(value) => value_element(alloc, value),
        Element::Opaque => told(alloc, TypeFault::Broken(Rule::OpaqueByValue)),
        Element::OpaqueReference(_, _, _) => {
            told(alloc, TypeFault::Broken(Rule::OpaqueSliceShape))
        }
        Element::OpaqueOption(_, _, spelling) => both(
            of_opaque(alloc, spelling)?,
            told(alloc, TypeFault::Broken(Rule::OpaqueSliceShape))?,
        ),
        Element::Other => told(alloc, TypeFault::Broken(Rule::SliceElement)),
    }
}
