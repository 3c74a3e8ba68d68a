//! What is wrong in a part of a type.

ghost use Rattle.std.specs.Prelude.{◌≡◌, IfOk};
ghost use Rattle.bridge_grid.specs.Faults.{in_option, inside_shape_faults, part_inside, shape_faults, shape_inside, type_faults};

use crate::asked::cell_faults;
use crate::fault::TypeFaults;
use crate::part::Part;
use bridge_decl::{Items, NoMemory};
use bridge_rules::{Catalog, Element, Position, Shape, cell_of, shape_of};
use hir_backends::BackendAttrSupport;
use hir_number::NumberedType;
use std::alloc::Global;

/// What stands inside a shape.
fn shape_inside(shape: &Shape) -> Option<Shape>
    ensures { result ≡ shape_inside shape.now }
{
    match *shape {
        Shape::OptionOfValue(value, _) => Some(Shape::Value(value)),
        Shape::OptionOfFlat(slice) => Some(Shape::Flat(slice)),
        Shape::Slice(_, Element::Value(value)) => Some(Shape::Value(value)),
        _ => None,
    }
}

fn in_option(part: Part) -> Part
    ensures { result ≡ in_option part }
{
    match part {
        Part::Whole | Part::Inside => Part::Inside,
        Part::Error => Part::Error,
    }
}

/// The part that stands inside: an element of a slice is the same part as the slice.
fn part_inside(shape: &Shape, part: Part) -> Part
    ensures { result ≡ part_inside shape.now part }
{
    match *shape {
        Shape::Slice(_, _) => part,
        _ => in_option(part),
    }
}

fn inside_shape_faults(
    alloc: Global,
    support: &BackendAttrSupport,
    at: Position,
    part: Part,
    shape: Option<Shape>,
) -> Result<TypeFaults, NoMemory>
    ensures { IfOk result (λ faults. faults ≡ inside_shape_faults support.now at part shape) }
{
    match shape {
        Some(shape) => cell_faults(alloc, support, part, cell_of(&shape, at)),
        None => Ok(Items::new(alloc)),
    }
}

fn shape_faults(
    alloc: Global,
    support: &BackendAttrSupport,
    at: Position,
    part: Part,
    shape: Shape,
) -> Result<TypeFaults, NoMemory>
    ensures { IfOk result (λ faults. faults ≡ shape_faults support.now at part shape) }
{
    let own = cell_faults(alloc, support, part, cell_of(&shape, at))?;
    if own.is_empty() {
        let inside = shape_inside(&shape);
        inside_shape_faults(alloc, support, at, part_inside(&shape, part), inside)
    } else {
        Ok(own)
    }
}

/// What is wrong in a part of a type, where the type stands.
pub fn type_faults(
    alloc: Global,
    support: &BackendAttrSupport,
    catalog: &Catalog,
    at: Position,
    part: Part,
    ty: &NumberedType,
) -> Result<TypeFaults, NoMemory>
    ensures { IfOk result
        (λ faults. faults ≡ type_faults support.now catalog.now at part ty.now) }
{
    shape_faults(alloc, support, at, part, shape_of(catalog, ty))
}
