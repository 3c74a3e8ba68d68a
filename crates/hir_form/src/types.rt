//! What types are lowered to.

ghost use Rattle.std.specs.Prelude.{◌≡◌, IfOk};
ghost use Rattle.hir_form.specs.inside.Makes.{Makes};
ghost use Rattle.hir_form.specs.TypeForms.{generics_in, type_form};

use crate::positions::Forms;
use crate::shapes::shape_form;
use crate::stop::Stop;
use bridge_decl::{Boxed, NoMemory};
use bridge_rules::{Catalog, shape_of};
use hir_life::Lifetimes;
use hir_number::NumberedType;
use hir_types::HirType;
use std::alloc::Global;

/// What the one path in a type gives its definition.
#[cycle(generics)]
fn generics_in(alloc: Global, ty: &NumberedType) -> Result<Lifetimes, NoMemory>
    ensures { IfOk result (λ lifetimes. lifetimes ≡ generics_in ty.now) }
{
    match ty {
        NumberedType::Named(target) => target.lifetimes.try_clone(alloc),
        NumberedType::SelfType(target) => target.lifetimes.try_clone(alloc),
        NumberedType::ImplTrait(target) => target.lifetimes.try_clone(alloc),
        NumberedType::Reference(_, _, inner) => generics_in_box(alloc, inner),
        NumberedType::Box(inner) => generics_in_box(alloc, inner),
        NumberedType::Option(inner, _) => generics_in_box(alloc, inner),
        NumberedType::CustomTypeSlice(_, element, _) => generics_in_box(alloc, element),
        NumberedType::Primitive(_)
        | NumberedType::Ordering
        | NumberedType::Result(_, _, _)
        | NumberedType::Write(_)
        | NumberedType::StrReference(_, _, _)
        | NumberedType::StrSlice(_, _)
        | NumberedType::PrimitiveSlice(_, _, _)
        | NumberedType::Function(_, _, _)
        | NumberedType::Unit => Ok(Lifetimes::new(alloc)),
    }
}

#[cycle(generics)]
fn generics_in_box(alloc: Global, ty: &Boxed<NumberedType>) -> Result<Lifetimes, NoMemory>
    ensures { IfOk result (λ lifetimes. lifetimes ≡ generics_in ty.now) }
{
    generics_in(alloc, ty.get())
}

/// What a type is lowered to at the position `P`. `Refused` where it may not stand there.
pub fn lower_type<P: Forms>(
    alloc: Global,
    catalog: &Catalog,
    ty: &NumberedType,
) -> Result<HirType<P>, Stop>
    ensures { Makes result (type_form P.makers catalog.now ty.now) }
{
    let lifetimes = generics_in(alloc, ty)?;
    shape_form(alloc, lifetimes, shape_of(catalog, ty))
}
