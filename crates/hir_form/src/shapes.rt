//! What shapes are lowered to.

ghost use Rattle.std.specs.Prelude.{◌≡◌, Some};
ghost use Rattle.hir_form.specs.inside.Makes.{Makes};
ghost use Rattle.hir_form.specs.Forms.{boxed_form, elements_form, enum_path, flat_form, opaque_path, opaque_type, option_type, shape_form, struct_form, struct_path, structs_form, value_form, values_form};

use crate::positions::Forms;
use crate::primitives::primitive_form;
use crate::stop::Stop;
use bridge_decl::Boxed;
use bridge_rules::{Element, FlatSlice, Shape, Value};
use hir_ids::{Borrow, EnumId, MaybeOwn, OpaqueId, Optional, PrimitiveType, StructId, TraitId};
use hir_life::Lifetimes;
use hir_types::{EnumPath, HirType, OpaquePath, Slice, StructPath, TraitPath};
use std::alloc::Global;

/// The path of a struct.
pub fn struct_path(lifetimes: Lifetimes, id: usize, owner: MaybeOwn) -> StructPath
    ensures { result ≡ struct_path lifetimes id owner }
{
    StructPath {
        lifetimes,
        tcx_id: StructId::new(id),
        owner,
    }
}

/// The path of an opaque, which may be absent.
fn opaque_path<Owner>(
    lifetimes: Lifetimes,
    is_optional: bool,
    id: usize,
    owner: Owner,
) -> OpaquePath<Optional, Owner>
    ensures { result ≡ opaque_path lifetimes is_optional id owner }
{
    OpaquePath {
        lifetimes,
        optional: Optional::new(is_optional),
        owner,
        tcx_id: OpaqueId::new(id),
    }
}

/// The path of an enum.
pub fn enum_path(id: usize) -> EnumPath
    ensures { result ≡ enum_path id }
{
    EnumPath {
        tcx_id: EnumId::new(id),
    }
}

/// A text or a list of primitive types.
fn flat_form<P: Forms>(flat: FlatSlice) -> Slice<P>
    ensures { result ≡ flat_form flat }
{
    match flat {
        FlatSlice::Str(lifetime, encoding) => Slice::Str(Some(lifetime), encoding),
        FlatSlice::OwnedStr(encoding) => Slice::Str(None, encoding),
        FlatSlice::Primitives(borrow, primitive) => {
            Slice::Primitive(MaybeOwn::Borrow(borrow), primitive_form(primitive))
        }
        FlatSlice::OwnedPrimitives(primitive) => {
            Slice::Primitive(MaybeOwn::Own, primitive_form(primitive))
        }
    }
}

/// A struct.
fn struct_form<P: Forms>(
    lifetimes: Lifetimes,
    is_out: bool,
    id: usize,
    owner: MaybeOwn,
) -> Result<HirType<P>, Stop>
    ensures { Makes result (struct_form P.makers lifetimes is_out id owner) }
{
    match P::named(is_out, struct_path(lifetimes, id, owner)) {
        Some(path) => Ok(HirType::Struct(path)),
        None => Err(Stop::Refused),
    }
}

/// A value by itself.
fn value_form<P: Forms>(lifetimes: Lifetimes, value: Value) -> Result<HirType<P>, Stop>
    ensures { Makes result (value_form P.makers lifetimes value) }
{
    match value {
        Value::Primitive(primitive) => Ok(HirType::Primitive(primitive_form(primitive))),
        Value::Enum(id) => Ok(HirType::Enum(enum_path(id))),
        Value::Struct(id) => struct_form(lifetimes, false, id, MaybeOwn::Own),
        Value::Empty(id) => struct_form(lifetimes, false, id, MaybeOwn::Own),
        Value::EmptyOut(id) => struct_form(lifetimes, true, id, MaybeOwn::Own),
        Value::OutStruct(id) => struct_form(lifetimes, true, id, MaybeOwn::Own),
    }
}

/// An opaque in a box.
fn boxed_form<P: Forms>(
    lifetimes: Lifetimes,
    is_optional: bool,
    id: usize,
) -> Result<HirType<P>, Stop>
    ensures { Makes result (boxed_form P.makers lifetimes is_optional id) }
{
    match P::boxed() {
        Some(owner) => {
            let path = opaque_path(lifetimes, is_optional, id, owner);
            Ok(HirType::Opaque(path))
        }
        None => Err(Stop::Refused),
    }
}

/// A slice of structs.
fn structs_form<P: Forms>(
    lifetimes: Lifetimes,
    owner: MaybeOwn,
    is_out: bool,
    id: usize,
) -> Result<Slice<P>, Stop>
    ensures { Makes result (structs_form P.makers lifetimes owner is_out id) }
{
    match P::named(is_out, struct_path(lifetimes, id, MaybeOwn::Own)) {
        Some(path) => Ok(Slice::Struct(owner, path)),
        None => Err(Stop::Refused),
    }
}

/// A slice of values.
fn values_form<P: Forms>(
    lifetimes: Lifetimes,
    owner: MaybeOwn,
    value: Value,
) -> Result<Slice<P>, Stop>
    ensures { Makes result (values_form P.makers lifetimes owner value) }
{
    match value {
        Value::Primitive(_) => Err(Stop::Refused),
        Value::Enum(id) => Ok(Slice::Enum(owner, enum_path(id))),
        Value::Struct(id) => structs_form(lifetimes, owner, false, id),
        Value::Empty(id) => structs_form(lifetimes, owner, false, id),
        Value::EmptyOut(id) => structs_form(lifetimes, owner, true, id),
        Value::OutStruct(id) => structs_form(lifetimes, owner, true, id),
    }
}

/// A slice of anything but primitive types and texts.
fn elements_form<P: Forms>(
    lifetimes: Lifetimes,
    owner: MaybeOwn,
    element: Element,
) -> Result<Slice<P>, Stop>
    ensures { Makes result (elements_form P.makers lifetimes owner element) }
{
    match element {
        Element::Value(value) => values_form(lifetimes, owner, value),
        Element::OpaqueReference(borrow, id, _) => {
            let path = opaque_path(lifetimes, false, id, borrow);
            Ok(Slice::Opaque(owner, path))
        }
        Element::OpaqueOption(borrow, id, _) => {
            let path = opaque_path(lifetimes, true, id, borrow);
            Ok(Slice::Opaque(owner, path))
        }
        Element::Opaque | Element::Other => Err(Stop::Refused),
    }
}

/// An option of a type.
fn option_of<P: Forms>(alloc: Global, ty: HirType<P>) -> Result<HirType<P>, Stop>
    ensures { Makes result (Some (option_type ty)) }
{
    Ok(HirType::DiplomatOption(Boxed::new(alloc, ty)?))
}

/// Anything that implements a trait.
fn trait_form<P: Forms>(lifetimes: Lifetimes, id: usize) -> Result<HirType<P>, Stop>
    ensures { Makes result (shape_form P.makers lifetimes (Shape.ImplTrait id)) }
{
    let tcx_id = TraitId::new(id);
    match P::implementing(TraitPath { lifetimes, tcx_id }) {
        Some(path) => Ok(HirType::ImplTrait(path)),
        None => Err(Stop::Refused),
    }
}

/// A borrowed opaque.
fn borrowed_form<P: Forms>(
    lifetimes: Lifetimes,
    is_optional: bool,
    id: usize,
    borrow: Borrow,
) -> HirType<P>
    ensures { result
        ≡ opaque_type (opaque_path lifetimes is_optional id (P.makers.borrowed borrow)) }
{
    let owner = P::borrowed(borrow);
    HirType::Opaque(opaque_path(lifetimes, is_optional, id, owner))
}

/// What a shape is lowered to, where the path in it gives these lifetimes. `Refused` where it may
/// not stand at the position, or nowhere.
pub fn shape_form<P: Forms>(
    alloc: Global,
    lifetimes: Lifetimes,
    shape: Shape,
) -> Result<HirType<P>, Stop>
    ensures { Makes result (shape_form P.makers lifetimes shape) }
{
    match shape {
        Shape::Value(value) => value_form(lifetimes, value),
        Shape::Ordering => Ok(HirType::Primitive(PrimitiveType::Ordering)),
        Shape::ImplTrait(id) => trait_form(lifetimes, id),
        Shape::OpaqueReference(borrow, id, _) => Ok(borrowed_form(lifetimes, false, id, borrow)),
        Shape::StructReference(borrow, id) => {
            struct_form(lifetimes, false, id, MaybeOwn::Borrow(borrow))
        }
        Shape::OutStructReference(borrow, id) => {
            struct_form(lifetimes, true, id, MaybeOwn::Borrow(borrow))
        }
        Shape::OpaqueBox(id) => boxed_form(lifetimes, false, id),
        Shape::OptionOfReference(borrow, id, _) => Ok(borrowed_form(lifetimes, true, id, borrow)),
        Shape::OptionOfBox(id, _) => boxed_form(lifetimes, true, id),
        Shape::OptionOfValue(value, _) => option_of(alloc, value_form(lifetimes, value)?),
        Shape::OptionOfStrings(encoding) => {
            option_of(alloc, HirType::Slice(Slice::Strs(encoding)))
        }
        Shape::OptionOfFlat(flat) => option_of(alloc, HirType::Slice(flat_form(flat))),
        Shape::Flat(flat) => Ok(HirType::Slice(flat_form(flat))),
        Shape::Strings(encoding) => Ok(HirType::Slice(Slice::Strs(encoding))),
        Shape::Slice(borrow, element) => {
            let slice = elements_form(lifetimes, MaybeOwn::from(borrow), element)?;
            Ok(HirType::Slice(slice))
        }
        Shape::Opaque
        | Shape::OtherReference
        | Shape::OtherBox
        | Shape::OptionOfPointer
        | Shape::OtherOption
        | Shape::Result
        | Shape::Writer
        | Shape::Function
        | Shape::Unit => Err(Stop::Refused),
    }
}
