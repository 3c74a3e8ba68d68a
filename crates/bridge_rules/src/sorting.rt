//! The shape of a type.

mod elements;
mod options;

ghost use Rattle.std.specs.Prelude.{◌≡◌};
ghost use Rattle.bridge_rules.specs.Shapes.{box_shape, item_shape, lent_for, named_entry, out_struct_value, reference_shape, shape_of, slice_borrow, slice_of_primitives, struct_value, text_slice};

use crate::shape::{FlatSlice, Shape, Value};
use bridge_decl::{Mutability, PrimitiveType, StringEncoding};
use bridge_order::{Catalog, Entry};
use elements::element_of;
use hir_ids::Borrow;
use hir_life::{Lifetime, MaybeStatic};
use hir_number::NumberedType;
use options::option_shape;

fn struct_value(id: usize, has_fields: bool) -> Value
    ensures { result ≡ struct_value id has_fields }
{
    if has_fields {
        Value::Struct(id)
    } else {
        Value::Empty(id)
    }
}

fn out_struct_value(id: usize, has_fields: bool) -> Value
    ensures { result ≡ out_struct_value id has_fields }
{
    if has_fields {
        Value::OutStruct(id)
    } else {
        Value::EmptyOut(id)
    }
}

fn lent_for(lifetime: MaybeStatic<Lifetime>, mutability: Mutability) -> Borrow
    ensures { result ≡ lent_for lifetime mutability }
{
    Borrow {
        lifetime,
        mutability,
    }
}

fn text_slice(lifetime: Option<MaybeStatic<Lifetime>>, encoding: StringEncoding) -> FlatSlice
    ensures { result ≡ text_slice lifetime encoding }
{
    match lifetime {
        Some(lifetime) => FlatSlice::Str(lifetime, encoding),
        None => FlatSlice::OwnedStr(encoding),
    }
}

fn slice_of_primitives(
    borrow: Option<(MaybeStatic<Lifetime>, Mutability)>,
    primitive: PrimitiveType,
) -> FlatSlice
    ensures { result ≡ slice_of_primitives borrow primitive }
{
    match borrow {
        Some((lifetime, mutability)) => {
            FlatSlice::Primitives(lent_for(lifetime, mutability), primitive)
        }
        None => FlatSlice::OwnedPrimitives(primitive),
    }
}

fn slice_borrow(borrow: Option<(MaybeStatic<Lifetime>, Mutability)>) -> Option<Borrow>
    ensures { result ≡ slice_borrow borrow }
{
    match borrow {
        Some((lifetime, mutability)) => Some(lent_for(lifetime, mutability)),
        None => None,
    }
}

/// What a type names, where it is a name.
fn named_entry(catalog: &Catalog, ty: &NumberedType) -> Option<Entry>
    ensures { result ≡ named_entry catalog.now ty.now }
{
    match ty {
        NumberedType::Named(target) => Some(catalog.entry(target.place)),
        NumberedType::SelfType(target) => Some(catalog.entry(target.place)),
        _ => None,
    }
}

fn item_shape(entry: Entry) -> Shape
    ensures { result ≡ item_shape entry }
{
    match entry {
        Entry::Struct(id, has_fields) => Shape::Value(struct_value(id, has_fields)),
        Entry::OutStruct(id, has_fields) => Shape::Value(out_struct_value(id, has_fields)),
        Entry::Opaque(_, _) => Shape::Opaque,
        Entry::Enum(id) => Shape::Value(Value::Enum(id)),
        Entry::Trait(id) => Shape::ImplTrait(id),
        Entry::Function(id) => Shape::Value(Value::Enum(id)),
    }
}

fn reference_shape(borrow: Borrow, entry: Option<Entry>) -> Shape
    ensures { result ≡ reference_shape borrow entry }
{
    match entry {
        Some(Entry::Opaque(id, mark)) => Shape::OpaqueReference(borrow, id, mark),
        Some(Entry::Struct(id, _)) => Shape::StructReference(borrow, id),
        Some(Entry::OutStruct(id, _)) => Shape::OutStructReference(borrow, id),
        _ => Shape::OtherReference,
    }
}

fn box_shape(entry: Option<Entry>) -> Shape
    ensures { result ≡ box_shape entry }
{
    match entry {
        Some(Entry::Opaque(id, _)) => Shape::OpaqueBox(id),
        _ => Shape::OtherBox,
    }
}

/// The row of the table in which a type stands.
pub fn shape_of(catalog: &Catalog, ty: &NumberedType) -> Shape
    ensures { result ≡ shape_of catalog.now ty.now }
{
    match ty {
        NumberedType::Primitive(primitive) => Shape::Value(Value::Primitive(*primitive)),
        NumberedType::Ordering => Shape::Ordering,
        NumberedType::Named(target) => item_shape(catalog.entry(target.place)),
        NumberedType::SelfType(target) => item_shape(catalog.entry(target.place)),
        NumberedType::ImplTrait(target) => Shape::ImplTrait(catalog.entry(target.place).id()),
        NumberedType::Reference(lifetime, mutability, inner) => {
            let entry = named_entry(catalog, inner.get());
            reference_shape(lent_for(*lifetime, *mutability), entry)
        }
        NumberedType::Box(inner) => box_shape(named_entry(catalog, inner.get())),
        NumberedType::Option(inner, spelling) => option_shape(catalog, inner.get(), *spelling),
        NumberedType::Result(_, _, _) => Shape::Result,
        NumberedType::Write(_) => Shape::Writer,
        NumberedType::StrReference(lifetime, encoding, _) => {
            Shape::Flat(text_slice(*lifetime, *encoding))
        }
        NumberedType::StrSlice(encoding, _) => Shape::Strings(*encoding),
        NumberedType::PrimitiveSlice(borrow, primitive, _) => {
            Shape::Flat(slice_of_primitives(*borrow, *primitive))
        }
        NumberedType::CustomTypeSlice(borrow, element, _) => {
            let element = element_of(catalog, element.get());
            Shape::Slice(slice_borrow(*borrow), element)
        }
        NumberedType::Function(_, _, _) => Shape::Function,
        NumberedType::Unit => Shape::Unit,
    }
}
