//! The shape of an option.

ghost use Rattle.std.specs.Prelude.{◌≡◌};
ghost use Rattle.bridge_rules.specs.Shapes.{option_of_box, option_of_item, option_of_reference, option_shape};

use crate::shape::{Shape, Value};
use crate::sorting::{
    lent_for, named_entry, out_struct_value, slice_of_primitives, struct_value, text_slice,
};
use bridge_decl::StdlibOrDiplomat;
use bridge_order::{Catalog, Entry};
use hir_ids::Borrow;
use hir_number::NumberedType;

fn option_of_item(entry: Entry, spelling: StdlibOrDiplomat) -> Shape
    ensures { result ≡ option_of_item entry spelling }
{
    match entry {
        Entry::Struct(id, has_fields) => {
            Shape::OptionOfValue(struct_value(id, has_fields), spelling)
        }
        Entry::OutStruct(id, has_fields) => {
            Shape::OptionOfValue(out_struct_value(id, has_fields), spelling)
        }
        Entry::Opaque(_, _) => Shape::Opaque,
        Entry::Enum(id) => Shape::OptionOfValue(Value::Enum(id), spelling),
        Entry::Trait(_) => Shape::OtherOption,
        Entry::Function(id) => Shape::OptionOfValue(Value::Enum(id), spelling),
    }
}

fn option_of_reference(borrow: Borrow, entry: Option<Entry>, spelling: StdlibOrDiplomat) -> Shape
    ensures { result ≡ option_of_reference borrow entry spelling }
{
    match entry {
        Some(Entry::Opaque(id, _)) => Shape::OptionOfReference(borrow, id, spelling),
        _ => Shape::OptionOfPointer,
    }
}

fn option_of_box(entry: Option<Entry>, spelling: StdlibOrDiplomat) -> Shape
    ensures { result ≡ option_of_box entry spelling }
{
    match entry {
        Some(Entry::Opaque(id, _)) => Shape::OptionOfBox(id, spelling),
        _ => Shape::OptionOfPointer,
    }
}

/// The shape of an option of a type.
pub fn option_shape(catalog: &Catalog, ty: &NumberedType, spelling: StdlibOrDiplomat) -> Shape
    ensures { result ≡ option_shape catalog.now spelling ty.now }
{
    match ty {
        NumberedType::Primitive(primitive) => {
            Shape::OptionOfValue(Value::Primitive(*primitive), spelling)
        }
        NumberedType::Named(target) => option_of_item(catalog.entry(target.place), spelling),
        NumberedType::SelfType(target) => option_of_item(catalog.entry(target.place), spelling),
        NumberedType::Reference(lifetime, mutability, inner) => {
            let entry = named_entry(catalog, inner.get());
            option_of_reference(lent_for(*lifetime, *mutability), entry, spelling)
        }
        NumberedType::Box(inner) => option_of_box(named_entry(catalog, inner.get()), spelling),
        NumberedType::StrSlice(encoding, _) => Shape::OptionOfStrings(*encoding),
        NumberedType::StrReference(lifetime, encoding, _) => {
            Shape::OptionOfFlat(text_slice(*lifetime, *encoding))
        }
        NumberedType::PrimitiveSlice(borrow, primitive, _) => {
            Shape::OptionOfFlat(slice_of_primitives(*borrow, *primitive))
        }
        NumberedType::Ordering
        | NumberedType::ImplTrait(_)
        | NumberedType::Option(_, _)
        | NumberedType::Result(_, _, _)
        | NumberedType::Write(_)
        | NumberedType::CustomTypeSlice(_, _, _)
        | NumberedType::Function(_, _, _)
        | NumberedType::Unit => Shape::OtherOption,
    }
}
