//! What a slice is of.

ghost use Rattle.std.specs.Prelude.{◌≡◌};
ghost use Rattle.bridge_rules.specs.Shapes.{element_item, element_of, element_option, element_reference, optional_element};

use crate::shape::{Element, Value};
use crate::sorting::{lent_for, named_entry, out_struct_value, struct_value};
use bridge_decl::StdlibOrDiplomat;
use bridge_order::{Catalog, Entry};
use hir_ids::Borrow;
use hir_number::NumberedType;

fn element_item(entry: Entry) -> Element
    ensures { result ≡ element_item entry }
{
    match entry {
        Entry::Struct(id, has_fields) => Element::Value(struct_value(id, has_fields)),
        Entry::OutStruct(id, has_fields) => Element::Value(out_struct_value(id, has_fields)),
        Entry::Opaque(_, _) => Element::Opaque,
        Entry::Enum(id) => Element::Value(Value::Enum(id)),
        Entry::Trait(_) => Element::Other,
        Entry::Function(id) => Element::Value(Value::Enum(id)),
    }
}

fn element_reference(borrow: Borrow, entry: Option<Entry>) -> Element
    ensures { result ≡ element_reference borrow entry }
{
    match entry {
        Some(Entry::Opaque(id, mark)) => Element::OpaqueReference(borrow, id, mark),
        _ => Element::Other,
    }
}

fn element_option(borrow: Borrow, entry: Option<Entry>, spelling: StdlibOrDiplomat) -> Element
    ensures { result ≡ element_option borrow entry spelling }
{
    match entry {
        Some(Entry::Opaque(id, _)) => Element::OpaqueOption(borrow, id, spelling),
        _ => Element::Other,
    }
}

/// What an option of a type is as an element.
fn optional_element(catalog: &Catalog, ty: &NumberedType, spelling: StdlibOrDiplomat) -> Element
    ensures { result ≡ optional_element catalog.now spelling ty.now }
{
    match ty {
        NumberedType::Reference(lifetime, mutability, inner) => {
            let entry = named_entry(catalog, inner.get());
            element_option(lent_for(*lifetime, *mutability), entry, spelling)
        }
        _ => Element::Other,
    }
}

/// What a type is as an element.
pub fn element_of(catalog: &Catalog, ty: &NumberedType) -> Element
    ensures { result ≡ element_of catalog.now ty.now }
{
    match ty {
        NumberedType::Named(target) => element_item(catalog.entry(target.place)),
        NumberedType::SelfType(target) => element_item(catalog.entry(target.place)),
        NumberedType::Reference(lifetime, mutability, inner) => {
            let entry = named_entry(catalog, inner.get());
            element_reference(lent_for(*lifetime, *mutability), entry)
        }
        NumberedType::Option(inner, spelling) => optional_element(catalog, inner.get(), *spelling),
        _ => Element::Other,
    }
}
