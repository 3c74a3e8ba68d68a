//! What is kept of items.

ghost use Rattle.std.specs.Prelude.{◌≡◌};
ghost use Rattle.bridge_places.specs.Entries.{entry_of, has_fields, entry_of_struct};

use bridge_ast::{Field, Item};
use bridge_order::Entry;

fn has_fields(fields: &[Field]) -> bool
    ensures { result ≡ has_fields fields.now }
{
    !fields.is_empty()
}

fn entry_of_struct(id: usize, output_only: bool, has_fields: bool) -> Entry
    ensures { result ≡ entry_of_struct id output_only has_fields }
{
    if output_only {
        Entry::OutStruct(id, has_fields)
    } else {
        Entry::Struct(id, has_fields)
    }
}

/// What is kept of an item that has this number among those of its kind.
pub fn entry_of(item: &Item, id: usize) -> Entry
    ensures { result ≡ entry_of id item.now }
{
    match item {
        Item::Struct(item) => {
            entry_of_struct(id, item.output_only, has_fields(item.fields.as_slice()))
        }
        Item::Opaque(item) => Entry::Opaque(id, item.mutability),
        Item::Enum(_) => Entry::Enum(id),
        Item::Trait(_) => Entry::Trait(id),
        Item::Function(_) => Entry::Function(id),
    }
}
