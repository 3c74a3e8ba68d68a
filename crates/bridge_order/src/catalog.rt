//! What the items of an environment are.

ghost use Rattle.std.specs.Prelude.{◌≡◌};
ghost use Rattle.bridge_order.specs.Catalog.{entry_in, id_of};

use bridge_ast::ItemPlace;
use bridge_decl::{Items, Mutability};

/// What an item is, with its number among those of its kind in the order in which they are lowered.
#[derive(Clone, Copy)]
pub enum Entry {
    /// A struct, and whether it has fields.
    Struct(usize, bool),
    /// A struct that only comes out, and whether it has fields.
    OutStruct(usize, bool),
    /// An opaque, which may be marked as mutable.
    Opaque(usize, Mutability),
    /// An enum.
    Enum(usize),
    /// A trait.
    Trait(usize),
    /// A function.
    Function(usize),
}

impl Entry {
    /// The number of the item among those of its kind.
    pub fn id(self) -> usize
        ensures { result ≡ id_of self }
    {
        match self {
            Entry::Struct(id, _) => id,
            Entry::OutStruct(id, _) => id,
            Entry::Opaque(id, _) => id,
            Entry::Enum(id) => id,
            Entry::Trait(id) => id,
            Entry::Function(id) => id,
        }
    }
}

/// What each item is, by the numbers of the modules and by the places in them.
#[derive(Drop)]
pub struct Catalog {
    /// The items of each module, in order.
    pub modules: Items<Items<Entry>>,
}

fn entry_in(items: &Items<Entry>, item: usize) -> Entry
    ensures { result ≡ entry_in items.now item }
{
    match items.get(item) {
        Some(entry) => *entry,
        None => Entry::Enum(0),
    }
}

impl Catalog {
    ghost use Rattle.bridge_order.specs.Catalog.{entry_at};

    /// What stands at a place. A place that the catalog doesn't have counts as an enum: paths that
    /// name nothing are refused before.
    pub fn entry(&self, place: ItemPlace) -> Entry
        ensures { result ≡ entry_at self.now place }
    {
        match self.modules.get(place.module) {
            Some(items) => entry_in(items, place.item),
            None => Entry::Enum(0),
        }
    }
}
