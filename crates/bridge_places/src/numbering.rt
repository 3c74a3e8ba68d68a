//! The numbers of items, given in one pass over the modules.

ghost use Rattle.std.specs.Prelude.{◌≡◌, ◌++◌, [], ◌∷◌, length, slice_get, All, IfOk, OnOk};
ghost use Rattle.bridge_places.specs.Kinds.{item_kind};
ghost use Rattle.bridge_places.specs.Places.{of_kind, places_of};
ghost use Rattle.bridge_places.specs.Entries.{IsCatalog, entry_of};
ghost use Rattle.bridge_places.specs.declared.kinds.Kind.{Kind};
ghost use Rattle.bridge_places.specs.inside.Numbering.{entries_from, with_module, with_modules};
ghost use Rattle.bridge_places.specs.inside.Numbering.{with_place, with_places};

use crate::entries::entry_of;
use crate::kinds::Kind;
use crate::places::KindPlaces;
use bridge_ast::{Item, ItemPlace, Module, NoMemory};
use bridge_decl::Items;
use bridge_order::{Catalog, Entry, module_order};
use sqlite_items::at;
use std::alloc::Global;

/// The items of an environment: what each is, with its id, and where those of each kind stand.
#[derive(Drop)]
pub struct ItemOrder {
    /// What each item is.
    pub catalog: Catalog,
    /// Where the items of each kind stand, by their ids.
    pub places: KindPlaces,
}

/// Adds an item at a place.
fn add_item(
    places: &mut KindPlaces,
    entries: &mut Items<Entry>,
    item: &Item,
    place: ItemPlace,
) -> Result<(), NoMemory>
    ensures places { OnOk result (places.new ≡ with_place (item_kind item.now) place places.old) }
    ensures entries { OnOk result (entries.new ≡ entries.old
        ++ entry_of (length (of_kind (item_kind item.now) places.old)) item.now ∷ []) }
{
    let id = places.push(Kind::of(item), place)?;
    entries.push(entry_of(item, id))?;
    Ok(())
}

/// Adds the items of the module of a number, and gives their entries.
fn add_items(
    alloc: Global,
    places: &mut KindPlaces,
    module: usize,
    items: &[Item],
) -> Result<Items<Entry>, NoMemory>
    ensures places { OnOk result (places.new ≡ with_places «module» 0 items.now places.old) }
    ensures entries { IfOk result (λ entries. entries
        ≡ entries_from «module» 0 items.now places.old) }
{
    let mut entries = Items::new(alloc);
    for (number, item) in items.iter().enumerate() {
        let place = ItemPlace {
            module,
            item: number,
        };
        add_item(places, &mut entries, item, place)?;
    }
    Ok(entries)
}

/// Adds the module of a number.
fn add_module(
    alloc: Global,
    found: &mut ItemOrder,
    modules: &[Module],
    number: usize,
) -> Result<(), NoMemory>
    requires { length found.old.catalog.modules ≡ length modules.now }
    ensures { OnOk result (found.new
        ≡ with_module number (slice_get modules.now number) found.old) }
{
    match at(modules, number) {
        Some(module) => {
            let entries = add_items(alloc, &mut found.places, number, module.items.as_slice())?;
            found.catalog.modules.set(number, entries);
            Ok(())
        }
        None => Ok(()),
    }
}

/// Adds the modules of these numbers, in order.
fn add_modules(
    alloc: Global,
    found: &mut ItemOrder,
    modules: &[Module],
    order: &[usize],
) -> Result<(), NoMemory>
    requires { length found.old.catalog.modules ≡ length modules.now }
    ensures { OnOk result (found.new ≡ with_modules modules.now order.now found.old) }
{
    for number in order {
        add_module(alloc, found, modules, *number)?;
    }
    Ok(())
}

/// So many modules of which no item is known.
fn unknown(alloc: Global, count: usize) -> Result<Items<Items<Entry>>, NoMemory>
    ensures length { IfOk result (λ modules. length modules ≡ count) }
    ensures empty { IfOk result (λ modules. All (λ entries. entries ≡ []) modules) }
{
    let mut modules = Items::new(alloc);
    for _ in 0..count {
        modules.push(Items::new(alloc))?;
    }
    Ok(modules)
}

impl ItemOrder {
    /// The items of these modules. Each module and each item is gone through once.
    pub fn of(alloc: Global, modules: &[Module]) -> Result<ItemOrder, NoMemory>
        ensures catalog { IfOk result (λ found. IsCatalog modules.now found.catalog) }
        ensures places { IfOk result (λ found. (k : Kind)
            → of_kind k found.places ≡ places_of modules.now k) }
    {
        let order = module_order(alloc, modules)?;
        let mut found = ItemOrder {
            catalog: Catalog {
                modules: unknown(alloc, modules.len())?,
            },
            places: KindPlaces::new(alloc),
        };
        add_modules(alloc, &mut found, modules, &order)?;
        Ok(found)
    }
}
