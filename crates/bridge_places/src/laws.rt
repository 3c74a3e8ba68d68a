//! Laws of entries and lists of places that callers may rely on: each is the contract of a function
//! without a body.

ghost use Rattle.std.specs.Prelude.{◌≡◌, List, Some};
ghost use Rattle.std.specs.List.{Contains};
ghost use Rattle.bridge_decl.specs.declared.modules.Module.{Module};
ghost use Rattle.bridge_decl.specs.declared.modules.Item.{Item};
ghost use Rattle.bridge_ast.specs.Types.{item_of};
ghost use Rattle.bridge_ast.specs.declared.place.ItemPlace.{ItemPlace};
ghost use Rattle.bridge_order.specs.declared.catalog.Catalog.{Catalog};
ghost use Rattle.bridge_places.specs.declared.kinds.Kind.{Kind};
ghost use Rattle.bridge_order.specs.Catalog.{entry_at, id_of};
ghost use Rattle.bridge_places.specs.Entries.{IsCatalog};
ghost use Rattle.bridge_places.specs.Kinds.{item_kind};
ghost use Rattle.bridge_places.specs.Places.{places_of};

/// An id names one item: two items of one kind whose entries have one number stand at one place.
pub fn an_id_names_one_item()
    ensures { (modules : List Module) (catalog : Catalog) (place other : ItemPlace)
        (item second : Item) → IsCatalog modules catalog → item_of modules place ≡ Some item
        → item_of modules other ≡ Some second → item_kind item ≡ item_kind second
        → id_of (entry_at catalog place) ≡ id_of (entry_at catalog other) → place ≡ other }
{}

/// At each place in the list of a kind there is an item of that kind.
pub fn a_listed_place_has_its_kind()
    ensures { (modules : List Module) (k : Kind) (place : ItemPlace)
        → Contains (places_of modules k) place
        → (item : Item) × (item_of modules place ≡ Some item) × (item_kind item ≡ k) }
{}
