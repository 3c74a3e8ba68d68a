//! Laws that callers may rely on: each is the contract of a function without a body.

ghost use Rattle.std.specs.Prelude.{◌≡◌, ℕ, List, Some, slice_get};
ghost use Rattle.bridge_ast.specs.declared.place.ItemPlace.{ItemPlace};
ghost use Rattle.bridge_decl.specs.declared.modules.Module.{Module};
ghost use Rattle.bridge_order.specs.declared.catalog.Catalog.{Catalog};
ghost use Rattle.bridge_places.specs.Entries.{IsCatalog};
ghost use Rattle.bridge_places.specs.Places.{places_of};
ghost use Rattle.bridge_places.specs.declared.kinds.Kind.{Kind};

/// Each place stands once among the places of a kind.
pub fn places_stand_once()
    ensures { (modules : List Module) (k : Kind) (place : ItemPlace) (i j : ℕ)
        → slice_get (places_of modules k) i ≡ Some place
        → slice_get (places_of modules k) j ≡ Some place → i ≡ j }
{}

/// Modules have one catalog.
pub fn modules_have_one_catalog()
    ensures { (modules : List Module) (one other : Catalog) → IsCatalog modules one
        → IsCatalog modules other → one ≡ other }
{}
