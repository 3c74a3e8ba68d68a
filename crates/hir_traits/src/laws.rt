//! Laws that callers may rely on: each is the contract of a function without a body.

ghost use Rattle.std.specs.Prelude.{◌≡◌, ℕ, List, [], IsSome};
ghost use Rattle.bridge_ast.specs.declared.place.ItemPlace.{ItemPlace};
ghost use Rattle.bridge_decl.specs.declared.traits.Trait.{Trait};
ghost use Rattle.bridge_order.specs.declared.catalog.Catalog.{Catalog};
ghost use Rattle.hir_attrs.specs.declared.attrs.Attrs.{Attrs};
ghost use Rattle.hir_backends.specs.Backend.{Backend};
ghost use Rattle.hir_backends.specs.declared.support.BackendAttrSupport.{BackendAttrSupport};
ghost use Rattle.hir_config.specs.declared.config.LoweringConfig.{LoweringConfig};
ghost use Rattle.hir_number.specs.Naming.{Naming};
ghost use Rattle.hir_traits.specs.Traits.{trait_form, trait_reports};

/// A trait of which nothing is told, and of whose methods nothing is, has a form, also where it is
/// disabled. So no trait is left out for any other reason than that something is told of it.
pub fn what_is_fine_is_made()
    ensures { (backend : Backend) (support : BackendAttrSupport) (config : LoweringConfig)
        (catalog : Catalog) (names : Naming) (place : ItemPlace) (start : Attrs)
        (path : List (List ℕ)) (item : Trait)
        → trait_reports backend support config catalog names place start path item ≡ []
        → IsSome (trait_form backend catalog names place start item) }
{}
