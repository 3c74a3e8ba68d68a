//! Declarations whose names fit: each law is the contract of a function without a body.

ghost use Rattle.std.specs.Prelude.{◌≡◌, ℕ, List, [], Ok, Some, IfSome, length, map};
ghost use Rattle.std.specs.List.{All};
ghost use Rattle.bridge_ast.specs.declared.place.ItemPlace.{ItemPlace};
ghost use Rattle.bridge_decl.specs.declared.functions.Function.{Function};
ghost use Rattle.bridge_decl.specs.declared.methods.Method.{Method};
ghost use Rattle.bridge_decl.specs.declared.modules.Module.{Module};
ghost use Rattle.bridge_decl.specs.declared.structs.Struct.{Struct};
ghost use Rattle.bridge_decl.specs.declared.traits.Trait.{Trait};
ghost use Rattle.bridge_decl.specs.declared.traits.TraitMethod.{TraitMethod};
ghost use Rattle.bridge_order.specs.declared.catalog.Catalog.{Catalog};
ghost use Rattle.bridge_places.specs.Entries.{IsCatalog};
ghost use Rattle.hir_attrs.specs.declared.attrs.Attrs.{Attrs};
ghost use Rattle.hir_backends.specs.Backend.{Backend};
ghost use Rattle.hir_fields.specs.Fields.{fields_form, out_fields_form};
ghost use Rattle.hir_fitting.specs.Fitting.{Fits};
ghost use Rattle.hir_fitting.specs.Parts.{PartFits, free, method_part};
ghost use Rattle.hir_fitting.specs.declared.census.Census.{Census};
ghost use Rattle.hir_form.specs.ParamForms.{all_given};
ghost use Rattle.hir_mentions.specs.Callbacks.{field_mentions, output_mentions};
ghost use Rattle.hir_mentions.specs.Definitions.{fields_mentions, trait_mentions};
ghost use Rattle.hir_methods.specs.Functions.{function_form};
ghost use Rattle.hir_methods.specs.Methods.{method_form};
ghost use Rattle.hir_number.specs.Naming.{IsNaming, Naming};
ghost use Rattle.hir_number.specs.Numbers.{signature_numbers};
ghost use Rattle.hir_number.specs.Shapes.{NumberLists};
ghost use Rattle.hir_number.specs.Signatures.{field_uses};
ghost use Rattle.hir_stages.specs.Given.{function_stage, method_stage};
ghost use Rattle.hir_stages.specs.Numbering.{filled_fields};
ghost use Rattle.hir_traits.specs.TraitStages.{trait_method_stage};
ghost use Rattle.hir_traits.specs.Traits.{trait_form};
ghost use Rattle.hir_fitting_forms.specs.DeclaredCensus.{declared_census};
ghost use Rattle.hir_fitting_forms.specs.Naming.{NamesFit};
ghost use Rattle.hir_fitting_forms.specs.NumberedFits.{StageFits, TraitStageFits, TypesFit};

/// What the paths of a module name is there among the definitions that declarations make: under the
/// id that the catalog has for its place, with as many lifetimes as it declares.
pub fn paths_lead_to_what_is_declared()
    ensures { (modules : List Module) (catalog : Catalog) (number : ℕ) (names : Naming)
        → IsCatalog modules catalog → IsNaming modules number names
        → NamesFit (declared_census modules) catalog names }
{}

/// A declaration whose names fit comes to a numbered signature that fits, where it comes to one.
/// The fields of a struct fit in the environment of the lifetimes that the struct declares.
pub fn declarations_are_numbered_to_what_fits()
    ensures method { (census : Census) (catalog : Catalog) (names : Naming) (owner : ItemPlace)
        (method : Method) → NamesFit census catalog names
        → StageFits census catalog (method_stage names owner method) }
    ensures function { (census : Census) (catalog : Catalog) (names : Naming)
        (function : Function) → NamesFit census catalog names
        → StageFits census catalog (function_stage names function) }
    ensures trait_method { (census : Census) (catalog : Catalog) (names : Naming)
        (owner : ItemPlace) (method : TraitMethod) → NamesFit census catalog names
        → TraitStageFits census catalog (trait_method_stage names owner method) }
    ensures fields { (census : Census) (catalog : Catalog) (names : Naming) (item : Struct)
        (numbers : NumberLists) → NamesFit census catalog names
        → signature_numbers item.lifetimes (field_uses names item.fields) ≡ Ok numbers
        → TypesFit census catalog (length item.lifetimes.nodes)
        (filled_fields names item numbers) }
{}

/// A declaration whose names fit is lowered to what fits, where it is lowered: a method, each
/// method of many, a function, a trait with its methods, and the fields of a struct or an
/// out-struct.
pub fn declarations_are_lowered_to_what_fits()
    ensures method { (census : Census) (backend : Backend) (catalog : Catalog) (names : Naming)
        (owner : ItemPlace) (parent : Attrs) (method : Method) → NamesFit census catalog names
        → IfSome (method_form backend catalog names owner parent method)
        (λ m. PartFits census (method_part m)) }
    ensures methods { (census : Census) (backend : Backend) (catalog : Catalog) (names : Naming)
        (owner : ItemPlace) (parent : Attrs) (methods : List Method)
        → NamesFit census catalog names
        → IfSome (all_given (map (method_form backend catalog names owner parent) methods))
        (λ ms. All (λ m. PartFits census (method_part m)) ms) }
    ensures function { (census : Census) (backend : Backend) (catalog : Catalog) (names : Naming)
        (parent : Attrs) (function : Function) → NamesFit census catalog names
        → IfSome (function_form backend catalog names parent function)
        (λ m. PartFits census (method_part m)) }
    ensures traits { (census : Census) (backend : Backend) (catalog : Catalog) (names : Naming)
        (owner : ItemPlace) (start : Attrs) (item : Trait) → NamesFit census catalog names
        → IfSome (trait_form backend catalog names owner start item)
        (λ def. PartFits census (free (trait_mentions def))) }
    ensures fields { (census : Census) (backend : Backend) (catalog : Catalog) (names : Naming)
        (item : Struct) → NamesFit census catalog names
        → IfSome (fields_form backend catalog names item)
        (λ fields. All (Fits census (Some (length item.lifetimes.nodes)))
        (fields_mentions field_mentions fields)) }
    ensures out_fields { (census : Census) (backend : Backend) (catalog : Catalog)
        (names : Naming) (item : Struct) → NamesFit census catalog names
        → IfSome (out_fields_form backend catalog names item)
        (λ fields. All (Fits census (Some (length item.lifetimes.nodes)))
        (fields_mentions output_mentions fields)) }
{}
