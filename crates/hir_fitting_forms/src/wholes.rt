//! What methods, functions and traits are lowered to: each law is the contract of a function without a
//! body.

ghost use Rattle.std.specs.Prelude.{List, Option, None, IfSome, option_map};
ghost use Rattle.std.specs.List.{All};
ghost use Rattle.bridge_ast.specs.declared.place.ItemPlace.{ItemPlace};
ghost use Rattle.bridge_decl.specs.declared.functions.Function.{Function};
ghost use Rattle.bridge_decl.specs.declared.methods.Method.{Method};
ghost use Rattle.bridge_decl.specs.declared.traits.TraitMethod.{TraitMethod};
ghost use Rattle.bridge_decl.specs.declared.types.WriteType.{WriteType};
ghost use Rattle.bridge_order.specs.declared.catalog.Catalog.{Catalog};
ghost use Rattle.hir_attrs.specs.declared.attrs.Attrs.{Attrs};
ghost use Rattle.hir_backends.specs.Backend.{Backend};
ghost use Rattle.hir_fitting.specs.Fitting.{Fits};
ghost use Rattle.hir_fitting.specs.Parts.{PartFits, method_part};
ghost use Rattle.hir_fitting.specs.declared.census.Census.{Census};
ghost use Rattle.hir_mentions.specs.Callbacks.{callback_mentions};
ghost use Rattle.hir_methods.specs.Functions.{function_form};
ghost use Rattle.hir_methods.specs.Methods.{method_form};
ghost use Rattle.hir_methods.specs.Types.{whole_of};
ghost use Rattle.hir_methods.specs.declared.headings.Heading.{Heading};
ghost use Rattle.hir_methods.specs.declared.params.UntypedParam.{UntypedParam};
ghost use Rattle.hir_number.specs.Naming.{Naming};
ghost use Rattle.hir_number.specs.declared.signature.NumberedSignature.{NumberedSignature};
ghost use Rattle.hir_signatures.specs.Stages.{types_form};
ghost use Rattle.hir_stages.specs.Given.{function_stage, method_stage};
ghost use Rattle.hir_traits.specs.TraitMethods.{trait_method_form};
ghost use Rattle.hir_traits.specs.TraitStages.{trait_method_stage};
ghost use Rattle.hir_fitting_forms.specs.NumberedFits.{SignatureFits, StageFits, TraitStageFits};

/// A method or a function is made of a signature and of what it has besides. It fits where the
/// signature does: all that it names is there, with lifetimes of its own environment. `method` and
/// `function` say so of what declarations are lowered to.
pub fn methods_stand_for_what_fits()
    ensures whole { (census : Census) (catalog : Catalog) (written : Option WriteType)
        (n : NumberedSignature) (attrs : Attrs) (heading : Heading) (receiver : Option Attrs)
        (params : List UntypedParam) → SignatureFits census catalog n
        → IfSome (option_map (whole_of attrs heading receiver params)
        (types_form catalog written n)) (λ m. PartFits census (method_part m)) }
    ensures method { (census : Census) (backend : Backend) (catalog : Catalog) (names : Naming)
        (owner : ItemPlace) (parent : Attrs) (method : Method)
        → StageFits census catalog (method_stage names owner method)
        → IfSome (method_form backend catalog names owner parent method)
        (λ m. PartFits census (method_part m)) }
    ensures function { (census : Census) (backend : Backend) (catalog : Catalog) (names : Naming)
        (parent : Attrs) (function : Function)
        → StageFits census catalog (function_stage names function)
        → IfSome (function_form backend catalog names parent function)
        (λ m. PartFits census (method_part m)) }
{}

/// So does a method of a trait. It keeps no environment, so it fits in none: of its lifetimes
/// nothing is said.
pub fn trait_methods_stand_for_what_fits()
    ensures { (census : Census) (backend : Backend) (catalog : Catalog) (names : Naming)
        (owner : ItemPlace) (parent : Attrs) (method : TraitMethod)
        → TraitStageFits census catalog (trait_method_stage names owner method)
        → IfSome (trait_method_form backend catalog names owner parent method)
        (λ c. All (Fits census None) (callback_mentions c)) }
{}
