//! Laws that callers may rely on: each is the contract of a function without a body.

ghost use Rattle.std.specs.Prelude.{◌≡◌, [], IsSome, false};
ghost use Rattle.bridge_ast.specs.declared.place.ItemPlace.{ItemPlace};
ghost use Rattle.bridge_decl.specs.declared.functions.Function.{Function};
ghost use Rattle.bridge_decl.specs.declared.methods.Method.{Method};
ghost use Rattle.bridge_order.specs.declared.catalog.Catalog.{Catalog};
ghost use Rattle.hir_attrs.specs.Reading.{marks_of};
ghost use Rattle.hir_attrs.specs.declared.attrs.Attrs.{Attrs};
ghost use Rattle.hir_backends.specs.Backend.{Backend};
ghost use Rattle.hir_backends.specs.declared.support.BackendAttrSupport.{BackendAttrSupport};
ghost use Rattle.hir_config.specs.declared.config.LoweringConfig.{LoweringConfig};
ghost use Rattle.hir_methods.specs.Functions.{function_errors, function_form};
ghost use Rattle.hir_methods.specs.Methods.{method_errors, method_form};
ghost use Rattle.hir_number.specs.Naming.{Naming};

/// An enabled method of which nothing is told has a form, and so has a function. So no method is left
/// out for any other reason than that it is disabled, or that something is told of it.
pub fn what_is_fine_is_made()
    ensures method { (backend : Backend) (support : BackendAttrSupport) (config : LoweringConfig)
        (catalog : Catalog) (names : Naming) (owner : ItemPlace) (parent : Attrs) (method : Method)
        → (marks_of backend method.attrs parent).disable ≡ false
        → method_errors backend support config catalog names owner parent method ≡ []
        → IsSome (method_form backend catalog names owner parent method) }
    ensures function { (backend : Backend) (support : BackendAttrSupport)
        (config : LoweringConfig) (catalog : Catalog) (names : Naming) (parent : Attrs)
        (function : Function)
        → function_errors backend support config catalog names parent function ≡ []
        → IsSome (function_form backend catalog names parent function) }
{}
