//! Laws that callers may rely on: each is the contract of a function without a body of its own.

ghost use Rattle.std.specs.Prelude.{◌≡◌, ℕ, List, [], IsSome};
ghost use Rattle.bridge_ast.specs.declared.place.ItemPlace.{ItemPlace};
ghost use Rattle.bridge_decl.specs.declared.enums.Enum.{Enum};
ghost use Rattle.bridge_decl.specs.declared.functions.Function.{Function};
ghost use Rattle.bridge_decl.specs.declared.structs.OpaqueType.{OpaqueType};
ghost use Rattle.bridge_decl.specs.declared.structs.Struct.{Struct};
ghost use Rattle.hir_attrs.specs.declared.attrs.Attrs.{Attrs};
ghost use Rattle.hir_items.specs.Enums.{enum_item_form, enum_reports};
ghost use Rattle.hir_items.specs.FreeFunctions.{function_item_form, function_reports};
ghost use Rattle.hir_items.specs.Opaques.{opaque_item_form, opaque_reports};
ghost use Rattle.hir_items.specs.Setting.{Setting};
ghost use Rattle.hir_items.specs.Structs.{out_struct_item_form, out_struct_reports, struct_item_form, struct_reports};

/// An item of which nothing is told has a form, in which each enabled method of an enabled type
/// stands. So neither an item nor a method is left out without a reason.
pub fn what_is_fine_is_made()
    ensures structs { (s : Setting) (path : List (List ℕ)) (place : ItemPlace)
        (module_set : Attrs) (item : Struct)
        → struct_reports s path place module_set item ≡ []
        → IsSome (struct_item_form s place module_set item) }
    ensures out_structs { (s : Setting) (path : List (List ℕ)) (place : ItemPlace)
        (module_set : Attrs) (item : Struct)
        → out_struct_reports s path place module_set item ≡ []
        → IsSome (out_struct_item_form s place module_set item) }
    ensures opaques { (s : Setting) (path : List (List ℕ)) (place : ItemPlace)
        (module_set : Attrs) (item : OpaqueType)
        → opaque_reports s path place module_set item ≡ []
        → IsSome (opaque_item_form s place module_set item) }
    ensures enums { (s : Setting) (path : List (List ℕ)) (place : ItemPlace) (module_set : Attrs)
        (item : Enum) → enum_reports s path place module_set item ≡ []
        → IsSome (enum_item_form s place module_set item) }
    ensures functions { (s : Setting) (path : List (List ℕ)) (module_set : Attrs)
        (item : Function)
        → function_reports s path module_set item ≡ []
        → IsSome (function_item_form s module_set item) }
{
    hir_methods::what_is_fine_is_made();
}
