//! Laws about the declarations: each is the contract of a function without a body.

ghost use Rattle.std.specs.Prelude.{◌≡◌, ◌<◌, ◌+◌, ◌^◌, ℕ, [], ◌∷◌};
ghost use Rattle.bridge_ast.specs.Sound.{AreSound};
ghost use Rattle.bridge_ast.specs.Types.{NamesType};
ghost use Rattle.bridge_decl.specs.declared.modules.Item.TheVariants as item;
ghost use Rattle.bridge_generate.specs.Generated.{generated_module, path_to_opaque, path_to_struct, struct_numbered, the_opaque};

/// The declarations fit together: names differ, and each bound stands at both of its ends.
pub fn generated_declarations_fit_together()
    ensures { (count : ℕ) → count < 2 ^ 64 → AreSound (generated_module count ∷ []) }
{}

/// The paths in the declarations name what they are meant to: the opaque, which is the first item, and the struct of that number, which is
/// the item after as many others.
pub fn generated_paths_name_types()
    ensures opaque { (count : ℕ)
        → NamesType (generated_module count ∷ []) 0 path_to_opaque.segments
        (item.Opaque the_opaque) (record { «module» = 0; item = 0 }) }
    ensures structs { (count number : ℕ) → number < count
        → NamesType (generated_module count ∷ []) 0 (path_to_struct number).segments
        (item.Struct (struct_numbered number)) (record { «module» = 0; item = number + 1 }) }
{}
