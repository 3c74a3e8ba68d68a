//! Whole definitions: each law is the contract of a function without a body.

ghost use Rattle.std.specs.Prelude.{ℕ, List, Some, IfSome};
ghost use Rattle.std.specs.List.{All};
ghost use Rattle.bridge_ast.specs.declared.place.ItemPlace.{ItemPlace};
ghost use Rattle.bridge_decl.specs.declared.enums.Enum.{Enum};
ghost use Rattle.bridge_decl.specs.declared.functions.Function.{Function};
ghost use Rattle.bridge_decl.specs.declared.modules.Module.{Module};
ghost use Rattle.bridge_decl.specs.declared.structs.OpaqueType.{OpaqueType};
ghost use Rattle.bridge_decl.specs.declared.structs.Struct.{Struct};
ghost use Rattle.bridge_decl.specs.declared.traits.Trait.{Trait};
ghost use Rattle.hir_attrs.specs.declared.attrs.Attrs.{Attrs};
ghost use Rattle.hir_context.specs.Fitness.{AllNamed, IsUnfit, nesting_of};
ghost use Rattle.hir_context.specs.declared.parts.Definitions.{Definitions};
ghost use Rattle.hir_definitions.specs.Usage.{unused};
ghost use Rattle.hir_definitions.specs.declared.definitions.StructDef.{StructDef};
ghost use Rattle.hir_definitions.specs.declared.definitions.TraitDef.{TraitDef};
ghost use Rattle.hir_definitions.specs.declared.methods.Method.{Method};
ghost use Rattle.hir_definitions.specs.declared.special.SpecialMethodPresence.{SpecialMethodPresence};
ghost use Rattle.hir_definitions.specs.declared.usage.TypingUseInfo.{TypingUseInfo};
ghost use Rattle.hir_fitting.specs.Fitting.{Fits};
ghost use Rattle.hir_fitting.specs.Parts.{DefinitionFits, PartFits, free, method_part, parts_of_enum, parts_of_function, parts_of_opaque, parts_of_struct, parts_of_trait, parts_of_type};
ghost use Rattle.hir_fitting.specs.declared.census.Census.{Census};
ghost use Rattle.hir_fitting.specs.declared.definitions.Unfit.{Unfit};
ghost use Rattle.hir_ids.specs.declared.owners.Borrow.{Borrow as Loan};
ghost use Rattle.hir_ids.specs.declared.owners.MaybeOwn.{MaybeOwn};
ghost use Rattle.hir_items.specs.Enums.{enum_item_form};
ghost use Rattle.hir_items.specs.FreeFunctions.{function_item_form};
ghost use Rattle.hir_items.specs.Inheriting.{item_start};
ghost use Rattle.hir_items.specs.Opaques.{opaque_item_form};
ghost use Rattle.hir_items.specs.Setting.{Setting};
ghost use Rattle.hir_items.specs.Structs.{out_struct_item_form, struct_item_form};
ghost use Rattle.hir_mentions.specs.Callbacks.{field_mentions, output_mentions};
ghost use Rattle.hir_mentions.specs.Definitions.{fields_mentions, trait_mentions, usage_mentions};
ghost use Rattle.hir_nesting.specs.Faults.{AllNestWell};
ghost use Rattle.hir_presence.specs.Presence.{special_methods};
ghost use Rattle.hir_traits.specs.Traits.{trait_form};
ghost use Rattle.hir_types.specs.declared.callbacks.NoCallback.{NoCallback};
ghost use Rattle.hir_types.specs.declared.paths.NoTraitPath.{NoTraitPath};
ghost use Rattle.hir_types.specs.declared.paths.ReturnableStructPath.{ReturnableStructPath};
ghost use Rattle.hir_types.specs.declared.paths.StructPath.{StructPath};
ghost use Rattle.hir_types.specs.declared.positions.Everywhere.{Everywhere};
ghost use Rattle.hir_types.specs.declared.positions.OutputOnly.{OutputOnly};
ghost use Rattle.hir_fitting_forms.specs.DeclaredCensus.{declared_census};
ghost use Rattle.hir_fitting_forms.specs.DeclaredDefinitions.{EachFits, HaveDeclared};
ghost use Rattle.hir_fitting_forms.specs.Naming.{NamesFit};

/// A definition fits where its parts do. `types` says so of what each type has where nothing is
/// known yet of how it is used: what it keeps of its special methods names what is there where
/// these do. `used` says that it keeps fitting once more is known of its use; then a struct of
/// either kind fits where its fields do too, and a trait where its methods do.
pub fn definitions_fit_where_parts_do()
    ensures types { (census : Census) (methods : List Method)
        → All (λ m. PartFits census (method_part m)) methods
        → DefinitionFits census (parts_of_type methods (special_methods methods) unused) }
    ensures used { (census : Census) (methods : List Method) (special : SpecialMethodPresence)
        (before after : TypingUseInfo) → PartFits census (free (usage_mentions after))
        → DefinitionFits census (parts_of_type methods special before)
        → DefinitionFits census (parts_of_type methods special after) }
    ensures structs { (census : Census)
        (def : StructDef Everywhere NoCallback Loan ℕ StructPath NoTraitPath)
        → All (Fits census (Some def.lifetimes.count)) (fields_mentions field_mentions def.fields)
        → DefinitionFits census
        (parts_of_type def.methods def.special_method_presence def.usage)
        → DefinitionFits census (parts_of_struct field_mentions def) }
    ensures out_structs { (census : Census) (def :
        StructDef OutputOnly NoCallback MaybeOwn ℕ ReturnableStructPath NoTraitPath)
        → All (Fits census (Some def.lifetimes.count))
        (fields_mentions output_mentions def.fields) → DefinitionFits census
        (parts_of_type def.methods def.special_method_presence def.usage)
        → DefinitionFits census (parts_of_struct output_mentions def) }
    ensures traits { (census : Census) (def : TraitDef)
        → PartFits census (free (trait_mentions def))
        → PartFits census (free (usage_mentions def.usage))
        → DefinitionFits census (parts_of_trait def) }
{}

/// What an item is lowered to fits, where it is lowered and the names of its module fit: an
/// out-struct, a struct, an opaque, an enum, a trait or a function. Nothing is known yet of how it is
/// used.
pub fn items_are_lowered_to_what_fits()
    ensures out_structs { (census : Census) (s : Setting) (place : ItemPlace) (set : Attrs)
        (item : Struct) → NamesFit census s.catalog s.names
        → IfSome (out_struct_item_form s place set item)
        (λ def. DefinitionFits census (parts_of_struct output_mentions def)) }
    ensures structs { (census : Census) (s : Setting) (place : ItemPlace) (set : Attrs)
        (item : Struct) → NamesFit census s.catalog s.names
        → IfSome (struct_item_form s place set item)
        (λ def. DefinitionFits census (parts_of_struct field_mentions def)) }
    ensures opaques { (census : Census) (s : Setting) (place : ItemPlace) (set : Attrs)
        (item : OpaqueType) → NamesFit census s.catalog s.names
        → IfSome (opaque_item_form s place set item)
        (λ def. DefinitionFits census (parts_of_opaque def)) }
    ensures enums { (census : Census) (s : Setting) (place : ItemPlace) (set : Attrs)
        (item : Enum) → NamesFit census s.catalog s.names
        → IfSome (enum_item_form s place set item)
        (λ def. DefinitionFits census (parts_of_enum def)) }
    ensures traits { (census : Census) (s : Setting) (place : ItemPlace) (set : Attrs)
        (item : Trait) → NamesFit census s.catalog s.names
        → IfSome (trait_form s.backend s.catalog s.names place (item_start set) item)
        (λ def. DefinitionFits census (parts_of_trait def)) }
    ensures functions { (census : Census) (s : Setting) (set : Attrs) (item : Function)
        → NamesFit census s.catalog s.names → IfSome (function_item_form s set item)
        (λ m. DefinitionFits census (parts_of_function m)) }
{}

/// Definitions that are those of declarations, and of which each fits among these, name only what
/// is there. So a context is made of them unless structs nest badly: nothing else can be unfit.
pub fn declared_definitions_name_what_is_there()
    ensures named { (modules : List Module) (defs : Definitions) → HaveDeclared modules defs
        → EachFits (declared_census modules) defs → AllNamed defs }
    ensures fit { (modules : List Module) (defs : Definitions) (unfit : Unfit)
        → HaveDeclared modules defs → EachFits (declared_census modules) defs
        → AllNestWell (nesting_of defs) → ¬ (IsUnfit defs unfit) }
{}
