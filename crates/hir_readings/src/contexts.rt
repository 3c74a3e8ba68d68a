//! The law of whole contexts: the contract of a function without a body.

ghost use Rattle.std.specs.Prelude.{◌≡◌, map};
ghost use Rattle.std.specs.List.{AllZip};
ghost use Rattle.bridge_ast.specs.declared.place.ItemPlace.{ItemPlace};
ghost use Rattle.bridge_places.specs.Entries.{IsCatalog};
ghost use Rattle.bridge_places.specs.Places.{places_of};
ghost use Rattle.bridge_places.specs.declared.kinds.Kind.TheVariants as kind;
ghost use Rattle.hir_context.specs.Lookups.{InputStruct, OutputStruct};
ghost use Rattle.hir_context.specs.declared.parts.Definitions.{Definitions};
ghost use Rattle.hir_definitions.specs.declared.definitions.EnumDef.{EnumDef};
ghost use Rattle.hir_definitions.specs.declared.definitions.OpaqueDef.{OpaqueDef};
ghost use Rattle.hir_lower.specs.Contexts.{StandForItems};
ghost use Rattle.hir_lowering.specs.Interface.{Interface};
ghost use Rattle.hir_skeleton.specs.Inputs.{fields_in};
ghost use Rattle.hir_readings.specs.Declared.{declared_fields};
ghost use Rattle.hir_readings.specs.Knowing.{id_there, known_as};
ghost use Rattle.hir_readings.specs.Readings.{AreReadAsDeclared, IsFunctionRead};

/// Both readings agree of a context that stands for declarations: its structs have the declared
/// fields, the methods of each of its definitions are read as those of the type at its place are
/// declared, and each of its functions is as the one at its place is. Their leaves are the
/// `method_leaves` of `hir_skeleton`.
pub fn contexts_are_read_as_declared()
    ensures fields { (it : Interface) (defs : Definitions) (place : ItemPlace)
        → IsCatalog it.modules it.catalog → StandForItems it defs
        → fields_in defs (id_there it.catalog place)
        ≡ map (known_as (id_there it.catalog)) (declared_fields it place) }
    ensures structs { (it : Interface) (defs : Definitions) → IsCatalog it.modules it.catalog
        → StandForItems it defs → AllZip (λ (def : InputStruct) place.
        AreReadAsDeclared it (fields_in defs) def.methods place)
        defs.structs.defs (places_of it.modules kind.Struct) }
    ensures out_structs { (it : Interface) (defs : Definitions) → IsCatalog it.modules it.catalog
        → StandForItems it defs → AllZip (λ (def : OutputStruct) place.
        AreReadAsDeclared it (fields_in defs) def.methods place)
        defs.out_structs.defs (places_of it.modules kind.OutStruct) }
    ensures opaques { (it : Interface) (defs : Definitions) → IsCatalog it.modules it.catalog
        → StandForItems it defs → AllZip (λ (def : OpaqueDef) place.
        AreReadAsDeclared it (fields_in defs) def.methods place)
        defs.opaques.defs (places_of it.modules kind.Opaque) }
    ensures enums { (it : Interface) (defs : Definitions) → IsCatalog it.modules it.catalog
        → StandForItems it defs → AllZip (λ (def : EnumDef) place.
        AreReadAsDeclared it (fields_in defs) def.methods place)
        defs.enums.defs (places_of it.modules kind.Enum) }
    ensures functions { (it : Interface) (defs : Definitions) → IsCatalog it.modules it.catalog
        → StandForItems it defs → AllZip (IsFunctionRead it (fields_in defs))
        defs.functions.defs (places_of it.modules kind.Function) }
{}
