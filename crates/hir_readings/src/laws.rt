//! Laws of types, inputs and lowered definitions: each is the contract of a function without a body.

ghost use Rattle.std.specs.Prelude.{◌≡◌, ℕ, List, Bool, IfSome, Option, Some, map};
ghost use Rattle.std.specs.List.{AllZip};
ghost use Rattle.bridge_ast.specs.declared.place.ItemPlace.{ItemPlace};
ghost use Rattle.bridge_decl.specs.declared.types.Mutability.{Mutability};
ghost use Rattle.bridge_decl.specs.declared.types.WriteType.{WriteType};
ghost use Rattle.bridge_order.specs.declared.catalog.Catalog.{Catalog};
ghost use Rattle.bridge_places.specs.Entries.{IsCatalog};
ghost use Rattle.bridge_places.specs.Places.{places_of};
ghost use Rattle.bridge_places.specs.declared.kinds.Kind.TheVariants as kind;
ghost use Rattle.hir_context.specs.Lookups.{InputStruct, OutputStruct};
ghost use Rattle.hir_definitions.specs.declared.definitions.EnumDef.{EnumDef};
ghost use Rattle.hir_definitions.specs.declared.definitions.OpaqueDef.{OpaqueDef};
ghost use Rattle.hir_form.specs.ParamForms.{field_form, method_return_form, param_form};
ghost use Rattle.hir_form.specs.ReceiverForms.{receiver_form};
ghost use Rattle.hir_life.specs.declared.maybe_static.MaybeStatic.{MaybeStatic};
ghost use Rattle.hir_lowering.specs.Interface.{Interface};
ghost use Rattle.hir_lowering.specs.Lowered.{AreAllLowered};
ghost use Rattle.hir_number.specs.declared.numbered.NumberedType.{NumberedType};
ghost use Rattle.hir_number.specs.declared.numbered.Target.{Target};
ghost use Rattle.hir_skeleton.specs.Lowered.{field_skeleton};
ghost use Rattle.hir_skeleton.specs.Skeletons.{Skeleton};
ghost use Rattle.hir_types.specs.Named.{lifetimes_named};
ghost use Rattle.hir_usage_notes.specs.declared.definitions.LoweredDefinitions.{LoweredDefinitions};
ghost use Rattle.hir_readings.specs.Declared.{declared_fields};
ghost use Rattle.hir_readings.specs.Inputs.{Input, edges_of_inputs, input_known_as, leaves_of_inputs, lowered_input, numbered_input, own_input, lowered_receiver};
ghost use Rattle.hir_readings.specs.Knowing.{edge_known_as, id_there, known_as};
ghost use Rattle.hir_readings.specs.NamedLifetimes.{returned_lifetimes};
ghost use Rattle.hir_readings.specs.NumberedSkeletons.{numbered_skeleton};
ghost use Rattle.hir_readings.specs.Readings.{AreReadAsDeclared, IsFunctionRead, fields_among};

/// What a numbered type stands for has the type's skeleton, with the ids of structs in place of
/// their places: as a field, as a parameter, and as a receiver with its borrow.
pub fn forms_have_the_skeletons_of_their_types()
    ensures field { (catalog : Catalog) (ty : NumberedType) → IfSome (field_form catalog ty)
        (λ t. field_skeleton t ≡ known_as (id_there catalog) (numbered_skeleton catalog ty)) }
    ensures param { (catalog : Catalog) (ty : NumberedType) → IfSome (param_form catalog ty)
        (λ t. lowered_input t ≡ input_known_as (id_there catalog) (numbered_input catalog ty)) }
    ensures receiver { (catalog : Catalog) (borrow : Option (MaybeStatic ℕ × Mutability))
        (target : Target) → IfSome (receiver_form catalog borrow target) (λ r. lowered_receiver r
        ≡ input_known_as (id_there catalog) (own_input catalog borrow target)) }
{}

/// What a numbered return stands for names the lifetimes in its type, whatever its trailing writer
/// takes.
pub fn returns_name_the_lifetimes_of_their_types()
    ensures { (catalog : Catalog) (written : Option WriteType) (ty : NumberedType)
        → IfSome (method_return_form catalog written ty)
        (λ r. lifetimes_named r ≡ returned_lifetimes catalog (Some ty)) }
{}

/// By what structs are known makes no difference, where those that are known otherwise have the
/// same fields: the leaves of inputs are the same, and so are their edges but for that.
pub fn readings_know_structs_by_anything<K, L>()
    ensures leaves { (f : K → L) (fields_of : K → List (Skeleton K))
        (others : L → List (Skeleton L))
        → ((key : K) → others (f key) ≡ map (known_as f) (fields_of key))
        → (count : ℕ) (inputs : List (Input K))
        → leaves_of_inputs others count (map (input_known_as f) inputs)
        ≡ leaves_of_inputs fields_of count inputs }
    ensures edges { (f : K → L) (test : ℕ → Bool) (inputs : List (Input K))
        → edges_of_inputs test (map (input_known_as f) inputs)
        ≡ map (map (edge_known_as f)) (edges_of_inputs test inputs) }
{}

/// The definitions of all items have the fields that are declared: what has the id of a place has
/// those of the struct there, and where no struct stands there are none.
pub fn lowered_structs_have_the_declared_fields()
    ensures { (it : Interface) (d : LoweredDefinitions) (place : ItemPlace)
        → IsCatalog it.modules it.catalog → AreAllLowered it d
        → fields_among d.structs.items (id_there it.catalog place)
        ≡ map (known_as (id_there it.catalog)) (declared_fields it place) }
{}

/// Both readings agree: the methods of each definition are read as those of the type at its place
/// are declared, and each function is as the one at its place is.
pub fn lowered_definitions_are_read_as_declared()
    ensures structs { (it : Interface) (d : LoweredDefinitions) → IsCatalog it.modules it.catalog
        → AreAllLowered it d → AllZip (λ (def : InputStruct) place.
        AreReadAsDeclared it (fields_among d.structs.items) def.methods place)
        d.structs.items (places_of it.modules kind.Struct) }
    ensures out_structs { (it : Interface) (d : LoweredDefinitions)
        → IsCatalog it.modules it.catalog → AreAllLowered it d
        → AllZip (λ (def : OutputStruct) place.
        AreReadAsDeclared it (fields_among d.structs.items) def.methods place)
        d.out_structs.items (places_of it.modules kind.OutStruct) }
    ensures opaques { (it : Interface) (d : LoweredDefinitions) → IsCatalog it.modules it.catalog
        → AreAllLowered it d → AllZip (λ (def : OpaqueDef) place.
        AreReadAsDeclared it (fields_among d.structs.items) def.methods place)
        d.opaques.items (places_of it.modules kind.Opaque) }
    ensures enums { (it : Interface) (d : LoweredDefinitions) → IsCatalog it.modules it.catalog
        → AreAllLowered it d → AllZip (λ (def : EnumDef) place.
        AreReadAsDeclared it (fields_among d.structs.items) def.methods place)
        d.enums.items (places_of it.modules kind.Enum) }
    ensures functions { (it : Interface) (d : LoweredDefinitions)
        → IsCatalog it.modules it.catalog → AreAllLowered it d
        → AllZip (IsFunctionRead it (fields_among d.structs.items))
        d.functions.items (places_of it.modules kind.Function) }
{}
