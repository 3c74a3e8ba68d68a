//! Definitions with the paths of their modules.

ghost use Rattle.std.specs.Prelude.{◌≡◌, ◌++◌, ◌∷◌, [], IfOk, OnOk};
ghost use Rattle.bridge_places.specs.Places.{of_kind, places_of};
ghost use Rattle.bridge_places.specs.declared.kinds.Kind.{Kind};
ghost use Rattle.hir_lower.specs.Placing.{path_of_place};
ghost use Rattle.hir_lower.specs.inside.Parts.{StandAtPlaces, AreParts, path_of_number};

use bridge_ast::{Env, ItemPlace};
use bridge_decl::{Items, NoMemory, Text};
use bridge_places::{ItemOrder, Kind};
use hir_context::{ContextParts, Placed};
use hir_usage_notes::LoweredDefinitions;
use sqlite_items::at;
use std::alloc::Global;

/// A copy of a path.
fn path_copy(alloc: Global, path: &[Text]) -> Result<Items<Text>, NoMemory>
    ensures { IfOk result (λ copy. copy ≡ path.now) }
{
    let mut copy = Items::new(alloc);
    for segment in path {
        copy.push(segment.try_clone(alloc)?)?;
    }
    Ok(copy)
}

/// The path of the module of a place.
fn module_path(alloc: Global, env: &Env, place: ItemPlace) -> Result<Items<Text>, NoMemory>
    ensures { IfOk result (λ path. path ≡ path_of_place env.now place) }
{
    match at(env.modules(), place.module) {
        Some(module) => path_copy(alloc, module.path.as_slice()),
        None => Ok(Items::new(alloc)),
    }
}

/// That of the place of a number.
fn numbered_path(
    alloc: Global,
    env: &Env,
    places: &[ItemPlace],
    number: usize,
) -> Result<Items<Text>, NoMemory>
    ensures { IfOk result (λ path. path ≡ path_of_number env.now places.now number) }
{
    match at(places, number) {
        Some(place) => module_path(alloc, env, *place),
        None => Ok(Items::new(alloc)),
    }
}

/// A definition with the path of its module, behind others.
fn place_one<D: Drop>(
    placed: &mut Vec<Placed<D>>,
    def: D,
    module: Items<Text>,
) -> Result<(), NoMemory>
    ensures { OnOk result (placed.new.items
        ≡ placed.old.items ++ record { def = def; «module» = «module» } ∷ []) }
{
    placed.push(Placed { def, module })?;
    Ok(())
}

/// Definitions with the paths of their modules, where each stands at the place of its number.
/// Nothing of a definition is copied.
fn place_all<D: Drop>(
    alloc: Global,
    env: &Env,
    places: &[ItemPlace],
    defs: Vec<D>,
) -> Result<Items<Placed<D>>, NoMemory>
    ensures { IfOk result (StandAtPlaces env.now places.now defs.items) }
{
    let mut left = Items::from_vec(defs);
    let mut placed = Vec::new(alloc);
    while let Some(def) = left.pop() {
        let module = numbered_path(alloc, env, places, left.len())?;
        place_one(&mut placed, def, module)?;
    }
    placed.reverse();
    Ok(Items::from_vec(placed))
}

/// The definitions of all kinds with the paths of their modules, by that order of the items.
pub(crate) fn parts_of(
    alloc: Global,
    env: &Env,
    order: &ItemOrder,
    defs: LoweredDefinitions,
) -> Result<ContextParts, NoMemory>
    requires places { (k : Kind) → of_kind k order.now.places ≡ places_of env.now k }
    ensures { IfOk result (AreParts env.now defs) }
{
    let at = order.places.of_kind(Kind::OutStruct);
    let out_structs = place_all(alloc, env, at, defs.out_structs)?;
    let at = order.places.of_kind(Kind::Struct);
    let structs = place_all(alloc, env, at, defs.structs)?;
    let at = order.places.of_kind(Kind::Opaque);
    let opaques = place_all(alloc, env, at, defs.opaques)?;
    let at = order.places.of_kind(Kind::Enum);
    let enums = place_all(alloc, env, at, defs.enums)?;
    let at = order.places.of_kind(Kind::Trait);
    let traits = place_all(alloc, env, at, defs.traits)?;
    let at = order.places.of_kind(Kind::Function);
    let functions = place_all(alloc, env, at, defs.functions)?;
    Ok(ContextParts {
        out_structs,
        structs,
        opaques,
        enums,
        traits,
        functions,
    })
}
