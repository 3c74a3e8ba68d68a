//! What the paths name that are written in one module.

ghost use Rattle.std.specs.Prelude.{◌≡◌, ◌<◌, length, option_map};
ghost use Rattle.bridge_ast.specs.Types.{trait_seen, type_seen};
ghost use Rattle.hir_number.specs.Naming.{IsNaming, Naming, trait_found};
ghost use Rattle.hir_number_slow.specs.Seen.{found_seen};
ghost use Rattle.hir_number_slow.specs.inside.Parts.{definition_found};

use crate::uses::Found;
use bridge_ast::{CustomType, Env, TraitAt};
use bridge_decl::PathType;

fn resolved<'e>(env: &'e Env, number: usize, path: &PathType) -> Option<CustomType<'e>>
    requires { number < length env.now }
    ensures { (names : Naming) → IsNaming env.now number names
        → type_seen result ≡ names.type_at path.now.segments }
{
    env.resolve(number, path)
}

fn resolved_trait<'e>(env: &'e Env, number: usize, path: &PathType) -> Option<TraitAt<'e>>
    requires { number < length env.now }
    ensures { (names : Naming) → IsNaming env.now number names
        → trait_seen result ≡ names.trait_at path.now.segments }
{
    env.resolve_trait(number, path)
}

/// The type that a path names.
pub fn find_type(env: &Env, number: usize, path: &PathType) -> Option<Found>
    requires { number < length env.now }
    ensures { (names : Naming) → IsNaming env.now number names
        → option_map found_seen result ≡ definition_found (names.type_at path.now.segments) }
{
    match resolved(env, number, path) {
        Some(CustomType::Struct(item, place)) => Some(Found {
            place,
            count: item.lifetimes.nodes.len(),
        }),
        Some(CustomType::Opaque(item, place)) => Some(Found {
            place,
            count: item.lifetimes.nodes.len(),
        }),
        Some(CustomType::Enum(_, place)) => Some(Found { place, count: 0 }),
        None => None,
    }
}

/// The trait that a path names.
pub fn find_trait(env: &Env, number: usize, path: &PathType) -> Option<Found>
    requires { number < length env.now }
    ensures { (names : Naming) → IsNaming env.now number names
        → option_map found_seen result ≡ trait_found (names.trait_at path.now.segments) }
{
    match resolved_trait(env, number, path) {
        Some(found) => Some(Found {
            place: found.place,
            count: found.decl.lifetimes.nodes.len(),
        }),
        None => None,
    }
}
