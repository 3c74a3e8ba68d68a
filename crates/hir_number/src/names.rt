//! What the paths name that are written in one module.

ghost use Rattle.std.specs.Prelude.{◌≡◌, ◌<◌, length, option_map, Some};
ghost use Rattle.bridge_ast.specs.Types.{trait_seen, type_seen};
ghost use Rattle.hir_number.specs.Naming.{IsNaming, Naming, struct_kind, trait_found, type_found};
ghost use Rattle.hir_number.specs.inside.Parts.{definition_seen, named_seen};

use crate::numbered::Kind;
use bridge_ast::{CustomType, Env, ItemPlace, TraitAt};
use bridge_decl::{LifetimeEnv, PathType};

/// A definition that declares lifetimes, if it can.
#[derive(Clone, Copy)]
pub struct Definition<'e> {
    pub place: ItemPlace,
    pub generics: Option<&'e LifetimeEnv>,
}

fn resolved<'e>(env: &'e Env, number: usize, path: &PathType) -> Option<CustomType<'e>>
    requires { number < length env.now }
    ensures { (names : Naming) → IsNaming env.now number names
        → type_seen result ≡ names.type_at path.now.segments }
{
    env.resolve(number, path)
}

fn resolved_trait<'e>(env: &'e Env, number: usize, path: &PathType) -> Option<TraitAt<'e>>
    requires { number < length env.now }
    ensures { (names : Naming) → IsNaming env.now number names
        → trait_seen result ≡ names.trait_at path.now.segments }
{
    env.resolve_trait(number, path)
}

fn kind_of_struct(output_only: bool) -> Kind
    ensures { result ≡ struct_kind output_only }
{
    if output_only {
        Kind::OutStruct
    } else {
        Kind::Struct
    }
}

/// The definition of a type, and its kind.
fn definition_of<'e>(found: CustomType<'e>) -> (Definition<'e>, Kind)
    ensures { option_map named_seen (Some result) ≡ type_found (type_seen (Some found.entry)) }
{
    match found {
        CustomType::Struct(item, place) => (
            Definition {
                place,
                generics: Some(&item.lifetimes),
            },
            kind_of_struct(item.output_only),
        ),
        CustomType::Opaque(item, place) => (
            Definition {
                place,
                generics: Some(&item.lifetimes),
            },
            Kind::Opaque(item.mutability),
        ),
        CustomType::Enum(_, place) => (
            Definition {
                place,
                generics: None,
            },
            Kind::Enum,
        ),
    }
}

/// The type that a path names.
pub fn find_type<'e>(
    env: &'e Env,
    number: usize,
    type_path: &PathType,
) -> Option<(Definition<'e>, Kind)>
    requires { number < length env.now }
    ensures { (names : Naming) → IsNaming env.now number names
        → option_map named_seen result ≡ type_found (names.type_at type_path.now.segments) }
{
    match resolved(env, number, type_path) {
        Some(found) => Some(definition_of(found)),
        None => None,
    }
}

/// The trait that a path names.
pub fn find_trait<'e>(env: &'e Env, number: usize, path: &PathType) -> Option<Definition<'e>>
    requires { number < length env.now }
    ensures { (names : Naming) → IsNaming env.now number names
        → option_map definition_seen result ≡ trait_found (names.trait_at path.now.segments) }
{
    match resolved_trait(env, number, path) {
        Some(found) => Some(Definition {
            place: found.place,
            generics: Some(&found.decl.lifetimes),
        }),
        None => None,
    }
}

/// Paths that are written in a module have a meaning by the cases of the Rust Reference, and one alone, so that what is said of each
/// `IsNaming` is said of one. The call does nothing: its contract is the law.
pub fn paths_have_a_meaning(env: &Env, number: usize)
    requires { number < length env.now }
    ensures { (names : Naming) × IsNaming env.now number names }
{
    env.names_as_in_the_reference();
}
