//! What paths name in an environment.

ghost use Rattle.std.specs.Prelude.{◌≡◌, ◌<◌, ◌↔◌, ◌⊎◌, ℕ, List, length, None, Some, option_and_then};
ghost use Rattle.std.specs.Option.{option_copied};
ghost use Rattle.bridge_ast.specs.declared.place.ItemPlace.{ItemPlace};
ghost use Rattle.bridge_decl.specs.declared.modules.Item.{Item};
ghost use Rattle.bridge_decl.specs.declared.traits.Trait.{Trait};
ghost use Rattle.bridge_ast.specs.Paths.{NamesItem};
ghost use Rattle.bridge_ast.specs.inside.Resolution.{named_item, as_type, as_trait};
ghost use Rattle.bridge_ast.specs.Types.{NamesType, NamesTrait, item_of, type_seen, trait_seen};

use crate::environment::Env;
use crate::place::ItemPlace;
use crate::trail::{Stand, follow};
use bridge_decl::{Enum, Item, Module, OpaqueType, PathType, Struct, Trait};
use sqlite_items::at;

/// A type of an environment, with its place.
#[derive(Clone, Copy)]
pub enum CustomType<'e> {
    /// A struct or an out-struct.
    Struct(&'e Struct, ItemPlace),
    /// An opaque.
    Opaque(&'e OpaqueType, ItemPlace),
    /// An enum.
    Enum(&'e Enum, ItemPlace),
}

/// A trait of an environment, with its place.
#[derive(Clone, Copy)]
pub struct TraitAt<'e> {
    /// The trait.
    pub decl: &'e Trait,
    /// Its place.
    pub place: ItemPlace,
}

/// The item at a place.
fn item_at(modules: &[Module], place: ItemPlace) -> Option<&Item>
    ensures { option_copied result ≡ item_of modules.now place }
{
    at(at(modules, place.module)?.items.as_slice(), place.item)
}

/// The struct, opaque or enum at a place.
fn type_at(modules: &[Module], place: ItemPlace) -> Option<CustomType<'_>>
    ensures { type_seen result ≡ option_and_then (as_type place) (item_of modules.now place) }
{
    match item_at(modules, place)? {
        Item::Struct(item) => Some(CustomType::Struct(item, place)),
        Item::Opaque(item) => Some(CustomType::Opaque(item, place)),
        Item::Enum(item) => Some(CustomType::Enum(item, place)),
        Item::Trait(_) | Item::Function(_) => None,
    }
}

/// The trait at a place.
fn trait_at(modules: &[Module], place: ItemPlace) -> Option<TraitAt<'_>>
    ensures { trait_seen result ≡ option_and_then (as_trait place) (item_of modules.now place) }
{
    match item_at(modules, place)? {
        Item::Trait(decl) => Some(TraitAt { decl, place }),
        Item::Struct(_) | Item::Opaque(_) | Item::Enum(_) | Item::Function(_) => None,
    }
}

impl Env {
    /// The item that a path names, read in the module of a number.
    fn find_item(&self, in_module: usize, path: &PathType) -> Option<ItemPlace>
        requires { in_module < length self.now }
        ensures { result ≡ named_item self.now in_module path.now.segments }
    {
        let segments = path.segments.as_slice();
        let most = self.aliases as u128 + segments.len() as u128;
        let trail = follow(self.scopes.as_slice(), &self.ends, in_module, segments)?;
        if trail.steps > most {
            return None;
        }
        match trail.stand {
            Stand::Item(place) => Some(place),
            Stand::Module(_, _) => None,
        }
    }

    /// The struct, opaque or enum that a path names, read in the module of a number; none where it names nothing of these
    /// kinds.
    ///
    /// Paths are read as the Rust Reference says: a first segment `crate` leads to the root, `self` to the module itself, and
    /// each `super` at the start or after these to the parent, which the root has not. Each other segment is the name of a
    /// submodule, of an alias, or of an item, which stands last. An alias is replaced by its target, and the path that comes of
    /// it is read in the alias's module. As many aliases are followed as there are in the environment and segments in the path.
    pub fn resolve(&self, in_module: usize, path: &PathType) -> Option<CustomType<'_>>
        requires { in_module < length self.now }
        ensures named { (item : Item) (place : ItemPlace)
            → (type_seen result ≡ Some (item, place))
            ↔ NamesType self.now in_module path.now.segments item place }
        ensures nothing { (result ≡ None) ↔ ((item : Item) (place : ItemPlace)
            → ¬ NamesType self.now in_module path.now.segments item place) }
    {
        let modules = self.modules.as_slice();
        let place = self.find_item(in_module, path)?;
        type_at(modules, place)
    }

    /// The trait that a path names, read in the module of a number; none where it names nothing or an item of another kind.
    /// Paths are read as by [`Env::resolve`].
    pub fn resolve_trait(&self, in_module: usize, path: &PathType) -> Option<TraitAt<'_>>
        requires { in_module < length self.now }
        ensures named { (decl : Trait) (place : ItemPlace)
            → (trait_seen result ≡ Some (decl, place))
            ↔ NamesTrait self.now in_module path.now.segments decl place }
        ensures nothing { (result ≡ None) ↔ ((decl : Trait) (place : ItemPlace)
            → ¬ NamesTrait self.now in_module path.now.segments decl place) }
    {
        let modules = self.modules.as_slice();
        let place = self.find_item(in_module, path)?;
        trait_at(modules, place)
    }

    /// A path names one item at most, by the cases of the Rust Reference, and it is decided whether it names any: a path that
    /// goes in a circle names nothing. The call does nothing: its contract is the law.
    pub fn names_as_in_the_reference(&self)
        ensures once { (number : ℕ) (path : List (List ℕ)) (one other : ItemPlace)
            → NamesItem self.now number path one → NamesItem self.now number path other
            → one ≡ other }
        ensures decided { (number : ℕ) (path : List (List ℕ)) → number < length self.now
            → ((place : ItemPlace) × NamesItem self.now number path place)
            ⊎ ((place : ItemPlace) → ¬ NamesItem self.now number path place) }
    {
        let _ = &self.modules;
    }
}
